//! Each command where a read or a write fails.
use crate::runs::{Edge, WHOLE, assert_run, run_over};
use crate::streams::{SILENT, raw_samples, raw_unit};
use std::test::Fail;

const COMMANDS: [&str; 8] = [
    "decode-raw --presentation 0",
    "decode-wav --presentation 0",
    "extract --presentation 0",
    "list",
    "check --presentation 0",
    "cut --first 0 --count 1",
    "recover --presentation 0",
    "retime",
];

/// The second read has the end of the stream, or the rest of the first unit.
#[test]
fn tells_a_read_that_fails(rt: HostRuntime) -> Result<(), Fail> {
    for words in COMMANDS {
        for piece in [30, 100] {
            let edge = Edge {
                piece,
                read_fails: &[1],
                ..WHOLE
            };
            let seen = run_over(rt.alloc(), words, &SILENT, &edge)?;
            assert_eq!(rt; seen.status, 5, "of {words}");
            assert_eq!(rt;
                seen.line.as_slice(),
                b"read fault\n".as_slice(),
                "of {words}"
            );
            assert_eq!(rt; seen.late, 0, "of {words}");
        }
    }
    Ok(())
}

#[test]
fn tells_a_write_that_fails(rt: HostRuntime) -> Result<(), Fail> {
    for words in COMMANDS {
        let edge = Edge {
            write_fails: &[0],
            ..WHOLE
        };
        assert_run(
            &rt,
            rt.alloc(),
            words,
            &SILENT,
            &edge,
            (6, &[], "write fault\n"),
        )?;
    }
    Ok(())
}

#[test]
fn writes_as_much_as_there_is_room_for(rt: HostRuntime) -> Result<(), Fail> {
    let edge = Edge { room: 100, ..WHOLE };
    let unit = raw_unit(rt.alloc())?;
    let mut front = raw_samples(rt.alloc())?;
    front.truncate(100);
    let want = (6, front.as_slice(), "write fault\n");
    assert_run(
        &rt,
        rt.alloc(),
        "decode-raw --presentation 0",
        &unit,
        &edge,
        want,
    )
}
