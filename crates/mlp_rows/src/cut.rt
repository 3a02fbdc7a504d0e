//! The command `cut`.
use crate::runs::{Edge, WHOLE, assert_run};
use crate::streams::SILENT;
use std::test::Fail;

/// Two streams one behind the other: units of 58, 10, 58 and 10 bytes, of which the first and the third have a major sync.
fn twice() -> [u8; 136] {
    let mut both = [0; 136];
    both[..68].copy_from_slice(&SILENT);
    both[68..].copy_from_slice(&SILENT);
    both
}

/// Each with the bytes of the stream that come out, from one to before another.
#[test]
fn writes_units_byte_for_byte(rt: HostRuntime) -> Result<(), Fail> {
    let stream = twice();
    let cases = [
        ("cut --first 0 --count 4", 0, 136, 0, ""),
        ("cut --count 1 --first 0", 0, 58, 0, ""),
        ("cut --first 2 --count 2", 68, 136, 0, ""),
        ("cut --first 2 --count 1", 68, 126, 0, ""),
        ("cut --first 1 --count 0", 0, 0, 0, ""),
        ("cut --first 4 --count 0", 0, 0, 0, ""),
        (
            "cut --first 1 --count 1",
            0,
            0,
            11,
            "no cut: unit 1 has no restart\n",
        ),
        ("cut --first 2 --count 3", 68, 136, 11, "no cut: 4 units\n"),
        ("cut --first 5 --count 0", 0, 0, 11, "no cut: 4 units\n"),
        (
            "cut --first 4 --count 1099511627776",
            0,
            0,
            11,
            "no cut: 4 units\n",
        ),
    ];
    for (words, start, end, status, line) in cases {
        for piece in [7, 8190] {
            let edge = Edge { piece, ..WHOLE };
            assert_run(
                &rt,
                rt.alloc(),
                words,
                &stream,
                &edge,
                (status, &stream[start..end], line),
            )?;
        }
    }
    Ok(())
}

/// A byte of the stream is changed: units before the cut, of it and behind it are all read.
#[test]
fn refuses_what_breaks_a_rule_of_the_outer_parts(rt: HostRuntime) -> Result<(), Fail> {
    let cases = [
        (
            "cut --first 2 --count 1",
            0,
            0,
            "bad stream: unit 0, substream 0, UnitParity, bit 0\n",
        ),
        (
            "cut --first 1 --count 1",
            58,
            0,
            "bad stream: unit 1, substream 0, UnitParity, bit 0\n",
        ),
        (
            "cut --first 0 --count 1",
            126,
            58,
            "bad stream: unit 3, substream 0, UnitParity, bit 0\n",
        ),
    ];
    for (words, place, output, line) in cases {
        let mut stream = twice();
        stream[place] ^= 0x10;
        assert_run(
            &rt,
            rt.alloc(),
            words,
            &stream,
            &WHOLE,
            (1, &stream[..output], line),
        )?;
    }
    let line = "bad stream: unit 0, substream 0, UnitHeader, bit 0\n";
    assert_run(
        &rt,
        rt.alloc(),
        "cut --first 0 --count 0",
        &[],
        &WHOLE,
        (1, &[], line),
    )
}
