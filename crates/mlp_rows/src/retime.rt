//! The command `retime`.
use crate::runs::{Edge, WHOLE, assert_run};
use crate::streams::{EARLY, ENDED, RAMPS, SILENT};
use std::test::Fail;

#[test]
fn gives_each_unit_its_earliest_time(rt: HostRuntime) -> Result<(), Fail> {
    let cases: [(&[u8], &[u8]); 4] = [
        (&EARLY, &SILENT),
        (&SILENT, &SILENT),
        (&ENDED, &ENDED),
        (&RAMPS, &RAMPS),
    ];
    for (stream, retimed) in cases {
        for piece in [7, 8190] {
            let edge = Edge { piece, ..WHOLE };
            assert_run(&rt, rt.alloc(), "retime", stream, &edge, (0, retimed, ""))?;
        }
    }
    Ok(())
}
