//! The command `check`.
use crate::runs::{Edge, WHOLE, assert_run};
use crate::streams::{EARLY, ENDED, RAMPS, SILENT};
use std::test::Fail;

const WORDS: &str = "check --presentation 0";

const TIMED: &str = "units 2\nframes 80\nchannels 2\nrate 48000\nrestarts 1\ntiming yes\n";

const NOT_TIMED: &str = "units 2\nframes 80\nchannels 2\nrate 48000\nrestarts 1\ntiming no\n";

const ONE_FRAME: &str = "units 1\nframes 1\nchannels 2\nrate 48000\nrestarts 1\ntiming yes\n";

const SEVENTEEN: &str = "units 17\nframes 680\nchannels 2\nrate 48000\nrestarts 2\ntiming yes\n";

#[test]
fn tells_what_streams_hold(rt: HostRuntime) -> Result<(), Fail> {
    let cases: [(&[u8], &str); 4] = [
        (&SILENT, TIMED),
        (&EARLY, NOT_TIMED),
        (&ENDED, ONE_FRAME),
        (&RAMPS, SEVENTEEN),
    ];
    for (stream, text) in cases {
        for piece in [7, 8190] {
            let edge = Edge { piece, ..WHOLE };
            assert_run(
                &rt,
                rt.alloc(),
                WORDS,
                stream,
                &edge,
                (0, text.as_bytes(), ""),
            )?;
        }
    }
    Ok(())
}
