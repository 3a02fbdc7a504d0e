//! The command `extract`.
use crate::runs::{WHOLE, assert_run, run_over};
use crate::streams::{ENDED, LONG_SYNC, RAMPS, SILENT, noise};
use std::test::Fail;

/// A stream of one presentation without extra data is all that this presentation needs.
#[test]
fn gives_a_stream_of_one_presentation_again(rt: HostRuntime) -> Result<(), Fail> {
    let cases: [&[u8]; 4] = [&SILENT, &ENDED, &LONG_SYNC, &RAMPS];
    for stream in cases {
        assert_run(
            &rt,
            rt.alloc(),
            "extract --presentation 0",
            stream,
            &WHOLE,
            (0, stream, ""),
        )?;
    }
    Ok(())
}

/// A presentation of two of eight channels is the same behind the extraction, which doesn't look at what lies above it:
/// the last byte of unit 0 belongs to substream 2.
#[test]
fn gives_a_lower_presentation_whatever_lies_above(rt: HostRuntime) -> Result<(), Fail> {
    let alloc = rt.alloc();
    let pcm = noise(alloc, 640)?;
    let encode = "encode-raw --format truehd --rate 48000 --channels 8 --bits 24 --mix fold";
    let extract = "extract --presentation 0";
    let decode = "decode-raw --presentation 0";
    let mut stream = run_over(alloc, encode, &pcm, &WHOLE)?.output;
    let lower = run_over(alloc, extract, &stream, &WHOLE)?.output;
    let shown = run_over(alloc, decode, &stream, &WHOLE)?.output;
    assert_eq!(rt; shown.len(), 480);
    assert_run(&rt, rt.alloc(), decode, &lower, &WHOLE, (0, &shown, ""))?;
    let words = match stream.as_slice() {
        [first, second, ..] => usize::from(*first % 16) * 256 + usize::from(*second),
        _ => 0,
    };
    if let Some(byte) = stream.get_mut((2 * words).saturating_sub(1)) {
        *byte ^= 1;
    }
    let line = "bad stream: unit 0, substream 2, SegmentCheck, bit ";
    let seen = run_over(alloc, "decode-raw --presentation 2", &stream, &WHOLE)?;
    assert_eq!(rt; seen.status, 1);
    assert_eq!(rt; seen.line.get(..line.len()), Some(line.as_bytes()));
    assert_run(&rt, rt.alloc(), extract, &stream, &WHOLE, (0, &lower, ""))
}
