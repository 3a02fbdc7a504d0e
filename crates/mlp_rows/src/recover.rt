//! The command `recover`.
use crate::runs::{WHOLE, assert_run};
use crate::streams::{ENDED, RAMPS, SILENT, ramp_samples};
use std::test::Fail;

const WORDS: &str = "recover --presentation 0";

/// Three bytes before a stream.
#[test]
fn passes_over_what_is_no_stream(rt: HostRuntime) -> Result<(), Fail> {
    let mut bytes = [0; 71];
    bytes[3..].copy_from_slice(&SILENT);
    let line = b"lost 0 3\nkept 3 71 units 2 channels 2 rate 48000 bytes 480\n";
    let mut text = line.to_vec(rt.alloc())?;
    text.resize(line.len() + 480, 0)?;
    assert_run(&rt, rt.alloc(), WORDS, &bytes, &WHOLE, (0, &text, ""))
}

/// Nothing is kept of an interval with a damaged unit, and the next one is kept only where it meets every rule behind it.
#[test]
fn loses_an_interval_with_a_damaged_unit(rt: HostRuntime) -> Result<(), Fail> {
    let mut silence = SILENT;
    silence[66] = 0xE8;
    assert_run(
        &rt,
        rt.alloc(),
        WORDS,
        &silence,
        &WHOLE,
        (0, b"lost 0 68\n", ""),
    )?;
    let mut ramps = RAMPS;
    ramps[200] ^= 0x01;
    let line = b"lost 0 252\nkept 252 362 units 1 channels 2 rate 48000 bytes 240\n";
    let mut text = line.to_vec(rt.alloc())?;
    let samples = ramp_samples(rt.alloc())?;
    text.extend_from_slice(samples.get(3840..).unwrap_or(&[]))?;
    assert_run(&rt, rt.alloc(), WORDS, &ramps, &WHOLE, (0, &text, ""))
}

#[test]
fn keeps_streams_that_stand_one_behind_the_other(rt: HostRuntime) -> Result<(), Fail> {
    let mut twice = [0; 128];
    twice[..64].copy_from_slice(&ENDED);
    twice[64..].copy_from_slice(&ENDED);
    let text =
        b"kept 0 64 units 1 channels 2 rate 48000 bytes 6\n\0\0\0\0\0\0kept 64 128 units 1 channels 2 rate 48000 bytes 6\n\0\0\0\0\0\0";
    assert_run(&rt, rt.alloc(), WORDS, &twice, &WHOLE, (0, text, ""))
}
