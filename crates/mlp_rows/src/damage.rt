//! Streams with a changed bit or with their end cut off.
use crate::runs::{Edge, WHOLE, assert_run};
use crate::streams::{ENDED, RAMPS, ramp_samples};
use std::test::Fail;

const WORDS: &str = "decode-raw --presentation 0";

const SMALL: Edge<'static> = Edge { room: 10, ..WHOLE };

/// The rule that `ENDED` breaks where this bit is changed, and the place in its access unit.
fn broken_by(bit: usize) -> (&'static str, u32) {
    match bit {
        0..=3 | 16..=31 | 256..=271 => ("UnitParity", 0),
        4..=15 => ("UnitLength", 4),
        32..=62 => ("FirstSync", 32),
        63..=255 => ("MajorCrc", 32),
        272..=503 => ("SegmentParity", 496),
        _ => ("SegmentCheck", 504),
    }
}

#[test]
fn names_the_rule_that_each_changed_bit_breaks(rt: HostRuntime) -> Result<(), Fail> {
    for bit in 0..512 {
        let mut stream = ENDED;
        stream[bit / 8] ^= 0x80 >> (bit % 8);
        let (rule, place) = broken_by(bit);
        let line = format!(in rt.alloc();
            "bad stream: unit 0, substream 0, {rule}, bit {place}\n"
        )?;
        assert_run(
            &rt,
            rt.alloc(),
            WORDS,
            &stream,
            &SMALL,
            (1, &[], line.as_str()),
        )?;
    }
    Ok(())
}

#[test]
fn names_the_rule_that_each_missing_end_breaks(rt: HostRuntime) -> Result<(), Fail> {
    for left in 0..64 {
        let line = if left < 4 {
            "bad stream: unit 0, substream 0, UnitHeader, bit 0\n"
        } else {
            "bad stream: unit 0, substream 0, UnitLength, bit 4\n"
        };
        assert_run(
            &rt,
            rt.alloc(),
            WORDS,
            &ENDED[..left],
            &SMALL,
            (1, &[], line),
        )?;
    }
    Ok(())
}

/// The lossless check of the second restart is another, and the checks over it are made to fit.
#[test]
fn refuses_a_restart_that_disagrees_with_the_samples(rt: HostRuntime) -> Result<(), Fail> {
    let mut stream = RAMPS;
    for (place, other) in [(298, 0x80), (302, 0xAE), (360, 0x92), (361, 0x7E)] {
        if let Some(byte) = stream.get_mut(place) {
            *byte = other;
        }
    }
    let mut samples = ramp_samples(rt.alloc())?;
    samples.truncate(640 * 6);
    let line = "bad stream: unit 16, substream 0, LosslessCheck, bit 363\n";
    assert_run(&rt, rt.alloc(), WORDS, &stream, &WHOLE, (1, &samples, line))
}
