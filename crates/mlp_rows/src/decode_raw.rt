//! The command `decode-raw` over stereo streams.
use crate::runs::{Edge, WHOLE, assert_run, run_over};
use crate::streams::{ENDED, RAMPS, SILENT, ramp_samples, raw_samples, raw_unit, raw_units};
use std::test::Fail;

const WORDS: &str = "decode-raw --presentation 0";

#[test]
fn decodes_units_in_any_pieces(rt: HostRuntime) -> Result<(), Fail> {
    let alloc = rt.alloc();
    let mut samples = raw_samples(alloc)?;
    for piece in [1, 7, 8190] {
        let edge = Edge { piece, ..WHOLE };
        assert_run(
            &rt,
            rt.alloc(),
            WORDS,
            &raw_unit(alloc)?,
            &edge,
            (0, &samples, ""),
        )?;
    }
    samples.resize(480, 0)?;
    assert_run(
        &rt,
        rt.alloc(),
        WORDS,
        &raw_units(alloc, 1)?,
        &WHOLE,
        (0, &samples, ""),
    )
}

#[test]
fn decodes_predicted_samples_in_any_pieces(rt: HostRuntime) -> Result<(), Fail> {
    let samples = ramp_samples(rt.alloc())?;
    for piece in [1, 2, 7, 8190] {
        let edge = Edge { piece, ..WHOLE };
        assert_run(&rt, rt.alloc(), WORDS, &RAMPS, &edge, (0, &samples, ""))?;
    }
    Ok(())
}

#[test]
fn decodes_channels_in_either_order(rt: HostRuntime) -> Result<(), Fail> {
    let alloc = rt.alloc();
    // matrix channel 0 goes to output channel 1, and the restart's check is that of these bits; the padding may be anything
    let mut unit = raw_unit(alloc)?;
    for (place, other) in [(49, 0x81), (50, 0x1A), (293, 0xFF)] {
        if let Some(byte) = unit.get_mut(place) {
            *byte = other;
        }
    }
    let exchanged = run_over(alloc, WORDS, &unit, &WHOLE)?;
    assert_eq!(rt; exchanged.status, 0);
    assert_eq!(rt;
        exchanged.output.get(..6),
        Some([0xFF, 0xFF, 0xFF, 0x01, 0x00, 0x00].as_slice())
    );
    Ok(())
}

/// A byte of the stream is changed, and some of its bytes are left.
#[test]
fn decodes_or_refuses_silence(rt: HostRuntime) -> Result<(), Fail> {
    let silence = [0; 480];
    let cases = [
        (0, 0xD0, 58, 240, ""),
        (0, 0xD0, 68, 480, ""),
        (
            0,
            0xD0,
            0,
            0,
            "bad stream: unit 0, substream 0, UnitHeader, bit 0\n",
        ),
        (
            0,
            0xD0,
            3,
            0,
            "bad stream: unit 0, substream 0, UnitHeader, bit 0\n",
        ),
        (
            0,
            0xD0,
            57,
            0,
            "bad stream: unit 0, substream 0, UnitLength, bit 4\n",
        ),
        (
            58,
            0x50,
            68,
            240,
            "bad stream: unit 1, substream 0, UnitParity, bit 0\n",
        ),
        (
            66,
            0xE8,
            68,
            240,
            "bad stream: unit 1, substream 0, SegmentParity, bit 64\n",
        ),
        (
            67,
            0x1C,
            68,
            240,
            "bad stream: unit 1, substream 0, SegmentCheck, bit 72\n",
        ),
    ];
    for (place, other, left, output, line) in cases {
        let mut stream = SILENT.to_vec(rt.alloc())?;
        if let Some(byte) = stream.get_mut(place) {
            *byte = other;
        }
        stream.truncate(left);
        let status = u8::from(!line.is_empty());
        assert_run(
            &rt,
            rt.alloc(),
            WORDS,
            &stream,
            &WHOLE,
            (status, &silence[..output], line),
        )?;
    }
    Ok(())
}

/// A stream that ends, alone and twice; the word of its terminator that says how many frames are dropped.
#[test]
fn ends_behind_a_terminator(rt: HostRuntime) -> Result<(), Fail> {
    assert_run(&rt, rt.alloc(), WORDS, &ENDED, &WHOLE, (0, &[0; 6], ""))?;
    let mut none = ENDED.to_vec(rt.alloc())?;
    none.truncate(61);
    none.extend_from_slice(&[0x29, 0xF6, 0x96])?;
    assert_run(&rt, rt.alloc(), WORDS, &none, &WHOLE, (0, &[], ""))?;
    let mut twice = ENDED.to_vec(rt.alloc())?;
    twice.extend_from_slice(&ENDED)?;
    let line = "bad stream: unit 1, substream 0, AfterEnd, bit 0\n";
    assert_run(&rt, rt.alloc(), WORDS, &twice, &WHOLE, (1, &[0; 6], line))
}

#[test]
fn asks_for_presentations_and_bits(rt: HostRuntime) -> Result<(), Fail> {
    let cases = [
        (
            "decode-raw --presentation 1",
            8,
            0,
            "no presentation: 1 of 1\n",
        ),
        (
            "decode-raw --presentation 0 --bits 16",
            10,
            0,
            "low bits: frame 0\n",
        ),
        ("decode-raw --bits 24 --presentation 0", 0, 240, ""),
        ("decode-raw --presentation 3", 2, 0, "usage\n"),
        ("decode-raw --presentation 0 --bits 20", 2, 0, "usage\n"),
    ];
    let unit = raw_unit(rt.alloc())?;
    let samples = raw_samples(rt.alloc())?;
    for (words, status, output, line) in cases {
        let want = (status, samples.get(..output).unwrap_or(&[]), line);
        assert_run(&rt, rt.alloc(), words, &unit, &WHOLE, want)?;
    }
    let upper = "decode-raw --bits 16 --presentation 0";
    assert_run(&rt, rt.alloc(), upper, &SILENT, &WHOLE, (0, &[0; 320], ""))
}

/// The units have 35,014 bytes, and more of them is read after the first writes.
#[test]
fn calls_neither_side_after_a_call_that_failed(rt: HostRuntime) -> Result<(), Fail> {
    let alloc = rt.alloc();
    let units = raw_units(alloc, 140)?;
    for call in 0..9 {
        let edge = Edge {
            piece: 4000,
            read_fails: &[call],
            ..WHOLE
        };
        let read = run_over(alloc, WORDS, &units, &edge)?;
        assert_eq!(rt; read.status, 5, "at {call}");
        assert_eq!(rt; read.late, 0, "at {call}");
        assert!(rt; call < 8 || read.output.len() > 0, "at {call}");
    }
    for call in 0..9 {
        let edge = Edge {
            piece: 4000,
            write_fails: &[call],
            ..WHOLE
        };
        let write = run_over(alloc, WORDS, &units, &edge)?;
        assert_eq!(rt; write.status, 6, "at {call}");
        assert_eq!(rt; write.late, 0, "at {call}");
    }
    Ok(())
}
