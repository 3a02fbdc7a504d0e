//! The command `list`.
use crate::runs::{Edge, WHOLE, assert_run};
use crate::streams::SILENT;
use std::test::Fail;

/// The outer parts of two units of MLP at 44.1 kHz. In each, two bytes stand behind the segment.
const MLP: [u8; 50] = [
    0x80, 0x14, 0xFF, 0xFF, 0xF8, 0x72, 0x6F, 0xBB, 0x1F, 0x88, 0xFF, 0xFF, 0xB7, 0x52, 0x00, 0x00,
    0x00, 0x00, 0x97, 0x6F, 0x10, 0x00, 0x00, 0x00, 0x00, 0x00, 0x00, 0x00, 0x00, 0x00, 0xE3, 0x62,
    0x00, 0x02, 0x00, 0x00, 0x00, 0x00, 0x00, 0x00, 0xA0, 0x05, 0x00, 0x27, 0x40, 0x01, 0x00, 0x00,
    0x00, 0x00,
];

/// A unit of four substreams, the first with an extra word. Two bytes stand behind the segments.
const FOUR: [u8; 52] = [
    0xC0, 0x1A, 0x01, 0x02, 0xF8, 0x72, 0x6F, 0xBA, 0x00, 0x00, 0x80, 0x01, 0xB7, 0x52, 0x00, 0x00,
    0x00, 0x00, 0x97, 0x6F, 0x40, 0x83, 0x00, 0x00, 0x00, 0x00, 0x00, 0x00, 0x00, 0x00, 0x6C, 0x12,
    0x80, 0x01, 0x12, 0x34, 0x00, 0x01, 0x00, 0x03, 0x00, 0x04, 0x00, 0x00, 0x00, 0x00, 0x00, 0x00,
    0x00, 0x00, 0x00, 0x00,
];

const FIRST: &str = "unit 0 bytes 58 time 0 sync truehd 48000 substreams 1 ends 12 extra 0\n";

const BOTH: &str =
    "unit 0 bytes 58 time 0 sync truehd 48000 substreams 1 ends 12 extra 0\nunit 1 bytes 10 time 40 ends 2 extra 0\n";

#[test]
fn writes_a_line_for_each_unit(rt: HostRuntime) -> Result<(), Fail> {
    for piece in [1, 2, 7, 8190] {
        let edge = Edge { piece, ..WHOLE };
        assert_run(
            &rt,
            rt.alloc(),
            "list",
            &SILENT,
            &edge,
            (0, BOTH.as_bytes(), ""),
        )?;
    }
    let mlp =
        b"unit 0 bytes 40 time 65535 sync mlp 44100 substreams 1 ends 2 extra 2\nunit 1 bytes 10 time 39 ends 1 extra 2\n";
    assert_run(&rt, rt.alloc(), "list", &MLP, &WHOLE, (0, mlp, ""))?;
    let four = b"unit 0 bytes 52 time 258 sync truehd 48000 substreams 4 ends 1 1 3 4 extra 2\n";
    assert_run(&rt, rt.alloc(), "list", &FOUR, &WHOLE, (0, four, ""))
}

/// A byte of the stream is changed, and some of its bytes are left.
#[test]
fn refuses_what_breaks_a_rule_of_the_outer_parts(rt: HostRuntime) -> Result<(), Fail> {
    let cases = [
        (
            0,
            0xD0,
            0,
            "",
            "bad stream: unit 0, substream 0, UnitHeader, bit 0\n",
        ),
        (
            0,
            0xD0,
            57,
            "",
            "bad stream: unit 0, substream 0, UnitLength, bit 4\n",
        ),
        (
            58,
            0x50,
            68,
            FIRST,
            "bad stream: unit 1, substream 0, UnitParity, bit 0\n",
        ),
        (
            31,
            0x22,
            68,
            "",
            "bad stream: unit 0, substream 0, MajorCrc, bit 32\n",
        ),
        (66, 0xE8, 68, BOTH, ""),
    ];
    for (place, other, left, output, line) in cases {
        let mut stream = SILENT.to_vec(rt.alloc())?;
        if let Some(byte) = stream.get_mut(place) {
            *byte = other;
        }
        stream.truncate(left);
        let want = (u8::from(!line.is_empty()), output.as_bytes(), line);
        assert_run(&rt, rt.alloc(), "list", &stream, &WHOLE, want)?;
    }
    Ok(())
}
