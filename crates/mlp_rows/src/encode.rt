//! The commands that encode.
use crate::decode_wav::SILENCE;
use crate::runs::{Edge, WHOLE, assert_run, run_over};
use crate::streams::{ENDED, RAMPS, noise, ramp_samples, repeated};
use std::test::Fail;

const WORDS: &str = "encode-raw --format truehd --rate 48000 --channels 2 --bits 24";

const TWENTY: &str = "encode-raw --format truehd --rate 192000 --channels 2 --bits 20";

/// One silent unit, which isn't the last.
const GOING_ON: [u8; 60] = [
    0xF0, 0x1E, 0x00, 0x00, 0xF8, 0x72, 0x6F, 0xBA, 0x00, 0x00, 0x80, 0x01, 0xB7, 0x52, 0x00, 0x00,
    0x00, 0x00, 0x97, 0x6F, 0x10, 0x00, 0x00, 0x00, 0x00, 0x00, 0x00, 0x00, 0x00, 0x00, 0x64, 0x21,
    0x20, 0x0D, 0xF1, 0xEA, 0x0E, 0x10, 0x01, 0x10, 0x00, 0x00, 0x00, 0x00, 0x00, 0x00, 0x00, 0x00,
    0x00, 0x03, 0x98, 0x08, 0x01, 0x00, 0x12, 0x20, 0x04, 0x00, 0x19, 0x72,
];

#[test]
fn encodes_pcm_in_any_pieces(rt: HostRuntime) -> Result<(), Fail> {
    let ramps = ramp_samples(rt.alloc())?;
    for piece in [1, 2, 7, 8190] {
        let edge = Edge { piece, ..WHOLE };
        assert_run(&rt, rt.alloc(), WORDS, &ramps, &edge, (0, &RAMPS, ""))?;
    }
    assert_run(&rt, rt.alloc(), WORDS, &[0; 6], &WHOLE, (0, &ENDED, ""))?;
    let file = "encode-wav --format truehd";
    assert_run(&rt, rt.alloc(), file, &SILENCE, &WHOLE, (0, &ENDED, ""))
}

/// A frame of six channels at one end of the range, and two channels that its mix has.
const LEAST: [u8; 18] =
    *b"\x00\x00\x80\x00\x00\x80\x00\x00\x80\x00\x00\x80\x00\x00\x80\x00\x00\x80";

const LEAST_MIXED: [u8; 6] = [0xAF, 0x02, 0x80, 0xAF, 0x02, 0x80];

/// The same at the other end.
const MOST: [u8; 18] = *b"\xFF\xFF\x7F\xFF\xFF\x7F\xFF\xFF\x7F\xFF\xFF\x7F\xFF\xFF\x7F\xFF\xFF\x7F";

const MOST_MIXED: [u8; 6] = [0x4F, 0xFD, 0x7F, 0x4F, 0xFD, 0x7F];

/// Two channels that go from one end of the range to the other and back, against each other and together.
const AGAINST: [u8; 12] = *b"\x00\x00\x80\xFF\xFF\x7F\xFF\xFF\x7F\x00\x00\x80";

const TOGETHER: [u8; 12] = *b"\x00\x00\x80\x00\x00\x80\xFF\xFF\x7F\xFF\xFF\x7F";

/// Two samples of 20 bits.
const FEW: [u8; 6] = [0x10, 0x00, 0x00, 0xF0, 0xFF, 0xFF];

/// Each with bytes of PCM, what is shown of them, and how often these come. No mix wraps.
#[test]
fn encodes_what_decodes_to_the_pcm(rt: HostRuntime) -> Result<(), Fail> {
    let alloc = rt.alloc();
    let side = "encode-raw --format truehd --rate 48000 --channels 2 --bits 24 --mix side";
    let fold = "encode-raw --format truehd --rate 48000 --channels 6 --bits 24 --mix fold";
    let lower = "decode-raw --presentation 0";
    let upper = "decode-raw --presentation 1";
    let cases: [(&str, &str, &[u8], &[u8], usize); 7] = [
        (TWENTY, lower, &FEW, &FEW, 1),
        (side, lower, &AGAINST, &AGAINST, 40),
        (WORDS, lower, &TOGETHER, &TOGETHER, 40),
        (fold, upper, &LEAST, &LEAST, 40),
        (fold, upper, &MOST, &MOST, 40),
        (fold, lower, &LEAST, &LEAST_MIXED, 40),
        (fold, lower, &MOST, &MOST_MIXED, 40),
    ];
    for (encode, decode, pcm, shown, times) in cases {
        let pcm = repeated(alloc, pcm, times)?;
        let stream = run_over(alloc, encode, &pcm, &WHOLE)?;
        assert_eq!(rt; stream.status, 0, "of {encode}");
        let shown = repeated(alloc, shown, times)?;
        assert_run(
            &rt,
            rt.alloc(),
            decode,
            &stream.output,
            &WHOLE,
            (0, &shown, ""),
        )?;
    }
    Ok(())
}

/// Of 160 frames of the one unit at the highest rate all but one are dropped at the end.
#[test]
fn tells_how_many_frames_are_dropped(rt: HostRuntime) -> Result<(), Fail> {
    let seen = run_over(rt.alloc(), TWENTY, &FEW, &WHOLE)?;
    assert_eq!(rt; seen.output.len(), 70);
    assert_eq!(rt;
        seen.output.get(64..68),
        Some([0xD2, 0x34, 0x20, 0x9F].as_slice())
    );
    Ok(())
}

/// Each with the line, and how much is written of the one silent unit.
#[test]
fn refuses_pcm_by_name(rt: HostRuntime) -> Result<(), Fail> {
    let silence = [0; 241];
    let low = [0x11, 0, 0, 0, 0, 0];
    let mlp = "encode-raw --format mlp --rate 48000 --channels 2 --bits 24";
    let cases: [(&str, &[u8], &str, usize); 5] = [
        (WORDS, &[], "pcm refused: Empty\n", 0),
        (WORDS, &silence[..7], "pcm refused: PartialFrame\n", 0),
        (mlp, &silence[..6], "pcm refused: PartialUnit\n", 0),
        (TWENTY, &low, "pcm refused: PadBits 0\n", 0),
        (WORDS, &silence, "pcm refused: PartialFrame\n", 60),
    ];
    for (words, pcm, line, written) in cases {
        assert_run(
            &rt,
            rt.alloc(),
            words,
            pcm,
            &WHOLE,
            (3, &GOING_ON[..written], line),
        )?;
    }
    Ok(())
}

/// Nothing is read, so that a read that would fail doesn't matter.
#[test]
fn refuses_a_profile_before_it_reads(rt: HostRuntime) -> Result<(), Fail> {
    let edge = Edge {
        read_fails: &[0],
        ..WHOLE
    };
    let cases = [
        (
            "encode-raw --format mlp --rate 48000 --channels 8 --bits 24",
            "pcm refused: Channels\n",
        ),
        (
            "encode-raw --format truehd --rate 192000 --channels 8 --bits 24",
            "pcm refused: Rate\n",
        ),
        (
            "encode-raw --format truehd --rate 48000 --channels 6 --bits 16 --mix bypass",
            "pcm refused: MixShape\n",
        ),
    ];
    for (words, line) in cases {
        assert_run(&rt, rt.alloc(), words, &[0; 6], &edge, (3, &[], line))?;
    }
    assert_run(
        &rt,
        rt.alloc(),
        WORDS,
        &[0; 6],
        &edge,
        (5, &[], "read fault\n"),
    )
}

/// Each with a byte of the file that is changed, and how many of its bytes are left.
#[test]
fn refuses_a_header_by_its_field(rt: HostRuntime) -> Result<(), Fail> {
    let cases = [
        (0, 0x52, 11, "pcm refused: WaveHeader Riff\n"),
        (0, 0x52, 43, "pcm refused: WaveHeader Chunk\n"),
        (12, 0x67, 74, "pcm refused: WaveHeader FmtMissing\n"),
        (20, 0x02, 74, "pcm refused: WaveHeader Tag\n"),
        (16, 0x26, 74, "pcm refused: WaveHeader FmtSize\n"),
        (44, 0x03, 74, "pcm refused: WaveHeader Tag\n"),
        (34, 0x21, 74, "pcm refused: WaveHeader Bits\n"),
        (32, 0x07, 74, "pcm refused: WaveHeader Align\n"),
        (38, 0x11, 74, "pcm refused: Depth\n"),
        (24, 0x81, 74, "pcm refused: Rate\n"),
        (0, 0x52, 68, "pcm refused: Empty\n"),
        (0, 0x52, 70, "pcm refused: PartialFrame\n"),
    ];
    for (place, byte, length, line) in cases {
        let mut file = SILENCE;
        file[place] = byte;
        let words = "encode-wav --format truehd";
        assert_run(
            &rt,
            rt.alloc(),
            words,
            &file[..length],
            &WHOLE,
            (3, &[], line),
        )?;
    }
    Ok(())
}

/// Noise in six channels is more than either format carries at these rates, so in the end a unit has no place.
#[test]
fn refuses_a_unit_without_a_place(rt: HostRuntime) -> Result<(), Fail> {
    let alloc = rt.alloc();
    let pcm = noise(alloc, 192_000)?;
    let edge = Edge {
        room: 400_000,
        ..WHOLE
    };
    let cases = [
        (
            "encode-raw --format mlp --rate 96000 --channels 6 --bits 24",
            276_072,
            "no schedule: unit 189, 1456 bytes\n",
        ),
        (
            "encode-raw --format truehd --rate 192000 --channels 6 --bits 24 --mix bypass",
            327_948,
            "no schedule: unit 113, 2900 bytes\n",
        ),
    ];
    for (words, length, line) in cases {
        let seen = run_over(alloc, words, &pcm, &edge)?;
        assert_eq!(rt; seen.status, 4, "of {words}");
        assert_eq!(rt; seen.output.len(), length, "of {words}");
        assert_eq!(rt; seen.line.as_slice(), line.as_bytes());
    }
    Ok(())
}
