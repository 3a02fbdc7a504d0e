//! Major syncs of known streams, read, written again and narrowed.
use mlp_major::{fits, frames_per_unit, narrow, read_major, sample_rate, write_major};
use mlp_syntax::{Broken, Field, FormatInfo, MajorSync, UnitBytes, UnitTooLong};
use std::process::Abort;

/// TrueHD at 48000 Hz, one substream.
const SHORT: [u8; 28] = [
    0xF8, 0x72, 0x6F, 0xBA, 0, 0, 0x80, 1, 0xB7, 0x52, 0, 0, 0, 0, 0x97, 0x6F, 0x10, 0, 0, 0, 0, 0,
    0, 0, 0, 0, 0x64, 0x21,
];

/// The same with an extension of two bytes.
const LONG: [u8; 30] = [
    0xF8, 0x72, 0x6F, 0xBA, 0, 0, 0x80, 1, 0xB7, 0x52, 0, 0, 0, 0, 0x97, 0x6F, 0x10, 0, 0, 0, 0, 0,
    0, 0, 0, 1, 0, 0, 0x50, 0x26,
];

/// The longest, at 192000 Hz.
const LONGEST: [u8; 60] = [
    0xF8, 0x72, 0x6F, 0xBA, 0x20, 0, 0x80, 1, 0xB7, 0x52, 0, 0, 0, 0, 0x97, 0x6F, 0x10, 0, 0, 0, 0,
    0, 0, 0, 0, 1, 0xF0, 0, 0, 0, 0, 0, 0, 0, 0, 0, 0, 0, 0, 0, 0, 0, 0, 0, 0, 0, 0, 0, 0, 0, 0, 0,
    0, 0, 0, 0, 0, 0, 0x17, 0x78,
];

/// MLP at 48000 Hz, one substream.
const MLP: [u8; 28] = [
    0xF8, 0x72, 0x6F, 0xBB, 0x2F, 0x0F, 0, 1, 0xB7, 0x52, 0, 0, 0, 0, 0x8C, 0x7F, 0x10, 0, 0, 0, 0,
    0, 0, 0, 0, 0, 0x45, 0xC2,
];

/// TrueHD with four substreams, of which the last carries objects.
const FOUR: [u8; 28] = [
    0xF8, 0x72, 0x6F, 0xBA, 0, 0, 0x80, 1, 0xB7, 0x52, 0, 0, 0, 0, 0x97, 0x6F, 0x40, 0x83, 0, 0, 0,
    0, 0, 0, 0, 0, 0x6C, 0x12,
];

/// What an extraction of presentation 1 makes of it.
const TWO_OF_FOUR: [u8; 28] = [
    0xF8, 0x72, 0x6F, 0xBA, 0, 0, 0x80, 1, 0xB7, 0x52, 0, 0, 0, 0, 0x97, 0x6F, 0x20, 0x03, 0, 0, 0,
    0, 0, 0, 0, 0, 0x1C, 0xD1,
];

/// The major sync that these bytes are, of so many frames a unit and this rate.
fn read(rt: &impl Abort, bytes: &[u8], frames: u16, rate: u32) -> Result<MajorSync, Broken> {
    assert!(rt; bytes.len() >= 4);
    assert!(rt; bytes.len() <= 8190);
    let (major, length) = read_major(bytes, None)?;
    assert_eq!(rt; length, bytes.len());
    assert_eq!(rt; frames_per_unit(&major), frames);
    assert_eq!(rt; sample_rate(&major), rate);
    Ok(major)
}

#[test]
fn syncs_are_read_and_written(rt: HostRuntime) {
    let cases: [(&[u8], u16, u32, u16); 4] = [
        (&SHORT, 40, 48000, 5999),
        (&LONG, 40, 48000, 5999),
        (&LONGEST, 160, 192000, 5999),
        (&MLP, 40, 48000, 3199),
    ];
    for (bytes, frames, rate, peak) in cases {
        let major = read(&rt, bytes, frames, rate)
            .ok()
            .expect(&rt, "a major sync");
        assert_eq!(rt; major.peak, peak);
        assert_eq!(rt;
            matches!(major.format, FormatInfo::Fba(_)),
            bytes[3] == 0xBA
        );
        assert!(rt; fits(&major));
        let mut out = UnitBytes::new();
        assert_eq!(rt; write_major(&major, &mut out), Ok(()));
        assert_eq!(rt; out.as_slice(), bytes);
    }
}

#[test]
fn a_sync_is_narrowed_refused_and_has_no_room(rt: HostRuntime) {
    let major = read(&rt, &FOUR, 40, 48000).ok().expect(&rt, "a major sync");
    let narrowed = narrow(&major, 1);
    assert!(rt; fits(&narrowed));
    let mut out = UnitBytes::new();
    assert_eq!(rt; write_major(&narrowed, &mut out), Ok(()));
    assert_eq!(rt; out.as_slice(), TWO_OF_FOUR.as_slice());
    for _ in 28..8163 {
        assert!(rt; out.try_push(7).is_ok());
    }
    assert_eq!(rt; write_major(&narrowed, &mut out), Err(UnitTooLong));
    assert_eq!(rt; out.len(), 8163);
    let mut bytes = LONG;
    bytes[29] = 0x27;
    let fault = Broken {
        field: Field::MajorCrc,
        bit: 0,
    };
    assert_eq!(rt; read_major(&bytes, None).err(), Some(fault));
}
