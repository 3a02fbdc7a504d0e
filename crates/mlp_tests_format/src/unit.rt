//! The rules on an access unit's outer part, each with units of which it is the first that fails; units that are written as
//! they were read; and a directory with its segment.
use mlp_syntax::{Broken, DirEntry, Field, Kind, MajorSync, Outer, UnitBytes, UnitTooLong};
use mlp_unit::{
    frame, is_writable, next_outer, read_directory, read_outer, segment_bytes, segment_range,
    write_unit,
};
use std::alloc::Global;
use std::process::Abort;

/// A silent first unit.
const FIRST_TRUEHD: [u8; 58] = [
    0xD0, 0x1D, 0, 0, 0xF8, 0x72, 0x6F, 0xBA, 0, 0, 0x80, 1, 0xB7, 0x52, 0, 0, 0, 0, 0x97, 0x6F,
    0x10, 0, 0, 0, 0, 0, 0, 0, 0, 0, 0x64, 0x21, 0x20, 0x0C, 0xF1, 0xEA, 0x0E, 0x10, 1, 0x10, 0, 0,
    0, 0, 0, 0, 0, 0, 0, 3, 0x98, 0x8A, 4, 0, 0x80, 0x10, 0x38, 0xC5,
];

/// A silent first unit.
const FIRST_MLP: [u8; 58] = [
    0xD0, 0x1D, 0, 0, 0xF8, 0x72, 0x6F, 0xBB, 0x2F, 0x0F, 0, 1, 0xB7, 0x52, 0, 0, 0, 0, 0x8C, 0x7F,
    0x10, 0, 0, 0, 0, 0, 0, 0, 0, 0, 0x45, 0xC2, 0x20, 0x0C, 0xF1, 0xEA, 0x0E, 0x10, 1, 0x10, 0, 0,
    0, 0, 0, 0, 0, 0, 0, 3, 0x98, 0x8A, 4, 0, 0x80, 0x10, 0x38, 0xC5,
];

/// The outer part of the unit at the front of these bytes.
fn outer(rt: &impl Abort, next: &[u8], first: Option<&MajorSync>) -> Result<Outer, Broken> {
    match first {
        None => {
            let (_, outer) = next_outer(next, None)?;
            Ok(outer)
        }
        Some(first) => {
            assert!(rt; first.substreams <= 4);
            let (_, outer) = next_outer(next, Some(first))?;
            Ok(outer)
        }
    }
}

/// Whether the unit of a line breaks first the rule of the line.
fn is_named(rt: &impl Abort, alloc: Global, first: Option<&MajorSync>, line: &str) -> bool {
    let (rule, rest) = line.split_once(' ').unwrap_or((line, ""));
    let (bit, digits) = rest.split_once(' ').unwrap_or((rest, ""));
    let Ok(bytes) = hex::decode(alloc, digits) else {
        return false;
    };
    match outer(rt, &bytes, first) {
        Ok(_outer) => false,
        Err(broken) => broken.field.name() == rule && bit.parse() == Ok(broken.bit),
    }
}

/// Each line is of a unit that breaks first the rule of the line.
fn assert_named(rt: &impl Abort, alloc: Global, first: Option<&MajorSync>, lines: &[&str]) {
    for line in lines {
        assert!(rt; is_named(rt, alloc, first, line), "{line}");
    }
}

/// First units: the first rule that each breaks, the bit that it names, and the bytes.
const FIRST: [&str; 35] = [
    "UnitHeader 0",
    "UnitLength 4 F0000000D01D0000F8726FBA00008001B75200000000976F100000000000000000006421200CF1EA0E10011000000000000000000003988A0400801038C5",
    "FirstSync 32 4005002860024000E91DD01D0000F8726FBA00008001B75200000000976F100000000000000000006421200CF1EA0E10011000000000000000000003988A0400801038C5",
    "FirstSync 32 10020003D01D0000F8726FBA00008001B75200000000976F100000000000000000006421200CF1EA0E10011000000000000000000003988A0400801038C5",
    "FirstSync 32 00030000F872D01D0000F8726FBA00008001B75200000000976F100000000000000000006421200CF1EA0E10011000000000000000000003988A0400801038C5",
    "MajorCrc 32 D01D0000F8726FBA00008001B75200000000976F100000000000000000006420200CF1EA0E10011000000000000000000003988A0400801038C5",
    "MajorCrc 32 000F0000F8726FBA00008001B75200000000976F10000000000000000000",
    "MajorCrc 32 B0040000F8726FBA",
    "MajorCrc 32 B0150000F8726FBA00008001B75200000000976F10000000000000000001500000000000000000000000",
    "MajorCrc 32 E0100000F8726FBA00008001B75200000000976F100000000000000000015000",
    "MajorCrc 32 D01D0000F8726FBA00008001B75200000000976F100000000000000000016420200CF1EA0E10011000000000000000000003988A0400801038C5",
    "Signature 96 D01D0000F8726FBA00008001B75300000000976F1000000000000000000018B9200CF1EA0E10011000000000000000000003988A0400801038C5",
    "Rate 64 D01D0000F8726FBA30008001B75200000000976F10000000000000000000F5DA200CF1EA0E10011000000000000000000003988A0400801038C5",
    "Rate 64 D01D0000F8726FBA70008001B75200000000976F100000000000000000003753200CF1EA0E10011000000000000000000003988A0400801038C5",
    "Rate 64 D01D0000F8726FBAB0008001B75200000000976F1000000000000000000070E5200CF1EA0E10011000000000000000000003988A0400801038C5",
    "Rate 64 D01D0000F8726FBAF0008001B75200000000976F10000000000000000000B26C200CF1EA0E10011000000000000000000003988A0400801038C5",
    "Rate 72 D01D0000F8726FBB3FFF0001B75200000000976F100000000000000000000E96200CF1EA0E10011000000000000000000003988A0400801038C5",
    "Quant 64 D01D0000F8726FBB3F010001B75200000000976F100000000000000000004600200CF1EA0E10011000000000000000000003988A0400801038C5",
    "GroupRate 76 D01D0000F8726FBB2F080001B75200000000976F10000000000000000000CB5D200CF1EA0E10011000000000000000000003988A0400801038C5",
    "Substreams 160 D01D0000F8726FBA00008001B75200000000976F000000000000000000005FA0200CF1EA0E10011000000000000000000003988A0400801038C5",
    "Substreams 160 D01D0000F8726FBA00008001B75200000000976F500000000000000000008A25200CF1EA0E10011000000000000000000003988A0400801038C5",
    "Substreams 160 D01D0000F8726FBB2F0F0001B75200000000976F30000000000000000000E8F3200CF1EA0E10011000000000000000000003988A0400801038C5",
    "DirectoryShort 256 E0100000F8726FBA00008001B75200000000976F100000000000000000006421",
    "DirectoryShort 256 50110000F8726FBA00008001B75200000000976F100000000000000000006421A000",
    "DirectoryShort 272 D0110000F8726FBA00008001B75200000000976F2000000000000000000028A22000",
    "DirectoryShort 288 20120000F8726FBB2F0F0001B75200000000976F20000000000000000000D372A0001234",
    "ExtraWord 256 601E0000F8726FBB2F0F0001B752000000008C7F1000000000000000000045C2A00C0000F1EA0E10011000000000000000000003988A0400801038C5",
    "ExtraWord 272 E02B0000F8726FBB2F0F0001B75200000000976F20000000000000000000D372200CA018FFFFF1EA0E10011000000000000000000003988A0400801038C5F1EA0E10011000000000000000000003988A0400801038C5",
    "UnitParity 0 201E0000F8726FBA00008001B75200000000976F100000000000000000006421E00C1000F1EA0E10011000000000000000000003988A0400801038C5",
    "RestartFlag 257 901D0000F8726FBA00008001B75200000000976F100000000000000000006421600CF1EA0E10011000000000000000000003988A0400801038C5",
    "RestartFlag 273 502A0000F8726FBA00008001B75200000000976F2000000000000000000028A22FFF6018F1EA0E10011000000000000000000003988A0400801038C5F1EA0E10011000000000000000000003988A0400801038C5",
    "DirectoryEnd 260 C01D0000F8726FBA00008001B75200000000976F100000000000000000006421200DF1EA0E10011000000000000000000003988A0400801038C5",
    "DirectoryEnd 276 802A0000F8726FBA00008001B75200000000976F2000000000000000000028A2200C2003F1EA0E10011000000000000000000003988A0400801038C5F1EA0E10011000000000000000000003988A0400801038C5",
    "DirectoryEnd 308 402E0000F8726FBA00008001B75200000000976F40000000000000000000B1A4200C20182019201BF1EA0E10011000000000000000000003988A0400801038C5F1EA0E10011000000000000000000003988A0400801038C500000000",
    "DirectoryEnd 292 102C0000F8726FBA00008001B75200000000976F2000000000000000000028A2A00C0001AFFF0002F1EA0E10011000000000000000000003988A0400801038C5F1EA0E10011000000000000000000003988A0400801038C5",
];

/// The same of units behind `FIRST_TRUEHD`.
const BEHIND_TRUEHD: [&str; 10] = [
    "UnitHeader 0 400500",
    "UnitLength 4 E0010000",
    "UnitLength 4 4005002860024000E9",
    "SyncKind 32 701D0028F8726FBB2F0F0001B752000000008C7F1000000000000000000045C2200CF1EA0E10011000000000000000000003988A0400801038C5",
    "SyncKind 32 701D0028F8726FBB2F0F0001B75200000000976F100000000000000000000001200CF1EA0E10011000000000000000000003988A0400801038C5",
    "SyncChanged 32 701D0028F8726FBA80008001B75200000000976F10000000000000000000E11E200CF1EA0E10011000000000000000000003988A0400801038C5",
    "SyncChanged 32 802A0028F8726FBA00008001B75200000000976F2000000000000000000028A2200C2018F1EA0E10011000000000000000000003988A0400801038C5F1EA0E10011000000000000000000003988A0400801038C5",
    "DirectoryShort 32 00020028",
    "UnitParity 0 5005002860024000E91D",
    "RestartFlag 33 0005002820024000E91D",
];

/// The same of units behind `FIRST_MLP`.
const BEHIND_MLP: [&str; 1] = [
    "SyncKind 32 701D0028F8726FBA00008001B75200000000976F100000000000000000006421200CF1EA0E10011000000000000000000003988A0400801038C5",
];

#[test]
fn names_the_first_fault(rt: HostRuntime) {
    assert_named(&rt, rt.alloc(), None, &FIRST);
    let behind: [(&[u8], &[&str]); 2] = [
        (&FIRST_TRUEHD, &BEHIND_TRUEHD),
        (&FIRST_MLP, &BEHIND_MLP),
    ];
    for (first, lines) in behind {
        let first = outer(&rt, first, None).ok().expect(&rt, "a first unit");
        assert_named(&rt, rt.alloc(), first.major.as_ref(), lines);
    }
}

/// A silent first unit with a long major sync.
const FIRST_LONG: [u8; 60] = [
    0xE0, 0x1E, 0, 0, 0xF8, 0x72, 0x6F, 0xBA, 0, 0, 0x80, 1, 0xB7, 0x52, 0, 0, 0, 0, 0x97, 0x6F,
    0x10, 0, 0, 0, 0, 0, 0, 0, 0, 1, 0, 0, 0x50, 0x26, 0x20, 0x0C, 0xF1, 0xEA, 0x0E, 0x10, 1, 0x10,
    0, 0, 0, 0, 0, 0, 0, 0, 0, 3, 0x98, 0x8A, 4, 0, 0x80, 0x10, 0x38, 0xC5,
];

/// The bytes that are written for what is read of a unit.
fn rewritten(
    rt: &impl Abort,
    unit: &[u8],
    first: Option<&MajorSync>,
    out: &mut UnitBytes,
) -> Result<(), Broken> {
    let outer = outer(rt, unit, first)?;
    let major = outer.major.as_ref();
    let entries = outer.entries.as_slice();
    let start = outer.body as usize;
    assert!(rt; start <= unit.len());
    let body = &unit[start..];
    assert!(rt; is_writable(major, entries, body));
    assert_eq!(rt;
        write_unit(outer.head.timing, major, entries, body, out),
        Ok(())
    );
    Ok(())
}

#[test]
fn units_are_written_as_they_were_read(rt: HostRuntime) {
    let first = outer(&rt, &FIRST_TRUEHD, None)
        .ok()
        .expect(&rt, "a first unit");
    let behind: [&[u8]; 2] = [
        &[0x40, 5, 0, 0x28, 0x60, 2, 0x40, 0, 0xE9, 0x1D],
        &[
            0x80, 8, 0, 0x28, 0xF0, 4, 0x6F, 0xBC, 0x91, 0x40, 0x80, 0x10, 2, 0, 0xEA, 0xDA,
        ],
    ];
    let mut out = UnitBytes::new();
    for unit in behind {
        assert_eq!(rt;
            rewritten(&rt, unit, first.major.as_ref(), &mut out),
            Ok(())
        );
        assert_eq!(rt; out.as_slice(), unit);
    }
    let firsts: [&[u8]; 3] = [&FIRST_TRUEHD, &FIRST_MLP, &FIRST_LONG];
    for unit in firsts {
        assert_eq!(rt; rewritten(&rt, unit, None, &mut out), Ok(()));
        assert_eq!(rt; out.as_slice(), unit);
    }
}

/// An entry of a unit without a major sync.
fn entry(extra: Option<u16>, end: u16) -> DirEntry {
    DirEntry {
        extra,
        restart_absent: true,
        checked: true,
        reserved: extra.is_some(),
        end,
    }
}

/// Writes a unit of silence with one entry behind a first unit.
fn write_silent(
    rt: &impl Abort,
    end: u16,
    bytes: usize,
    out: &mut UnitBytes,
) -> Result<(), UnitTooLong> {
    let zeros = [0; 8186];
    assert!(rt; bytes <= zeros.len());
    let entries = [entry(None, end)];
    let body = &zeros[..bytes];
    assert!(rt; is_writable(None, &entries, body));
    write_unit(40, None, &entries, body, out)
}

#[test]
fn the_longest_unit_is_written_and_none_like_a_sync(rt: HostRuntime) {
    let mut out = UnitBytes::new();
    assert_eq!(rt; write_silent(&rt, 6, 12, &mut out), Ok(()));
    let silent = [
        0xC0, 9, 0, 0x28, 0x60, 6, 0, 0, 0, 0, 0, 0, 0, 0, 0, 0, 0, 0,
    ];
    assert_eq!(rt; out.as_slice(), silent.as_slice());
    assert_eq!(rt; write_silent(&rt, 4092, 8186, &mut out), Err(UnitTooLong));
    assert_eq!(rt; out.as_slice(), silent.as_slice());
    assert_eq!(rt; write_silent(&rt, 4092, 8184, &mut out), Ok(()));
    assert_eq!(rt; out.len(), 8190);
    assert_eq!(rt;
        &out[..8],
        [0x0F, 0xFF, 0, 0x28, 0x6F, 0xFC, 0, 0].as_slice()
    );
    assert!(rt; !is_writable(None, &[entry(Some(0x6FBA), 0x872)], &[0; 2]));
}

/// The one segment of a unit behind a first sync.
fn segment<'a>(rt: &impl Abort, unit: &'a [u8], first: &MajorSync) -> Result<&'a [u8], Broken> {
    assert!(rt; frame(unit) == Ok(unit.len()));
    assert!(rt; first.substreams <= 4);
    let outer = read_outer(unit, Some(first))?;
    assert!(rt; outer.entries.len() == 1);
    assert!(rt; outer.body <= 8190);
    assert_eq!(rt; segment_range(&outer, 0), (6, 18));
    Ok(segment_bytes(unit, &outer, 0))
}

#[test]
fn frames_directories_and_segments(rt: HostRuntime) {
    let short = Broken {
        field: Field::UnitHeader,
        bit: 0,
    };
    let long = Broken {
        field: Field::UnitLength,
        bit: 4,
    };
    assert_eq!(rt; frame(&FIRST_TRUEHD[..3]), Err(short));
    assert_eq!(rt; frame(&FIRST_TRUEHD[..57]), Err(long));
    assert_eq!(rt; frame(&FIRST_TRUEHD), Ok(58));
    let unit = [
        0xC0, 0x09, 0x00, 0x28, 0x60, 0x06, 1, 2, 3, 4, 5, 6, 7, 8, 9, 10, 11, 12,
    ];
    let (entries, length) = read_directory(Kind::Fba, 1, &unit[4..6])
        .ok()
        .expect(&rt, "a directory");
    assert_eq!(rt; length, 2);
    assert_eq!(rt; entries.as_slice(), [entry(None, 6)].as_slice());
    let first = outer(&rt, &FIRST_TRUEHD, None)
        .ok()
        .expect(&rt, "a first unit");
    let major = first.major.as_ref().expect(&rt, "a major sync");
    let bytes = segment(&rt, &unit, major).ok().expect(&rt, "a segment");
    assert_eq!(rt; bytes, [1, 2, 3, 4, 5, 6, 7, 8, 9, 10, 11, 12].as_slice());
}
