//! Segments of the streams of an independent program, with what it says of each.
//!
//! A fault stands on a line: its rule, its bit, and the segment in hexadecimal digits. `..` stands for the rest of a longer
//! segment, from behind the field that decides on; such a segment is read as one without check bytes.
ghost use Rattle.std.specs.Prelude.{◌≡◌, ◌≤◌, ◌<◌, length};
ghost use Rattle.mlp_substream.specs.Blocks.{IsPlace, ForceFits};

use arrayvec::ArrayVec;
use mlp_layout::broken;
use mlp_params::State;
use mlp_substream::{Ending, Known, Place, read_segment, read_segment_into};
use mlp_syntax::{Field, Kind, Segment};
use std::process::Abort;

/// A restart, 40 frames of no bits, and checks.
const SILENCE: [u8; 24] = [
    0xF1, 0xEA, 0x0E, 0x10, 0x01, 0x10, 0, 0, 0, 0, 0, 0, 0, 0, 0, 0x03, 0x98, 0x8A, 0x04, 0x00,
    0x80, 0x10, 0x38, 0xC5,
];

/// First segments of a TrueHD substream at 40 frames a unit, where nothing else is known or it is the second of two.
const TRUEHD: [&str; 53] = [
    "RestartMissing 0 4000E91D",
    "RestartMissing 0 8080A931",
    "RestartPlace 164 F1EA0E10011000000000000000000003980801001E3D41C20022000000000000000000007311008010025DCD",
    "RestartWord 2 F1E80E100110000000000000000000029A8A040080103965",
    "ChannelRange 36 F1EA0E1021900000000000000000000210620A30E412528A04007DE6",
    "ChannelRange 36 F1EA0E1008..",
    "MatrixChannel 40 F1EA0E10012000000000000000000002128A2810020040006D12",
    "DataCheck 90 F1EA0E10011000000000002000000003D28A040080105262",
    "ChannelAssign 121 F1EA0E100110000000000000000000059E8A04008010386A",
    "ChannelAssign 121 F1EA0E10011000000000000000000083188A040080103842",
    "ChannelAssign 115 F1EA0E10011000000000000000001F836E8A04008010519E",
    "RestartCheck 127 F1EA0E10011000000000000000000003188A04008010B801",
    "BlockSize 137 F1EA0E100110000000000000000000039881C0..",
    "BlockSize 137 F1EA0E10011000000000000000000003988A40..",
    "BlockSize 137 F1EA0E10011000000000000000000003988000..",
    "MatrixCount 138 F1EA0E100110000000000000000000039864..",
    "MatrixDest 142 F1EA0E10011000000000000000000003984480..",
    "MatrixDest 157 F1EA0E100110000000000000000000039848414100..",
    "MatrixFrac 146 F1EA0E1001100000000000000000000398447C..",
    "NoiseShift 153 F1EB0E1001100000000000000000000204444008..",
    "OutputShift 143 F1EA0E100110000000000000000000039827E0..",
    "OutputShift 139 F1EA0E100110000000000000000000039830..",
    "FilterOrder 142 F1EA0E10011000000000000000000003980E40..",
    "FilterOrder 143 F1EA0E10011000000000000000000003980AA0..",
    "CoeffBits 150 F1EA0E10011000000000000000000003980C4000..",
    "CoeffBits 150 F1EA0E10011000000000000000000003980C4220..",
    "CoeffBits 150 F1EA0E10011000000000000000000003980C415C..",
    "CoeffBits 171 F1EA0E10011000000000000000000003980C4060221139D3",
    "FirState 160 F1EA0E10011000000000000000000003980C404180..",
    "FilterSum 195 F1EA0E10011000000000000000000003980DC0415554844140..",
    "FilterSum 225 F1EA0E10011000000000000000000003980D40415500200205401055000000000000000000005D6F",
    "FilterSum 225 F1EA0E10011000000000000000000003980A8020AA0080081A8082AA000000000000000000001C87",
    "FilterSum 272 F1EA0E10011000000000000000000003980DC1A00020010008004002001000A4020A9D6E",
    "FilterPrecision 181 F1EA0E10011000000000000000000003980C484144C410..",
    "FilterPrecision 211 F1EA0E10011000000000000000000003980C4C410020020512104000000000000000000042C1",
    "FilterPrecision 211 F1EA0E10011000000000000000000003980A2220802002062420800000000000000000000E55",
    "HuffLsbs 146 F1EA0E10011000000000000000000003980872..",
    "StepTooLarge 170 F1EA0E100110000000000000000000039810380100A0AF1E",
    "StepTooLarge 189 F1EA0E10011000000000000000000003980801001228220433BF",
    "StepTooLarge 192 F1EA0E100110000000000000000000039810FC40A000040E20BA",
    "BlockOverrun 181 F1EA0E1001100000000000000000000398080100122104001881",
    "BlockOverrun 172 F1EA0E100110000000000000000000039808010000082700",
    "Code 179 F1EA0E10011000000000000000000003988A04008424600F..",
    "Code 179 F1EA0E10011000000000000000000003988A04008424680F..",
    "Code 179 F1EA0E10011000000000000000000003988A04008824600F..",
    "Code 179 F1EA0E10011000000000000000000003988A04008824680F..",
    "Code 179 F1EA0E10011000000000000000000003988A04008C24600F..",
    "Code 179 F1EA0E10011000000000000000000003988A04008C24680F..",
    "Code 162 F1EA0E1001100000000000000000000398080108001FFFFFFFFFFFFFFFE02747",
    "SegmentEnd 176 F1EA0E10011000000000000000000003988A0400801000003832",
    "SegmentEnd 176 F1EA0E10011000000000000000000003988A040080100000000000003831",
    "Terminator 176 F1EA0E10011000000000000000000003988A04008010D2352000FFC8",
    "FrameCount 0 F1EA0E100110000000000000000000039808010020000F3A",
];

/// The same of an MLP stream.
const MLP: [&str; 4] = [
    "RestartKind 15 F1EB0E10011000000000000000000002048A04008010A499",
    "ChannelRange 36 F1EA0E1006..",
    "MatrixCount 138 F1EA0E10011000000000000000000003985C..",
    "Terminator 192 F1EA0E10011000000000000000000003988A04008010D2342000FE3B",
];

/// Segments behind [`SILENCE`], in a unit without major sync.
const LATER: [&str; 9] = [
    "SegmentShort 0 4000",
    "SegmentShort 0 ",
    "SegmentShort 0 ..",
    "SegmentParity 16 4000E81C",
    "SegmentCheck 24 4000E99D",
    "RestartPlace 1 F1EA0E10011000000000000000000003988A0400801038C5",
    "BlockOverrun 3 0000A979",
    "SegmentParity 16 4000E81D",
    "SegmentCheck 24 4000E91C",
];

/// Segments of the only substream that is read, in unit 0.
const ONLY: [&str; 2] = [
    "Uncovered 40 F1EA0E10111000000000000000000002DE8A040080007F45",
    "Uncovered 40 F1EA0E10111000000000000000000002DE..",
];

/// Later restarts of the only substream that is read, behind two matrix channels and silence.
const RESTARTS: [&str; 5] = [
    "ChannelsChanged 40 F1EA0E10055000000000000EE00002881840805C..",
    "ChannelsChanged 40 F1EA0E1000000000000000000000004DA2..",
    "RestartCheck 133 F1EA0E100220000000000000000000021000..",
    "Uncovered 40 F1EA0E101110000000000001200000036E8A04008000EF0A",
    "LosslessCheck 91 F1EA0E10011000000000000020000003A881C4008010E3C1",
];

/// A restart of the second of two substreams in unit 16.
const SECOND_LATER: [&str; 1] = ["LosslessCheck 91 F1EA10902330000000000018E0000002107988.."];

/// Segments of the second of two substreams, the first of which codes the channels 0 and 1 in 40 frames.
const SECOND: [&str; 2] = [
    "Uncovered 40 F1EA0E103330000000000000000000021071881C4008100E",
    "TerminatorMixed 176 F1EA0E10011000000000000000000003988A04008010D2342000FE3B",
];

/// The same where the first has a terminator.
const SECOND_AT_END: [&str; 3] = [
    "TerminatorMixed 176 F1EA0E10011000000000000000000003988A0400801038C5",
    "TerminatorMixed 176 F1EA0E100110000000000000000000039808010020000F3A",
    "FrameCount 0 F1EA0E10011000000000000000000003980801002000D2342000C94F",
];

/// A segment that meets every rule.
#[derive(Clone, Copy)]
struct Whole {
    digits: &'static [&'static str],
    /// Its blocks, its frames, its padding and its terminator.
    holds: (usize, usize, u16, Option<u16>),
}

/// Segments that follow one another, the first of them in a unit with major sync.
#[derive(Clone, Copy)]
struct Run {
    format: Kind,
    unit_frames: u16,
    segments: &'static [Whole],
}

const RUNS: [Run; 9] = [
    // One block of 40 frames without bits, and the same again.
    Run {
        format: Kind::Fba,
        unit_frames: 40,
        segments: &[
            Whole {
                digits: &["F1EA0E10011000000000000000000003988A0400801038C5"],
                holds: (1, 40, 0, None),
            },
            Whole {
                digits: &["4000E91D"],
                holds: (1, 40, 0, None),
            },
        ],
    },
    // The same at 80 frames a unit.
    Run {
        format: Kind::Fba,
        unit_frames: 80,
        segments: &[
            Whole {
                digits: &["F1EA1C200110000000000000000000027C9404008010E194"],
                holds: (1, 80, 0, None),
            },
            Whole {
                digits: &["4000E91D"],
                holds: (1, 80, 0, None),
            },
        ],
    },
    // Blocks of 8 and 32 frames.
    Run {
        format: Kind::Fba,
        unit_frames: 40,
        segments: &[Whole {
            digits: &["F1EA0E1001100000000000000000000398080100122004001972"],
            holds: (2, 40, 0, None),
        }],
    },
    // They and a terminator.
    Run {
        format: Kind::Fba,
        unit_frames: 40,
        segments: &[Whole {
            digits: &["F1EA0E100110000000000000000000039808010012200400D2342027F898"],
            holds: (2, 40, 0, Some(0x2027)),
        }],
    },
    // They and one that drops more frames than there are.
    Run {
        format: Kind::Fba,
        unit_frames: 40,
        segments: &[Whole {
            digits: &["F1EA0E100110000000000000000000039808010012200400D2342029F696"],
            holds: (2, 40, 0, Some(0x2029)),
        }],
    },
    // 8 frames and a terminator.
    Run {
        format: Kind::Fba,
        unit_frames: 40,
        segments: &[Whole {
            digits: &[
                "F1EA0E100110000000000000000000039801FFFFEA000015FFFFF200000DFFFFE9FFFFF1FFFF",
                "F600001600000600001E000016000016000019FFFFE6000001FFFFEAD2342003164F",
            ],
            holds: (1, 8, 0, Some(0x2003)),
        }],
    },
    // Padding that isn't 0.
    Run {
        format: Kind::Fba,
        unit_frames: 40,
        segments: &[
            Whole {
                digits: &[
                    "F1EA0E10011000000000000000000003988A042388003D1409009C0A7A40A4283D74D2D10782",
                    "03D03B0AC7F2E1A90809F9418F4A05340525A1C01BD0AB00E0ABD7968109CC2819140C201580",
                    "102D5B00A2D0509C036014C5A3BB9F81",
                ],
                holds: (1, 40, 187, None),
            },
            Whole {
                digits: &[
                    "91408471074081E104F4085BAB421403A0B0681C0C5AD0421A0E12900917509740C41D089140",
                    "100D07A27EA20322A0240D5F41005AD78D104DA126B988139110023D15683970050C100C0704",
                    "0480B777AA35",
                ],
                holds: (1, 40, 6007, None),
            },
        ],
    },
    // IIRs with states.
    Run {
        format: Kind::Fba,
        unit_frames: 40,
        segments: &[Whole {
            digits: &[
                "F1EA0E10011000000000000000000003980C4C81C0C3FDBFFFF8BFCBFFFFD3F9C00005403C00",
                "006C043FFFF83F8BFFFFC401BFFFFBBFD400002244019088281900300300700AFEAFFAFE6FE3",
                "004FE100101901EFF8FE501EFFEFE500EFF7010FEAFEB00D01EFFF010FEB01F010FE6FFF01D0",
                "04FE7005002FE5018FFD015010FF8FE6FFCFFEFF2FED01500701501101900AFF701EFE501701",
                "F00EFE4FF101F0037282",
            ],
            holds: (2, 40, 0, None),
        }],
    },
    // An MLP stream up to its terminator.
    Run {
        format: Kind::Fbb,
        unit_frames: 40,
        segments: &[
            Whole {
                digits: &[
                    "F1EA0E10011000000000000000000003988A046584802343202A1F034CC9721009D0700B40F8",
                    "053F93F42A0D80D2074191E80C20BF422CAAAC628F422CC83CA03C85AB482A8881DA1240C17D",
                    "7F0103BC08189803003C82641C52F400F97C3206228E82A642B415660AC406D14AA01C22683A",
                    "008AA922193109002F0032A5",
                ],
                holds: (1, 40, 0, None),
            },
            Whole {
                digits: &[
                    "91408CB09127F5A80694883A8E5308BD0FA3B01E183442F340D88A0A15915A983433300A23A0",
                    "317A7060E813206ED436031441C803C03C6A688476055C0260A8F035BC81BEE4DD0B80967070",
                    "3E01F25510ABA06214CD092608D4C1C0213401DE4A80936F58009AAA",
                ],
                holds: (1, 40, 0, None),
            },
            Whole {
                digits: &[
                    "91408CB09003606C5824A303AF50E4F3E20880810541CA19434B292A0CA29C485085531180D9",
                    "AB785118F542149F29D04C0B0E83180E80BC06C2400E83C0402F09256049024833A06620A206",
                    "5D402901703B0A00D50490F003F2A926C3A7C83887C2C520456E8230D234D2341D00",
                ],
                holds: (1, 40, 0, Some(0xD234)),
            },
        ],
    },
];

/// A segment with each group of parameters, of 122 bytes with its two bytes of checks behind them.
pub(crate) const RICH: [&str; 3] = [
    "F1EA0E1001112468ACAAAA80026AE00381FE82622B506024112C8CC49ED23203EAA64DFD7E98918000021940",
    "000259C0000500C600003219400009F380001498C0000D40CA0000739C00010A1F0804808425140232127949",
    "35027346241555600B285AEEA5E40C2E2928665A403521B7DC9C50393D66C1E57A00FA00071F",
];

/// The codes of its 40 frames in its two channels.
const SYMBOLS: [u8; 80] = [
    7, 0, 4, 0, 12, 0, 0, 0, 15, 0, 10, 0, 13, 0, 17, 0, 11, 0, 7, 0, 4, 0, 12, 0, 0, 0, 15, 0, 10,
    0, 13, 0, 17, 0, 11, 0, 7, 0, 4, 0, 12, 0, 0, 0, 15, 0, 10, 0, 13, 0, 17, 0, 11, 0, 7, 0, 4, 0,
    12, 0, 0, 0, 15, 0, 10, 0, 13, 0, 17, 0, 11, 0, 7, 0, 4, 0, 12, 0, 0, 0,
];

const LOWS: [u32; 80] = [
    17, 2097152, 18, 2097153, 19, 2097154, 17, 2097155, 18, 2097156, 19, 2097157, 17, 2097158, 18,
    2097159, 19, 2097160, 0, 0, 1, 0, 2, 0, 3, 0, 4, 0, 5, 0, 6, 0, 7, 0, 8, 0, 9, 0, 10, 0, 11, 0,
    12, 0, 13, 0, 14, 0, 15, 0, 16, 0, 17, 0, 18, 0, 19, 0, 20, 0, 21, 0, 22, 0, 23, 0, 24, 0, 25,
    0, 26, 0, 27, 0, 28, 0, 29, 0, 30, 0,
];

/// The bypass bits of its frames.
const BYPASS: [u8; 40] = [
    0, 1, 0, 1, 0, 1, 0, 1, 0, 0, 1, 0, 1, 0, 1, 0, 1, 0, 1, 0, 1, 0, 1, 0, 1, 0, 1, 0, 1, 0, 1, 0,
    1, 0, 1, 0, 1, 0, 1, 0,
];

/// Where its first 0, 2, 4 and more bytes end too early.
const SHORTS: [u32; 62] = [
    0, 16, 32, 48, 48, 71, 91, 99, 127, 144, 159, 170, 191, 206, 222, 240, 256, 269, 280, 304, 312,
    335, 345, 368, 377, 400, 414, 414, 444, 449, 480, 480, 508, 513, 536, 550, 576, 581, 607, 624,
    640, 656, 671, 684, 704, 719, 734, 748, 764, 779, 800, 812, 830, 845, 860, 880, 894, 908, 928,
    941, 958, 968,
];

fn value_of(digit: u8) -> u8
    ensures { result < 16 }
{
    match digit {
        b'0'..=b'9' => digit - b'0',
        b'A'..=b'F' => digit - b'A' + 10,
        _ => 0,
    }
}

/// Puts the bytes of the digits behind those that are there, so many times, as far as there is room.
fn put(digits: &str, times: u32, bytes: &mut ArrayVec<u8, 512>) {
    for _ in 0..times {
        put_once(digits.as_bytes(), bytes);
    }
}

fn put_once(digits: &[u8], bytes: &mut ArrayVec<u8, 512>) {
    for i in 0..digits.len() / 2 {
        if bytes.is_full() {
            return;
        }
        bytes.push(value_of(digits[2 * i]) * 16 + value_of(digits[2 * i + 1]));
    }
}

pub(crate) fn bytes_of(lines: &[&str]) -> ArrayVec<u8, 512> {
    let mut bytes = ArrayVec::new();
    for line in lines {
        put(line, 1, &mut bytes);
    }
    bytes
}

fn place(format: Kind, major: bool) -> Place
    ensures { result ≡ record { format = format; unit_frames = 40; major = major } }
{
    Place {
        format,
        unit_frames: 40,
        major,
    }
}

/// What is known of a second substream's segment.
fn behind(terminator: bool) -> Known {
    Known {
        max_matrix: None,
        covered: Some(3),
        lossless: None,
        first: Some(Ending {
            frames: 40,
            terminator,
        }),
    }
}

/// Whether the segment of a line has the fault of the line.
fn is_named(place: &Place, known: &Known, state: &mut Option<State>, line: &str) -> bool
    requires place { IsPlace place.now }
    requires state { ForceFits place.now state.old }
{
    let (rule, rest) = line.split_once(' ').unwrap_or((line, ""));
    let (bit, digits) = rest.split_once(' ').unwrap_or((rest, ""));
    let (digits, checked) = match digits.split_once("..") {
        None => (digits, true),
        Some((digits, _)) => (digits, false),
    };
    let bytes = bytes_of(&[digits]);
    let mut segment = Segment::default();
    match read_segment_into(place, known, state, bytes.as_slice(), checked, &mut segment) {
        Ok(()) => false,
        Err(broken) => broken.field.name() == rule && bit.parse() == Ok(broken.bit),
    }
}

fn assert_first(rt: &impl Abort, format: Kind, known: &Known, lines: &[&str]) {
    let place = place(format, true);
    for line in lines {
        let mut state: Option<State> = None;
        assert!(rt; is_named(&place, known, &mut state, line), "{line}");
    }
}

#[test]
fn names_the_first_fault(rt: HostRuntime) {
    let nothing = Known::default();
    assert_first(&rt, Kind::Fba, &nothing, &TRUEHD);
    assert_first(&rt, Kind::Fbb, &nothing, &MLP);
    assert_first(&rt, Kind::Fba, &behind(false), &TRUEHD);
    assert_first(&rt, Kind::Fbb, &behind(false), &MLP);
    for line in LATER {
        let mut state: Option<State> = None;
        let Ok(_silence) = read_segment(&place(Kind::Fba, true), &mut state, &SILENCE, true) else {
            panic!(rt; "silence is a segment");
        };
        assert!(rt;
            is_named(&place(Kind::Fba, false), &nothing, &mut state, line),
            "{line}"
        );
    }
}

#[test]
fn names_what_other_segments_decide(rt: HostRuntime) {
    let mut known = Known::default();
    known.covered = Some(0);
    assert_first(&rt, Kind::Fba, &known, &ONLY);
    known.max_matrix = Some(1);
    known.lossless = Some(0);
    assert_first(&rt, Kind::Fba, &known, &RESTARTS);
    assert_first(&rt, Kind::Fba, &behind(false), &SECOND);
    assert_first(&rt, Kind::Fba, &behind(true), &SECOND_AT_END);
    known = behind(false);
    known.max_matrix = Some(3);
    known.lossless = Some(70);
    assert_first(&rt, Kind::Fba, &known, &SECOND_LATER);
}

fn assert_whole(rt: &impl Abort, place: &Place, state: &mut Option<State>, whole: &Whole)
    requires place { IsPlace place.now }
    requires state { ForceFits place.now state.old }
    ensures state { ForceFits place.now state.new }
{
    let bytes = bytes_of(whole.digits);
    match read_segment(place, state, bytes.as_slice(), true) {
        Err(broken) => panic!(rt; "{broken:?}"),
        Ok(segment) => {
            let blocks = segment.blocks.len();
            let holds = (
                blocks,
                segment.codes.len(),
                segment.padding,
                segment.terminator,
            );
            assert_eq!(rt; holds, whole.holds);
        }
    }
}

fn assert_run(rt: &impl Abort, run: &Run) {
    assert!(rt; 8 <= run.unit_frames && run.unit_frames <= 160);
    let mut state: Option<State> = None;
    let mut place = Place {
        format: run.format,
        unit_frames: run.unit_frames,
        major: true,
    };
    for whole in run.segments {
        assert_whole(rt, &place, &mut state, whole);
        place.major = false;
    }
}

#[test]
fn reads_what_meets_every_rule(rt: HostRuntime) {
    for run in &RUNS {
        assert_run(&rt, run);
    }
}

#[test]
fn reads_codes(rt: HostRuntime) {
    let bytes = bytes_of(&RICH);
    let mut state: Option<State> = None;
    let read = read_segment(&place(Kind::Fba, true), &mut state, bytes.as_slice(), true);
    let Ok(segment) = read else {
        panic!(rt; "it is a segment");
    };
    let mut bypass = BYPASS.iter();
    let mut codes = SYMBOLS.iter().zip(LOWS.iter());
    for frame in segment.codes.iter() {
        assert_eq!(rt; bypass.next(), Some(&frame.bypass));
        for code in frame.codes.iter() {
            assert_eq!(rt; codes.next(), Some((&code.symbol, &code.low)));
        }
    }
    assert_eq!(rt; (bypass.next(), codes.next()), (None, None));
}

#[test]
fn names_the_field_that_ends_too_early(rt: HostRuntime) {
    let mut bytes = bytes_of(&RICH);
    let place = place(Kind::Fba, true);
    bytes.pop();
    bytes.pop();
    for at in SHORTS.iter().rev() {
        bytes.pop();
        bytes.pop();
        let mut state: Option<State> = None;
        let read = read_segment(&place, &mut state, bytes.as_slice(), false);
        assert_eq!(rt; read.err(), Some(broken(Field::SegmentShort, *at)));
    }
    assert!(rt; bytes.is_empty());
}

fn assert_codes(rt: &impl Abort, segment: &Segment, left: u32, right: u32) {
    assert_eq!(rt; segment.codes.len(), 40);
    for frame in segment.codes.iter() {
        match frame.codes.as_slice() {
            [first, second] => assert_eq!(rt; (first.low, second.low), (left, right)),
            _ => panic!(rt; "two channels"),
        }
    }
}

#[test]
fn reads_frames_of_48_bits(rt: HostRuntime) {
    let mut bytes = bytes_of(&["F1EA0E10011000000000000000000003988A01"]);
    put("000002FFFFFF", 40, &mut bytes);
    put("00", 1, &mut bytes);
    let mut state: Option<State> = None;
    let Ok(first) = read_segment(&place(Kind::Fba, true), &mut state, bytes.as_slice(), false)
    else {
        panic!(rt; "one block");
    };
    assert_codes(&rt, &first, 0x800001, 0x7FFFFF);
    bytes.clear();
    put("400000", 80, &mut bytes);
    put("4000", 1, &mut bytes);
    let later = place(Kind::Fba, false);
    let Ok(second) = read_segment(&later, &mut state, bytes.as_slice(), false) else {
        panic!(rt; "the next unit's");
    };
    assert_codes(&rt, &second, 0x800000, 0x800000);
}

/// Blocks of 8 and 32 frames.
fn put_two_blocks(bytes: &mut ArrayVec<u8, 512>) {
    put("000005FFFFFE", 7, bytes);
    put("000005FFFFFD220040", 1, bytes);
    put("0000BFFFFFC0", 32, bytes);
}

#[test]
fn reads_two_blocks(rt: HostRuntime) {
    let mut bytes = bytes_of(&["F1EA0E100110000000000000000000039802"]);
    put_two_blocks(&mut bytes);
    put("00", 1, &mut bytes);
    let mut state: Option<State> = None;
    let Ok(plain) = read_segment(&place(Kind::Fba, true), &mut state, bytes.as_slice(), false)
    else {
        panic!(rt; "two blocks");
    };
    assert_codes(&rt, &plain, 0x800001, 0x7FFFFF);
    let mut bytes = bytes_of(&["F1EA0E10011000000000000000000003982202"]);
    put_two_blocks(&mut bytes);
    let Ok(shifted) = read_segment(&place(Kind::Fba, true), &mut state, bytes.as_slice(), false)
    else {
        panic!(rt; "two blocks, the first with output shifts");
    };
    assert_codes(&rt, &shifted, 0x800001, 0x7FFFFF);
    let Some(state) = state else {
        panic!(rt; "a restart is in force");
    };
    assert_eq!(rt; state.shifts.as_slice(), [1, 0].as_slice());
}
