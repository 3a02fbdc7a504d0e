//! Restart headers and parameters, bit by bit. The expected faults and places are those that an independent reader of
//! the format gives for the same bytes.
ghost use Rattle.std.specs.Prelude.{◌≤◌, length};

use mlp_bits::{BitReader, BitWriter};
use mlp_layout::put_number;
use mlp_params::laws::{law_in_force, law_params, law_restart};
use mlp_params::{
    ChannelState, State, apply, read_params, read_params_into, read_restart, write_params,
    write_restart,
};
use mlp_syntax::{Broken, Kind};
use std::alloc::Global;
use std::process::Abort;

/// What is in force behind a restart and two blocks of parameters, which follow one another without anything between.
fn after_two_blocks(kind: Kind, bytes: &[u8]) -> Result<State, Broken>
    requires { length bytes.now ≤ 8190 }
{
    let mut r = BitReader::new(bytes);
    let header = read_restart(kind, &mut r)?;
    let mut state = State::at_restart(kind, 40, &header);
    let first = read_params(&state, &mut r)?;
    apply(&mut state, &first);
    let second = read_params(&state, &mut r)?;
    apply(&mut state, &second);
    Ok(state)
}

/// Whether the bytes of a line break first the rule of the line.
fn is_named(alloc: Global, kind: Kind, line: &str) -> bool {
    let (rule, rest) = line.split_once(' ').unwrap_or((line, ""));
    let (bit, digits) = rest.split_once(' ').unwrap_or((rest, ""));
    let Ok(bytes) = hex::decode(alloc, digits) else {
        return false;
    };
    if bytes.len() > 8190 {
        return false;
    }
    match after_two_blocks(kind, &bytes) {
        Ok(_state) => false,
        Err(broken) => broken.field.name() == rule && bit.parse() == Ok(broken.bit),
    }
}

/// What is then in force in channel 0.
fn first_channel(bytes: &[u8]) -> Option<ChannelState>
    requires { length bytes.now ≤ 8190 }
{
    match after_two_blocks(Kind::Fba, bytes) {
        Ok(mut state) => state.channels.pop_at(0),
        Err(_broken) => None,
    }
}

/// Whether a restart and parameters that are put in place of others are what they are by themselves.
fn same_in_place(bytes: &[u8]) -> Result<bool, Broken>
    requires { length bytes.now ≤ 8190 }
{
    let mut r = BitReader::new(bytes);
    let header = read_restart(Kind::Fba, &mut r)?;
    let fresh = State::at_restart(Kind::Fba, 40, &header);
    let first = read_params(&fresh, &mut r)?;
    let mut state = after_two_blocks(Kind::Fba, bytes)?;
    state.put_restart(Kind::Fba, 40, &header);
    let restarted = state == fresh;
    apply(&mut state, &first);
    let mut params = read_params(&state, &mut r)?;
    let mut again = BitReader::new(bytes);
    read_restart(Kind::Fba, &mut again)?;
    let others = params != first;
    read_params_into(&fresh, &mut again, &mut params)?;
    Ok(restarted && others && params == first)
}

/// The number of bits of a header and the parameters of one block, where writing gives the same bytes again.
fn written_again(kind: Kind, bytes: &[u8]) -> Option<u32>
    requires { length bytes.now ≤ 8190 }
{
    let mut r = BitReader::new(bytes);
    let Ok(header) = read_restart(kind, &mut r) else {
        return None;
    };
    let state = State::at_restart(kind, 40, &header);
    let Ok(params) = read_params(&state, &mut r) else {
        return None;
    };
    let mut w = BitWriter::new();
    if write_restart(&header, &mut w).is_err() {
        return None;
    }
    if write_params(&state, &params, &mut w).is_err() {
        return None;
    }
    let place = w.place();
    if put_number(0, (8 - place % 8) % 8, &mut w).is_err() {
        return None;
    }
    if w.place() % 8 != 0 {
        return None;
    }
    if bytes.starts_with(w.bytes()) {
        Some(place)
    } else {
        None
    }
}

/// TrueHD: the first rule that a restart and two blocks of parameters break, the bit that it names, and the bytes.
const TRUEHD: [&str; 27] = [
    "RestartWord 0 C7A0384004400000000000000000000A68",
    "ChannelRange 34 C7A8384084400000000000000000000CB8",
    "MatrixChannel 38 C7A838400480000000000000000000084A20",
    "DataCheck 88 C7A8384004400000000000800000000F48",
    "ChannelAssign 119 C7A8384004400000000000000000001678",
    "ChannelAssign 119 C7A8384004400000000000000000020C60",
    "RestartCheck 125 C7A8384004400000000000000000000E68",
    "SegmentShort 97 C7A83840044000000000000000",
    "BlockSize 135 C7A8384004400000000000000000000E6207",
    "BlockSize 135 C7A8384004400000000000000000000E6229",
    "MatrixCount 136 C7A8384004400000000000000000000E6190",
    "MatrixDest 140 C7A8384004400000000000000000000E6112",
    "MatrixFrac 144 C7A8384004400000000000000000000E6111F0",
    "NoiseShift 153 C7AC384004400000000000000000000811110508",
    "OutputShift 141 C7A8384004400000000000000000000E608C00",
    "FilterOrder 140 C7A8384004400000000000000000000E6039",
    "FilterOrder 141 C7A8384004400000000000000000000E602A80",
    "CoeffBits 148 C7A8384004400000000000000000000E60310010",
    "CoeffBits 148 C7A8384004400000000000000000000E60310880",
    "CoeffBits 148 C7A8384004400000000000000000000E60310730",
    "FirState 158 C7A8384004400000000000000000000E60310106",
    "FilterSum 193 C7A8384004400000000000000000000E60350105554010550C00",
    "FilterSum 210 C7A8384004400000000000000000000E60350105541802A0082A8600",
    "FilterPrecision 181 C7A8384004400000000000000000000E60323105448410C0",
    "FilterPrecision 198 C7A8384004400000000000000000000E60289082180323105060",
    "HuffLsbs 144 C7A8384004400000000000000000000E6021C8",
    "SegmentShort 144 C7A8384004400000000000000000000E6030",
];

/// The same of MLP.
const MLP: [&str; 3] = [
    "RestartKind 13 C7AC384004400000000000000000000810",
    "ChannelRange 34 C7A83840198000000000000000000008418828C1A0",
    "MatrixCount 136 C7A8384004400000000000000000000E6170",
];

/// Each line is of a stream that breaks first the rule of the line.
fn assert_named(rt: &impl Abort, alloc: Global, kind: Kind, lines: &[&str]) {
    for line in lines {
        assert!(rt; is_named(alloc, kind, line), "{line}");
    }
}

#[test]
fn names_the_first_fault(rt: HostRuntime) {
    assert_named(&rt, rt.alloc(), Kind::Fba, &TRUEHD);
    assert_named(&rt, rt.alloc(), Kind::Fbb, &MLP);
}

#[test]
fn puts_given_values_in_force(rt: HostRuntime) {
    law_restart();
    law_params();
    law_in_force();
    let later = after_two_blocks(
        Kind::Fba,
        &[
            0xC7, 0xA8, 0x38, 0x40, 4, 0x40, 0, 0, 0, 0, 0, 0, 0, 0, 0, 0x0E, 0x60, 4, 0x40, 0,
        ],
    );
    if let Ok(state) = later {
        assert_eq!(rt; state.block_size, 32);
        assert_eq!(rt; state.presence, 0xFF);
        assert_eq!(rt; state.shifts.as_slice(), [0, 0].as_slice());
    } else {
        assert!(rt; false, "a later block size");
    }
    let shifted = after_two_blocks(
        Kind::Fba,
        &[
            0xC7, 0xA8, 0x38, 0x40, 4, 0x40, 0, 0, 0, 0, 0, 0, 0, 0, 0, 0x0E, 0x60, 0x88, 0, 0,
        ],
    );
    if let Ok(state) = shifted {
        assert_eq!(rt; state.block_size, 8);
        assert_eq!(rt; state.shifts.as_slice(), [1, 0].as_slice());
    } else {
        assert!(rt; false, "output shifts");
    }
}

#[test]
fn puts_filters_in_force_without_their_states(rt: HostRuntime) {
    if let Some(channel) = first_channel(&[
        0xC7, 0xA8, 0x38, 0x40, 4, 0x40, 0, 0, 0, 0, 0, 0, 0, 0, 0, 0x0E, 0x60, 0x38, 0x22, 0x90,
        0xF8, 0x7C, 0x2E, 0x8F, 0x84, 0x3F, 0xFF, 0x63, 0x80, 0,
    ]) {
        assert_eq!(rt;
            channel.fir.coeffs.as_slice(),
            [1, -2, 3, -4, 5, -6, 7, -8].as_slice()
        );
        assert_eq!(rt;
            (
                channel.fir.shift,
                channel.fir.coeff_bits,
                channel.fir.coeff_shift
            ),
            (2, 5, 1)
        );
        assert_eq!(rt; channel.iir.coeffs.len(), 0);
        assert_eq!(rt; (channel.offset, channel.book, channel.low), (-3, 2, 7));
    } else {
        assert!(rt; false, "orders 8 and 0");
    }
    if let Some(channel) = first_channel(&[
        0xC7, 0xA8, 0x38, 0x40, 4, 0x40, 0, 0, 0, 0, 0, 0, 0, 0, 0, 0x0E, 0x60, 0x34, 0x78, 8, 0,
        7, 0xFF, 0xF0, 0, 0x1F, 0xFF, 0xF5, 0x1C, 0x69, 0xC4, 0x2C, 0x50, 0x3E, 0, 0xA3, 0, 0,
    ]) {
        assert_eq!(rt;
            channel.fir.coeffs.as_slice(),
            [-32768, 32767, 1, -1].as_slice()
        );
        assert_eq!(rt; channel.iir.coeffs.as_slice(), [3, -4, 2, 0].as_slice());
        assert!(rt; channel.iir.state.is_none());
    } else {
        assert!(rt; false, "orders 4 and 4");
    }
}

#[test]
fn writes_what_was_read(rt: HostRuntime) {
    assert_eq!(rt;
        written_again(
            Kind::Fba,
            &[
                0xC7, 0xA8, 0x38, 0x40, 4, 0x40, 0, 0, 0, 0, 0, 0, 0, 0, 0, 0x0E, 0x60, 0x88, 0
            ]
        ),
        Some(148)
    );
    assert_eq!(rt;
        written_again(
            Kind::Fba,
            &[
                0xC7, 0xA8, 0x38, 0x40, 4, 0x40, 0, 0, 0, 0, 0, 0, 0, 0, 0, 0x0E, 0x60, 0x38, 0x22,
                0x90, 0xF8, 0x7C, 0x2E, 0x8F, 0x84, 0x3F, 0xFF, 0x63, 0x80
            ]
        ),
        Some(226)
    );
    assert_eq!(rt;
        written_again(
            Kind::Fba,
            &[
                0xC7, 0xA8, 0x38, 0x40, 4, 0x40, 0, 0, 0, 0, 0, 0, 0, 0, 0, 0x0E, 0x60, 0x34, 0x78,
                8, 0, 7, 0xFF, 0xF0, 0, 0x1F, 0xFF, 0xF5, 0x1C, 0x69, 0xC4, 0x2C, 0x50, 0x3E, 0,
                0xA3, 0
            ]
        ),
        Some(292)
    );
    assert_eq!(rt;
        written_again(
            Kind::Fba,
            &[
                0xC7, 0xA8, 0x38, 0x40, 4, 0x40, 0, 0, 0, 0, 0, 0, 0, 0, 0, 0x0E, 0x61, 0x80, 0xEC,
                0xFF, 0xFF, 0, 0, 0x0F, 0x67, 0xFF, 0xF8, 0, 0, 0x3B, 0x3F, 0xFF, 0xC0, 0, 3, 0xD9,
                0xFF, 0xFE, 0, 0, 0x0E, 0xCF, 0xFF, 0xF0, 0, 0, 0xF6, 0x7F, 0xFF, 0x80, 0, 3, 0xB3,
                0xFF, 0xFC, 0, 0, 0x3D, 0x9F, 0xFF, 0xE0, 0, 0
            ]
        ),
        Some(504)
    );
    assert_eq!(rt;
        written_again(
            Kind::Fba,
            &[
                0xC7, 0xAF, 0xFF, 0xFC, 0x9D, 0xFF, 0xFF, 0xFF, 0xF8, 0, 0, 0x52, 0x80, 0, 0x0E,
                0x30, 0xA2, 6, 0x10, 0x20, 0x37, 0, 0
            ]
        ),
        Some(180)
    );
}

#[test]
fn restarts_and_parameters_in_place(rt: HostRuntime) {
    assert_eq!(rt;
        same_in_place(&[
            0xC7, 0xA8, 0x38, 0x40, 4, 0x40, 0, 0, 0, 0, 0, 0, 0, 0, 0, 0x0E, 0x60, 0x34, 0x78, 8,
            0, 7, 0xFF, 0xF0, 0, 0x1F, 0xFF, 0xF5, 0x1C, 0x69, 0xC4, 0x2C, 0x50, 0x3E, 0, 0xA3, 0,
            0,
        ]),
        Ok(true)
    );
}
