//! Residuals and their codes. The values of codes and the parameters behind a restart are those that an independent reader of
//! the format gives.
ghost use Rattle.std.specs.Prelude.{◌≤◌, ◌<◌, length, IfSome};
ghost use Rattle.mlp_params.specs.States.{IsState};

use arrayvec::ArrayVec;
use mlp_bits::BitReader;
use mlp_params::{State, read_restart};
use mlp_residual::{
    ChannelCode, Coding, ResidualCoding, bits_of, bits_of_widths, code_of, coding_in_force,
    law_codes, law_frames, read_coded, read_frames, residual, residuals, steps_fit,
};
use mlp_syntax::{Broken, Code, Field, FrameCode, Kind};

#[test]
fn residuals_of_codes(rt: HostRuntime) {
    for (book, b, code, value) in [
        (1, 0, Code { symbol: 7, low: 0 }, -2),
        (3, 0, Code { symbol: 7, low: 0 }, 0),
        (3, 2, Code { symbol: 7, low: 2 }, 0),
        (
            0,
            24,
            Code {
                symbol: 0,
                low: 0x80_0001,
            },
            1,
        ),
    ] {
        assert!(rt; book <= 3 && b < 32);
        assert_eq!(rt; residual(book, b, 0, 0, code), value);
        assert_eq!(rt; code_of(book, b, 0, 0, value), Some(code));
    }
    assert_eq!(rt; residual(2, 3, -5, 4, Code { symbol: 15, low: 7 }), 928);
    assert_eq!(rt; code_of(1, 0, 0, 0, 8), Some(Code { symbol: 17, low: 0 }));
    assert_eq!(rt; code_of(1, 0, 0, 0, 9), None);
    assert_eq!(rt; code_of(0, 5, 0, 3, 7), None);
}

#[test]
fn bits_are_counted(rt: HostRuntime) {
    assert_eq!(rt; bits_of(0, 24, 0, 0, &[0; 8]), Some(192));
    assert_eq!(rt; bits_of(0, 0, 0, 0, &[0; 8]), Some(0));
    assert_eq!(rt; bits_of(3, 0, 0, 0, &[0, 0, 1, -1]), Some(8));
    assert_eq!(rt; bits_of(3, 0, 0, 0, &[0, 100]), None);
    let mut counts = [None; 3];
    bits_of_widths(3, 0, 0, 0, &[0, 0, 1, -1], &mut counts);
    assert!(rt; counts == [Some(8), Some(10), Some(12)]);
    let mut counts = [None; 2];
    bits_of_widths(3, 3, 0, 0, &[0, 100], &mut counts);
    assert!(rt; counts == [None, Some(17)]);
    bits_of_widths(3, 3, 0, 1, &[0, 99], &mut counts);
    assert!(rt; counts == [None, None]);
}

#[test]
fn frames_of_two_channels(rt: HostRuntime) {
    let mut bypass: ArrayVec<bool, 8> = ArrayVec::new();
    for has_bit in [true, false, true] {
        assert!(rt; !bypass.is_full());
        bypass.push(has_bit);
    }
    let mut channels: ArrayVec<ChannelCode, 8> = ArrayVec::new();
    channels.push(ChannelCode { book: 3, low: 2 });
    channels.push(ChannelCode { book: 0, low: 4 });
    let coding = Coding { bypass, channels };
    let mut r = BitReader::new(&[0xB2, 0xA7, 0xF0, 0x10]);
    let mut frames: ArrayVec<FrameCode, 160> = ArrayVec::new();
    assert_eq!(rt; read_coded(&coding, 0, 2, &mut r, &mut frames), Ok(()));
    assert_eq!(rt; r.place(), 20);
    let wanted = [
        (1, Code { symbol: 7, low: 2 }, Code { symbol: 0, low: 5 }),
        (4, Code { symbol: 6, low: 3 }, Code { symbol: 0, low: 15 }),
    ];
    assert!(rt; frames.len() == 2);
    for i in 0..2 {
        assert_eq!(rt; frames[i].bypass, wanted[i].0);
        assert!(rt; frames[i].codes.as_slice() == [wanted[i].1, wanted[i].2].as_slice());
    }
    let mut later: ArrayVec<FrameCode, 160> = ArrayVec::new();
    let short = Broken {
        field: Field::SegmentShort,
        bit: 30,
    };
    assert_eq!(rt; read_coded(&coding, 0, 2, &mut r, &mut later), Err(short));
    later.clear();
    let mut gap = BitReader::new(&[0x90, 0x1F]);
    let code = Broken {
        field: Field::Code,
        bit: 2,
    };
    assert_eq!(rt; read_coded(&coding, 0, 1, &mut gap, &mut later), Err(code));
}

/// What is in force behind the restart header of a silent stereo stream, the bits of which stand behind two others.
fn at_restart() -> Option<State>
    ensures { IfSome result (λ s. IsState s) }
{
    let mut r = BitReader::new(&[
        0xF1, 0xEA, 0x0E, 0x10, 0x01, 0x10, 0, 0, 0, 0, 0, 0, 0, 0, 0, 0x03, 0x98, 0x8A, 0x04, 0x00,
    ]);
    if r.take(2).is_err() {
        return None;
    }
    match read_restart(Kind::Fba, &mut r) {
        Ok(header) => Some(State::at_restart(Kind::Fba, 40, &header)),
        Err(_broken) => None,
    }
}

#[test]
fn frames_behind_a_restart(rt: HostRuntime) {
    let Some(state) = at_restart() else {
        panic!(rt; "the restart header is one");
    };
    law_codes();
    law_frames();
    assert!(rt; steps_fit(&state));
    let coding = coding_in_force(&state);
    assert_eq!(rt; coding.bypass.len(), 0);
    assert!(rt; coding.channels.as_slice() == [ChannelCode { book: 0, low: 24 }; 2].as_slice());
    let bytes = [0x80, 0x00, 0x01, 0x7F, 0xFF, 0xFF];
    let mut r = BitReader::new(&bytes);
    let mut frames: ArrayVec<FrameCode, 160> = ArrayVec::new();
    assert_eq!(rt; read_frames(&state, 1, &mut r, &mut frames), Ok(()));
    assert_eq!(rt; r.place(), 48);
}

/// The residual of one code, read as the frames of a block are.
fn read_residual(book: u8, low: u8, bytes: &[u8]) -> Result<i32, Broken>
    requires book { book ≤ 3 }
    requires low { low < 32 }
    requires bytes { length bytes.now ≤ 8190 }
{
    let mut channels: ArrayVec<ChannelCode, 8> = ArrayVec::new();
    channels.push(ChannelCode { book, low });
    let coding = Coding {
        bypass: ArrayVec::new(),
        channels,
    };
    let mut frames: ArrayVec<FrameCode, 160> = ArrayVec::new();
    read_coded(&coding, 0, 1, &mut BitReader::new(bytes), &mut frames)?;
    let code = frames[0].codes.first().copied().unwrap_or_default();
    let mut coded = FrameCode::default();
    coded.codes.push(code);
    let coding = ResidualCoding {
        book,
        low,
        offset: 0,
        step: 0,
    };
    let mut out = [0];
    residuals(&coding, 0, &[coded], &mut out);
    Ok(out[0])
}

/// From bits to residuals, both in few bytes, field by field, and in many, from words.
#[test]
fn residuals_of_bits(rt: HostRuntime) {
    for (book, low, first, value) in [
        (1, 0, [0x80, 0x00, 0x00], -2),
        (3, 0, [0x80, 0x00, 0x00], 0),
        (3, 2, [0xC0, 0x00, 0x00], 0),
        (0, 24, [0x80, 0x00, 0x01], 1),
    ] {
        assert!(rt; book <= 3 && low < 32);
        assert_eq!(rt; read_residual(book, low, &first), Ok(value));
        let mut many = [0; 100];
        many[0] = first[0];
        many[1] = first[1];
        many[2] = first[2];
        assert_eq!(rt; read_residual(book, low, &many), Ok(value));
    }
    let none = Broken {
        field: Field::Code,
        bit: 0,
    };
    for book in 1..4 {
        let mut gap = [0; 100];
        gap[0] = 0x40;
        assert!(rt; book <= 3);
        assert_eq!(rt; read_residual(book, 0, &gap), Err(none));
        assert_eq!(rt; read_residual(book, 0, &gap[..2]), Err(none));
    }
}
