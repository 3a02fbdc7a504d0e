//! Segments of a silent stereo stream at 48 kHz, by bytes that were worked out by hand.
ghost use Rattle.std.specs.Prelude.{◌≡◌, ◌≤◌, IfOk, OnOk, length};
ghost use Rattle.mlp_substream.specs.Blocks.{IsPlace, ForceFits};
ghost use Rattle.mlp_syntax.specs.declared.major.Kind.TheVariants.{Fba};

use crate::vectors::{RICH, bytes_of};
use mlp_layout::broken;
use mlp_params::State;
use mlp_substream::laws::{
    law_behind_blocks, law_blocks, law_fresh, law_known, law_playable, law_reread, law_segment,
    law_stamped, law_timing, law_written,
};
use mlp_substream::{Known, Place, put_head, read_segment, read_segment_into, write_segment};
use mlp_syntax::{BlockHead, Broken, Field, Kind, Segment, UnitBytes, UnitTooLong};
use std::process::Abort;

/// A restart, 40 frames of no bits, and checks.
const FIRST: [u8; 24] = [
    0xF1, 0xEA, 0x0E, 0x10, 0x01, 0x10, 0, 0, 0, 0, 0, 0, 0, 0, 0, 0x03, 0x98, 0x8A, 0x04, 0x00,
    0x80, 0x10, 0x38, 0xC5,
];

/// The same with blocks of 8 and 32 frames, and a terminator that drops 39.
const ENDED: [u8; 30] = [
    0xF1, 0xEA, 0x0E, 0x10, 0x01, 0x10, 0, 0, 0, 0, 0, 0, 0, 0, 0, 0x03, 0x98, 0x08, 0x01, 0x00,
    0x12, 0x20, 0x04, 0x00, 0xD2, 0x34, 0x20, 0x27, 0xF8, 0x98,
];

/// A restart and 20 blocks of 8 frames of no bits, of 160 frames a unit, and checks.
const TWENTY: [u8; 28] = [
    0xF1, 0xEA, 0x0E, 0x10, 0x01, 0x10, 0, 0, 0, 0, 0, 0, 0, 0, 0, 0x03, 0x98, 0x08, 0x01, 0, 0, 0,
    0, 0, 0, 0x80, 0xAF, 0x6A,
];

/// A restart of channel 1 alone, 40 frames of no bits, and checks.
const ONE_CHANNEL: [u8; 24] = [
    0xF1, 0xEA, 0x0E, 0x10, 0x11, 0x10, 0, 0, 0, 0, 0, 0, 0, 0, 0, 0x02, 0xDE, 0x8A, 0x04, 0x00,
    0x80, 0x00, 0x7F, 0x45,
];

fn stereo(major: bool) -> Place
    ensures { result ≡ record { format = Fba; unit_frames = 40; major = major } }
{
    Place {
        format: Kind::Fba,
        unit_frames: 40,
        major,
    }
}

/// Reads a segment and appends it as it is written: what is in force is carried on in both.
fn write_again(
    place: &Place,
    reading: &mut Option<State>,
    writing: &mut Option<State>,
    bytes: &[u8],
    checked: bool,
    out: &mut UnitBytes,
) -> Result<Result<(), UnitTooLong>, Broken>
    requires size { length bytes.now ≤ 8190 }
    requires place { IsPlace place.now }
    requires state { ForceFits place.now reading.old }
    requires same { writing.old ≡ reading.old }
    ensures state { IfOk result (λ r. OnOk r (ForceFits place.now reading.new)) }
    ensures same { IfOk result (λ r. OnOk r (writing.new ≡ reading.new)) }
{
    let segment = read_segment(place, reading, bytes, checked)?;
    law_reread();
    let answer = write_segment(place, writing, &segment, out);
    Ok(answer)
}

/// Whether a segment that is the first of its substream is written as it was read, behind bytes that are there.
fn is_written_again(place: &Place, bytes: &[u8], checked: bool) -> bool
    requires size { length bytes.now ≤ 8190 }
    requires place { IsPlace place.now }
{
    let mut reading: Option<State> = None;
    let mut writing: Option<State> = None;
    let mut out = UnitBytes::new();
    out.push(7);
    let answer = write_again(place, &mut reading, &mut writing, bytes, checked, &mut out);
    answer == Ok(Ok(())) && out.first() == Some(&7) && out.as_slice().get(1..) == Some(bytes)
}

#[test]
fn writes_segments(rt: HostRuntime) {
    law_segment();
    law_written();
    assert!(rt; is_written_again(&stereo(true), &FIRST, true));
    assert!(rt; is_written_again(&stereo(true), &ENDED, true));
    assert!(rt; is_written_again(&stereo(true), &FIRST[..22], false));
    assert!(rt; is_written_again(&stereo(true), &ENDED[..28], false));
}

#[test]
fn writes_segments_behind_others(rt: HostRuntime) {
    let mut reading: Option<State> = None;
    let mut writing: Option<State> = None;
    let mut out = UnitBytes::new();
    let second = [0x40, 0x00, 0xE9, 0x1D];
    let Ok(Ok(())) = write_again(
        &stereo(true),
        &mut reading,
        &mut writing,
        &FIRST,
        true,
        &mut out,
    ) else {
        panic!(rt; "the first segment is written");
    };
    let Ok(Ok(())) = write_again(
        &stereo(false),
        &mut reading,
        &mut writing,
        &second,
        true,
        &mut out,
    ) else {
        panic!(rt; "so is the second, by what the first put in force");
    };
    assert_eq!(rt; out.len(), 28);
    assert_eq!(rt; &out[24..28], second.as_slice());
}

#[test]
fn writes_twenty_blocks(rt: HostRuntime) {
    let place = Place {
        format: Kind::Fba,
        unit_frames: 160,
        major: true,
    };
    law_blocks();
    assert!(rt; is_written_again(&place, &TWENTY, true));
    let mut state: Option<State> = None;
    let Ok(segment) = read_segment(&place, &mut state, &TWENTY, true) else {
        panic!(rt; "it is a segment");
    };
    assert_eq!(rt; segment.blocks.len(), 20);
    assert_eq!(rt; segment.codes.len(), 160);
    let mut more = TWENTY;
    more[25] = 0x20;
    more[26] = 0x0F;
    more[27] = 0xCA;
    let mut state: Option<State> = None;
    assert_eq!(rt;
        read_segment(&place, &mut state, &more, true).err(),
        Some(broken(Field::BlockOverrun, 202))
    );
}

#[test]
fn refuses_what_is_too_long(rt: HostRuntime) {
    for (before, after, answer) in [(8166, 8190, Ok(())), (8167, 8167, Err(UnitTooLong))] {
        let mut reading: Option<State> = None;
        let mut writing: Option<State> = None;
        let mut out = UnitBytes::new();
        for _ in 0..before {
            let _full = out.try_push(9);
        }
        let written = write_again(
            &stereo(true),
            &mut reading,
            &mut writing,
            &FIRST,
            true,
            &mut out,
        );
        assert_eq!(rt; written, Ok(answer));
        assert_eq!(rt; out.len(), after);
        assert_eq!(rt; out[8165], 9);
    }
}

/// Puts in force a head that gives nothing.
fn put_nothing(place: &Place, state: &mut Option<State>)
    requires place { IsPlace place.now }
    requires state { ForceFits place.now state.old }
{
    let head = BlockHead {
        restart: None,
        params: None,
        frames: 40,
    };
    put_head(place, &head, state);
}

#[test]
fn puts_heads_in_force(rt: HostRuntime) {
    law_playable();
    law_behind_blocks();
    law_known();
    law_fresh();
    law_timing();
    law_stamped();
    let mut state: Option<State> = None;
    assert!(rt; read_segment(&stereo(true), &mut state, &FIRST, true).is_ok());
    let Some(State { block_size: 40, .. }) = state else {
        panic!(rt; "blocks of 40 frames are in force");
    };
    let mut none: Option<State> = None;
    put_nothing(&stereo(false), &mut none);
    assert!(rt; none.is_none());
}

/// Reads a first segment over what `segment` holds: it then holds what it would without that.
fn assert_over(rt: &impl Abort, place: &Place, bytes: &[u8], segment: &mut Segment)
    requires size { length bytes.now ≤ 8190 }
    requires place { IsPlace place.now }
{
    let mut state: Option<State> = None;
    let Ok(fresh) = read_segment(place, &mut state, bytes, true) else {
        panic!(rt; "it is a segment");
    };
    let mut state: Option<State> = None;
    let answer = read_segment_into(place, &Known::default(), &mut state, bytes, true, segment);
    assert_eq!(rt; answer, Ok(()));
    assert!(rt; *segment == fresh);
}

#[test]
fn reads_over_other_segments(rt: HostRuntime) {
    let place = Place {
        format: Kind::Fba,
        unit_frames: 160,
        major: true,
    };
    let rich = bytes_of(&RICH);
    let mut segment = Segment::default();
    assert_over(&rt, &place, &TWENTY, &mut segment);
    assert_over(&rt, &stereo(true), rich.as_slice(), &mut segment);
    assert_over(&rt, &stereo(true), &ONE_CHANNEL, &mut segment);
    assert_eq!(rt; (segment.blocks.len(), segment.codes.len()), (1, 40));
    assert!(rt; segment.codes.iter().all(|frame| frame.codes.len() == 1));
    assert_over(&rt, &place, &TWENTY, &mut segment);
    assert_over(&rt, &stereo(true), &ENDED, &mut segment);
    assert_eq!(rt; (segment.blocks.len(), segment.codes.len()), (2, 40));
}
