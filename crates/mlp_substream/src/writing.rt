//! Writing a segment.
ghost use Rattle.std.specs.Prelude.{◌≡◌, ◌+◌, ◌≤◌, ◌<◌, ◌^◌, ◌↔◌, ◌++◌, [], ◌∷◌, List, length, if◌then◌else◌, IsErr, OnErr, OnOk};
ghost use Rattle.mlp_bits.specs.Bits.{bits, bits_of};
ghost use Rattle.mlp_bits.specs.Checks.{segment_parity_of, check8_of};
ghost use Rattle.mlp_syntax.specs.declared.major.Kind.{Kind};
ghost use Rattle.mlp_layout.specs.Layout.{spelling_as};
ghost use Rattle.mlp_layout.specs.Writing.{Writes};
ghost use Rattle.mlp_substream.specs.Blocks.{force_after, IsPlace, first_context, ForceFits};
ghost use Rattle.mlp_substream.specs.Segment.{terminator as terminator_layout, padding_width, segment_tail, segment as segment_layout, unknown};

use crate::known::Place;
use crate::writing_blocks::write_blocks;
use mlp_bits::{BitWriter, Full, check8, segment_parity};
use mlp_layout::{put_all, put_number};
use mlp_params::State;
use mlp_syntax::{Segment, UnitBytes, UnitTooLong};

/// A terminator where there is one, of which this is the second word.
#[tactic(auto, unfolding(mlp_layout::specs::Layout::part, mlp_layout::specs::Layout::ruled, mlp_layout::specs::Layout::number_of, mlp_layout::specs::Combined::fixed, crate::specs::Segment::terminator))]
fn write_terminator(second: Option<u16>, w: &mut BitWriter) -> Result<(), Full>
    ensures { (format : Kind) → Writes w.old w.new result (spelling_as (terminator_layout format).spelling second) }
{
    match second {
        None => put_all(&[], w),
        Some(word) => put_all(&[(0xD234, 16), (u32::from(word), 16)], w),
    }
}

/// The bits up to the next multiple of 16, and the terminator.
fn write_end(padding: u16, second: Option<u16>, w: &mut BitWriter) -> Result<(), Full>
    requires { padding < 2 ^ padding_width (length w.old) }
    ensures { (format : Kind) → Writes w.old w.new result
        (bits (padding_width (length w.old)) padding ++ spelling_as (terminator_layout format).spelling second) }
{
    let width = (16 - w.place() % 16) % 16;
    put_number(u32::from(padding), width, w)?;
    write_terminator(second, w)
}

/// All that stands before the checks.
fn write_fields(
    place: &Place,
    state: &mut Option<State>,
    segment: &Segment,
    w: &mut BitWriter,
) -> Result<(), Full>
    requires empty { w.old ≡ [] }
    requires place { IsPlace place.now }
    requires state { ForceFits place.now state.old }
    requires fits { (segment_tail place.now unknown
        (first_context place.now state.old) segment.now.checked).Fits 0 segment.now }
    requires meets { (segment_tail place.now unknown
        (first_context place.now state.old) segment.now.checked).Meets 0 segment.now }
    ensures text { Writes w.old w.new result ((segment_tail place.now unknown
        (first_context place.now state.old) segment.now.checked).spelling 0 segment.now) }
    ensures force { OnOk result (state.new ≡ force_after place.now state.old segment.now.blocks.items) }
    ensures state { OnOk result (ForceFits place.now state.new) }
{
    write_blocks(place, state, &segment.blocks, &segment.codes, w)?;
    write_end(segment.padding, segment.terminator, w)
}

/// Appends bytes, and their parity and check where that is asked for.
fn push_segment(bytes: &[u8], checked: bool, out: &mut UnitBytes) -> Result<(), UnitTooLong>
    requires some { 0 < length bytes.now }
    requires few { length bytes.now ≤ 8190 }
    ensures too_long { IsErr result ↔ (8190 < length out.old.items + length bytes.now + (if checked then 2 else 0)) }
    ensures kept { OnErr result (out.new ≡ out.old) }
    ensures appended { OnOk result (out.new.items ≡ out.old.items
        ++ (bytes.now ++ (if checked then segment_parity_of bytes.now ∷ check8_of bytes.now ∷ [] else []))) }
{
    let checks = if checked { 2 } else { 0 };
    if out.len() + bytes.len() + checks > 8190 {
        return Err(UnitTooLong);
    }
    let _full = out.try_extend_from_slice(bytes);
    if checked {
        out.push(segment_parity(bytes));
        out.push(check8(bytes));
    }
    Ok(())
}

/// Appends the one spelling of a segment, with its check bytes where it has them. `state` is what is in force before
/// it, and at Ok what is in force behind it. What the writer had is forgotten.
///
/// `UnitTooLong` comes exactly where the bytes would pass 8190; then `out` is unchanged, and `state` is of no use.
pub fn write_segment_with(
    writer: &mut BitWriter,
    place: &Place,
    state: &mut Option<State>,
    segment: &Segment,
    out: &mut UnitBytes,
) -> Result<(), UnitTooLong>
    requires place { IsPlace place.now }
    requires state { ForceFits place.now state.old }
    requires fits { (segment_layout place.now unknown state.old segment.now.checked).Fits segment.now }
    requires meets { (segment_layout place.now unknown state.old segment.now.checked).Meets segment.now }
    ensures too_long { IsErr result ↔ (65520 < length (bits_of out.old.items
        ++ (segment_layout place.now unknown state.old segment.now.checked).spelling segment.now)) }
    ensures kept { OnErr result (out.new ≡ out.old) }
    ensures appended { OnOk result (bits_of out.new.items ≡ bits_of out.old.items
        ++ (segment_layout place.now unknown state.old segment.now.checked).spelling segment.now) }
    ensures force { OnOk result (state.new ≡ force_after place.now state.old segment.now.blocks.items) }
    ensures state { OnOk result (ForceFits place.now state.new) }
{
    writer.clear();
    let Ok(()) = write_fields(place, state, segment, writer) else {
        return Err(UnitTooLong);
    };
    let bytes = writer.bytes();
    push_segment(bytes, segment.checked, out)
}

/// The same, with a writer of its own.
pub fn write_segment(
    place: &Place,
    state: &mut Option<State>,
    segment: &Segment,
    out: &mut UnitBytes,
) -> Result<(), UnitTooLong>
    requires place { IsPlace place.now }
    requires state { ForceFits place.now state.old }
    requires fits { (segment_layout place.now unknown state.old segment.now.checked).Fits segment.now }
    requires meets { (segment_layout place.now unknown state.old segment.now.checked).Meets segment.now }
    ensures too_long { IsErr result ↔ (65520 < length (bits_of out.old.items
        ++ (segment_layout place.now unknown state.old segment.now.checked).spelling segment.now)) }
    ensures kept { OnErr result (out.new ≡ out.old) }
    ensures appended { OnOk result (bits_of out.new.items ≡ bits_of out.old.items
        ++ (segment_layout place.now unknown state.old segment.now.checked).spelling segment.now) }
    ensures force { OnOk result (state.new ≡ force_after place.now state.old segment.now.blocks.items) }
    ensures state { OnOk result (ForceFits place.now state.new) }
{
    let mut writer = BitWriter::new();
    write_segment_with(&mut writer, place, state, segment, out)
}
