//! Reading a segment.
ghost use Rattle.std.specs.Prelude.{◌≡◌, ◌+◌, ◌-◌, ◌*◌, ◌≤◌, ◌<◌, Ok, Err, IfOk, OnOk, MatchResult, length};
ghost use Rattle.mlp_bits.specs.Bits.{bits_of};
ghost use Rattle.mlp_layout.specs.Tails.{whole_text};
ghost use Rattle.mlp_substream.specs.Checks.{checks_fault};
ghost use Rattle.mlp_substream.specs.Blocks.{force_after, IsPlace, first_context, ForceFits};
ghost use Rattle.mlp_substream.specs.Playable.{ArePlayable};
ghost use Rattle.mlp_substream.specs.Segment.{segment_tail, segment_text, segment, unknown};

use crate::blocks::read_blocks;
use crate::ends::{end_fault, read_end};
use crate::known::{Known, Place};
use mlp_bits::{BitReader, check8, segment_parity};
use mlp_layout::{broken, word};
use mlp_params::State;
use mlp_syntax::{Broken, Field, Segment};

/// The fields of a segment, up to the end of the bytes.
fn read_fields(
    place: &Place,
    known: &Known,
    state: &mut Option<State>,
    bytes: &[u8],
    out: &mut Segment,
) -> Result<(), Broken>
    requires size { length bytes.now ≤ 8190 }
    requires place { IsPlace place.now }
    requires state { ForceFits place.now state.old }
    ensures read { MatchResult result
        (λ _. (whole_text (segment_tail place.now known.now (first_context place.now state.old) out.old.checked)).read
        (bits_of bytes.now) ≡ Ok out.new)
        (λ e. (whole_text (segment_tail place.now known.now (first_context place.now state.old) out.old.checked)).read
        (bits_of bytes.now) ≡ Err e) }
    ensures force { OnOk result (state.new ≡ force_after place.now state.old out.new.blocks.items) }
    ensures state { OnOk result (ForceFits place.now state.new) }
{
    let mut r = BitReader::new(bytes);
    read_blocks(place, known, state, &mut r, out)?;
    let width = (16 - r.place() % 16) % 16;
    let padding = word(width, &mut r)?;
    let terminator = read_end(place.format, &mut r)?;
    out.padding = padding;
    out.terminator = terminator;
    Ok(())
}

/// The fields of a segment, and the rules at its end.
fn read_text(
    place: &Place,
    known: &Known,
    state: &mut Option<State>,
    bytes: &[u8],
    out: &mut Segment,
) -> Result<(), Broken>
    requires size { length bytes.now ≤ 8190 }
    requires place { IsPlace place.now }
    requires state { ForceFits place.now state.old }
    ensures read { MatchResult result
        (λ _. (segment_text place.now known.now state.old out.old.checked).read (bits_of bytes.now) ≡ Ok out.new)
        (λ e. (segment_text place.now known.now state.old out.old.checked).read (bits_of bytes.now) ≡ Err e) }
    ensures force { OnOk result (state.new ≡ force_after place.now state.old out.new.blocks.items) }
    ensures state { OnOk result (ForceFits place.now state.new) }
{
    read_fields(place, known, state, bytes, out)?;
    match end_fault(known, place.unit_frames, bytes.len() as u32 * 8, out) {
        None => Ok(()),
        Some((field, bit)) => Err(broken(field, bit)),
    }
}

/// The fault of the two bytes of checks at the end, or of fewer than four bytes.
fn check_fault(bytes: &[u8]) -> Option<Broken>
    requires { length bytes.now ≤ 8190 }
    ensures { result ≡ checks_fault (bits_of bytes.now) }
{
    if bytes.len() < 4 {
        return Some(broken(Field::SegmentShort, 0));
    }
    let end = bytes.len() - 2;
    let text = &bytes[..end];
    if bytes[end] != segment_parity(text) {
        return Some(broken(Field::SegmentParity, end as u32 * 8));
    }
    if bytes[end + 1] != check8(text) {
        return Some(broken(Field::SegmentCheck, end as u32 * 8 + 8));
    }
    None
}

/// The checks of a segment where it has them, and then its text.
fn read_whole(
    place: &Place,
    known: &Known,
    state: &mut Option<State>,
    bytes: &[u8],
    checked: bool,
    out: &mut Segment,
) -> Result<(), Broken>
    requires size { length bytes.now ≤ 8190 }
    requires place { IsPlace place.now }
    requires state { ForceFits place.now state.old }
    ensures read { MatchResult result
        (λ _. (segment place.now known.now state.old checked).read (bits_of bytes.now) ≡ Ok out.new)
        (λ e. (segment place.now known.now state.old checked).read (bits_of bytes.now) ≡ Err e) }
    ensures force { OnOk result (state.new ≡ force_after place.now state.old out.new.blocks.items) }
    ensures state { OnOk result (ForceFits place.now state.new) }
{
    out.checked = checked;
    if !checked {
        return read_text(place, known, state, bytes, out);
    }
    match check_fault(bytes) {
        Some(fault) => Err(fault),
        None => read_text(place, known, state, &bytes[..bytes.len() - 2], out),
    }
}

/// Reads a segment into `out`, whose blocks and frames are replaced, by what is known of it from elsewhere.
///
/// At Ok `state` is what is in force behind it. The fault is the first rule that fails: of the checks, of the blocks
/// one after the other, of what follows them. Its bit is counted from the segment's first. `state` and `out` are of no
/// use then.
pub fn read_segment_into(
    place: &Place,
    known: &Known,
    state: &mut Option<State>,
    bytes: &[u8],
    checked: bool,
    out: &mut Segment,
) -> Result<(), Broken>
    requires size { length bytes.now ≤ 8190 }
    requires place { IsPlace place.now }
    requires state { ForceFits place.now state.old }
    ensures read { MatchResult result
        (λ _. (segment place.now known.now state.old checked).read (bits_of bytes.now) ≡ Ok out.new)
        (λ e. (segment place.now known.now state.old checked).read (bits_of bytes.now) ≡ Err e) }
    ensures force { OnOk result (state.new ≡ force_after place.now state.old out.new.blocks.items) }
    ensures state { OnOk result (ForceFits place.now state.new) }
    ensures playable { OnOk result
        (ArePlayable place.now place.now.major state.old out.new.blocks.items out.new.codes.items) }
{
    read_whole(place, known, state, bytes, checked, out)
}

/// Reads a segment of which nothing is known from elsewhere.
///
/// At Ok `state` is what is in force behind it. The fault is the first rule that fails, of those that need this segment
/// alone; its bit is counted from the segment's first. `state` is of no use then.
pub fn read_segment(
    place: &Place,
    state: &mut Option<State>,
    bytes: &[u8],
    checked: bool,
) -> Result<Segment, Broken>
    requires size { length bytes.now ≤ 8190 }
    requires place { IsPlace place.now }
    requires state { ForceFits place.now state.old }
    ensures read { MatchResult result
        (λ s. (segment place.now unknown state.old checked).read (bits_of bytes.now) ≡ Ok s)
        (λ e. (segment place.now unknown state.old checked).read (bits_of bytes.now) ≡ Err e) }
    ensures force { IfOk result (λ s. state.new ≡ force_after place.now state.old s.blocks.items) }
    ensures state { OnOk result (ForceFits place.now state.new) }
    ensures playable { IfOk result
        (λ s. ArePlayable place.now place.now.major state.old s.blocks.items s.codes.items) }
{
    let known = Known {
        max_matrix: None,
        covered: None,
        lossless: None,
        first: None,
    };
    let mut segment = Segment::default();
    read_segment_into(place, &known, state, bytes, checked, &mut segment)?;
    Ok(segment)
}
