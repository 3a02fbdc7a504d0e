//! Reading the segments of a unit, one substream after the other.
ghost use Rattle.std.specs.Prelude.{◌≡◌, ◌+◌, ◌-◌, ◌*◌, ◌<◌, ◌≤◌, ◌==◌, ℕ, List, [], Ok, Err, OnOk, MatchResult, length, slice_index_or};
ghost use Rattle.mlp_syntax.specs.declared.fault.Broken.{Broken};
ghost use Rattle.mlp_syntax.specs.declared.segment.Segment.{Segment};
ghost use Rattle.mlp_bits.specs.Bits.{bits_of};
ghost use Rattle.mlp_layout.specs.Contents.{in_segment, segments};
ghost use Rattle.mlp_unit.specs.Shape.{body_place, end_before, unit_with, segment_bits, HoldsSegments};
ghost use Rattle.mlp_substream.specs.Blocks.{IsPlace, ForceFits};
ghost use Rattle.mlp_substream.specs.Segment.{segment as segment_layout};
ghost use Rattle.mlp_channels.specs.Channels.{nothing_coded, coded_after, HasPlayed};
ghost use Rattle.mlp_contents.specs.Known.{known_by};
ghost use Rattle.mlp_contents.specs.Units.{coded_at, is_checked, portion};
ghost use Rattle.mlp_contents.specs.Inner.{unit_fault, IsCovered};
ghost use Rattle.mlp_contents.specs.Read.{ForcesAre, HasRead};

use crate::fault::SegmentFault;
use crate::known::{covered_with, ending_with, known_by};
use mlp_channels::Substream;
use mlp_substream::{Ending, Place};
use mlp_syntax::{Broken, DirEntry, Outer, Segment};
use mlp_unit::{segment_bytes, segment_range};

/// Whether a substream's segment ends with two bytes of checks.
fn is_checked(entries: &[DirEntry], at: usize) -> bool
    requires { at < length entries.now }
    ensures { result ≡ is_checked entries.now at }
{
    entries[at].checked
}

/// A fault of a substream's segment, as one of the unit.
fn in_unit(outer: &Outer, substream: u8, broken: Broken) -> SegmentFault
    requires exists { substream < length outer.now.entries.items }
    requires body { outer.now.body ≤ 8190 }
    requires start { outer.now.body + 2 * end_before outer.now.entries.items substream ≤ 8190 }
    requires near { broken.bit ≤ 65648 }
    ensures { unit_fault result
        ≡ in_segment substream (8 * (outer.now.body + 2 * end_before outer.now.entries.items substream)) broken }
{
    let (start, _end) = segment_range(outer, substream);
    SegmentFault {
        substream,
        field: broken.field,
        bit: 8 * start + broken.bit,
    }
}

/// Reads the segment of a substream, and plays it.
fn read_next(
    place: &Place,
    check: u8,
    unit: &[u8],
    outer: &Outer,
    at: u8,
    is_last: bool,
    covered: u8,
    first: Option<Ending>,
    substream: &mut Substream,
    segment: &mut Segment,
    frames: &mut [[i32; 10]; 160],
) -> Result<(), SegmentFault>
    requires size { length unit.now ≤ 8190 }
    requires exists { at < length outer.now.entries.items }
    requires inside { HoldsSegments unit.now outer.now }
    requires place { IsPlace place.now }
    requires state { ForceFits place.now substream.old.force }
    ensures read { let force = substream.old.force in
        let known = known_by is_last force check covered first in
        let text = segment_layout place.now known force (is_checked outer.now.entries.items at) in
        MatchResult result
        (λ _. text.read (segment_bits unit.now outer.now at) ≡ Ok segment.new)
        (λ e. (b : Broken) × (text.read (segment_bits unit.now outer.now at) ≡ Err b)
        × (unit_fault e
        ≡ in_segment at (8 * (outer.now.body + 2 * end_before outer.now.entries.items at)) b)) }
    ensures coded { OnOk result (substream.new ≡ coded_after place.now substream.old segment.new) }
    ensures state { OnOk result (ForceFits place.now substream.new.force) }
    ensures played { OnOk result
        (HasPlayed place.now substream.old segment.new (length segment.new.codes.items) frames.old frames.new) }
{
    let bytes = segment_bytes(unit, outer, at);
    let known = known_by(is_last, substream.state(), check, covered, first);
    let checked = is_checked(&outer.entries, usize::from(at));
    match substream.take(place, &known, bytes, checked, segment, frames) {
        Ok(()) => Ok(()),
        Err(broken) => Err(in_unit(outer, at, broken)),
    }
}

/// Reads the segments of these substreams, of which there are one to three, and plays them. Each is read over
/// the latest segment of its substream.
pub fn read_each(
    place: &Place,
    check: u8,
    unit: &[u8],
    outer: &Outer,
    substreams: &mut [Substream],
    latest: &mut [Segment; 3],
    frames: &mut [[i32; 10]; 160],
) -> Result<(), SegmentFault>
    requires size { length unit.now ≤ 8190 }
    requires body { outer.now.body ≡ body_place (unit_with unit.now outer.now) }
    requires inside { HoldsSegments unit.now outer.now }
    requires some { 1 ≤ length substreams.old }
    requires few { length substreams.old ≤ 3 }
    requires exist { length substreams.old ≤ length outer.now.entries.items }
    requires place { IsPlace place.now }
    requires states { ForcesAre place.now substreams.old }
    requires covered { IsCovered (coded_at substreams.old (length substreams.old - 1)).force substreams.old }
    ensures read { (other : Segment) → let last = length substreams.old - 1 in
        let o = unit_with unit.now outer.now in
        let contents = segments (portion last place.now substreams.old check o) (last + 1) [] in
        MatchResult result
        (λ _. (ss : List Segment) × (contents.read (bits_of unit.now) ≡ Ok ss)
        × HasRead place.now substreams.old substreams.new ss (slice_index_or latest.new last other) frames.new)
        (λ e. contents.read (bits_of unit.now) ≡ Err (unit_fault e)) }
{
    let last = substreams.len() - 1;
    let mut covered = 0;
    let mut first: Option<Ending> = None;
    for at in 0..substreams.len() {
        let substream = &mut substreams[at];
        let segment = &mut latest[at];
        let is_last = at == last;
        read_next(
            place, check, unit, outer, at as u8, is_last, covered, first, substream, segment,
            frames,
        )?;
        covered = covered_with(covered, segment);
        first = ending_with(first, segment);
    }
    Ok(())
}
