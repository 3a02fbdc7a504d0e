//! Reading what a unit contains, and the frames that it gives.
ghost use Rattle.std.specs.Prelude.{◌≡◌, ◌+◌, ◌-◌, ◌<◌, ◌≤◌, ◌^◌, [], ℕ, List, Ok, Err, OnErr, MatchResult, length};
ghost use Rattle.mlp_syntax.specs.declared.segment.Segment.{Segment};
ghost use Rattle.mlp_bits.specs.Bits.{bits_of};
ghost use Rattle.mlp_layout.specs.Contents.{segments};
ghost use Rattle.mlp_unit.specs.Shape.{body_place, unit_with, HoldsSegments};
ghost use Rattle.mlp_substream.specs.Blocks.{IsPlace};
ghost use Rattle.mlp_output.specs.Output.{folded};
ghost use Rattle.mlp_contents.specs.Units.{coded_at, portion};
ghost use Rattle.mlp_contents.specs.Inner.{unit_fault, IsCovered};
ghost use Rattle.mlp_contents.specs.Read.{ForcesAre, Running, HasTakenContents};

use crate::fault::SegmentFault;
use crate::give::give;
use crate::known::ending_of;
use crate::reading::read_each;
use arrayvec::ArrayVec;
use mlp_channels::Substream;
use mlp_matrix::Noise;
use mlp_output::folded;
use mlp_substream::Place;
use mlp_syntax::{Outer, Segment};

/// Reads the segments of these substreams, and puts the frames that the last of them gives into `rows`.
pub fn take_contents(
    place: &Place,
    unit: &[u8],
    outer: &Outer,
    substreams: &mut [Substream],
    ended: &mut bool,
    noise: &mut Noise,
    check: &mut u32,
    latest: &mut [Segment; 3],
    frames: &mut [[i32; 10]; 160],
    rows: &mut ArrayVec<[i32; 8], 160>,
) -> Result<(), SegmentFault>
    requires size { length unit.now ≤ 8190 }
    requires body { outer.now.body ≡ body_place (unit_with unit.now outer.now) }
    requires inside { HoldsSegments unit.now outer.now }
    requires some { 1 ≤ length substreams.old }
    requires few { length substreams.old ≤ 3 }
    requires exist { length substreams.old ≤ length outer.now.entries.items }
    requires place { IsPlace place.now }
    requires states { ForcesAre place.now substreams.old }
    requires covered { IsCovered (coded_at substreams.old (length substreams.old - 1)).force substreams.old }
    requires seed { noise.old.seed < 2 ^ 23 }
    ensures taken { let last = length substreams.old - 1 in
        let o = unit_with unit.now outer.now in
        let contents = segments (portion last place.now substreams.old (folded check.old) o) (last + 1) [] in
        MatchResult result
        (λ _. (ss : List Segment) × (contents.read (bits_of unit.now) ≡ Ok ss)
        × HasTakenContents place.now ss substreams.old substreams.new ended.new
        (record { seed = noise.old.seed; check = check.old })
        (record { seed = noise.new.seed; check = check.new }) rows.new.items)
        (λ e. contents.read (bits_of unit.now) ≡ Err (unit_fault e)) }
    ensures seed { noise.new.seed < 2 ^ 23 }
    ensures none { OnErr result (rows.new.items ≡ []) }
{
    match read_each(
        place,
        folded(*check),
        unit,
        outer,
        substreams,
        latest,
        frames,
    ) {
        Ok(()) => {
            let at = substreams.len() - 1;
            let last = &substreams[at];
            let segment = &latest[at];
            *ended = ending_of(segment).terminator;
            give(place, last.state(), segment, noise, check, frames, rows);
            Ok(())
        }
        Err(fault) => {
            rows.clear();
            Err(fault)
        }
    }
}
