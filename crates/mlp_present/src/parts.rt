//! The parts of taking a unit: its outer part, whether it tells the presentation, and what it contains.
ghost use Rattle.std.specs.Option.{option_copied};
ghost use Rattle.std.specs.Prelude.{◌≡◌, ◌≤◌, ◌<◌, [], take, length, Err, IfOk, IfSome, OnErr, MatchResult};
ghost use Rattle.mlp_bits.specs.Bits.{bits_of};
ghost use Rattle.mlp_major.specs.MajorSync.{IsUsable};
ghost use Rattle.mlp_unit.specs.AccessUnit.{substreams_of};
ghost use Rattle.mlp_unit.specs.Shape.{unit_with, body_place, HasCount, HoldsSegments};
ghost use Rattle.mlp_walk.specs.Next.{fault_of};
ghost use Rattle.mlp_contents.specs.Inner.{unit_fault};
ghost use Rattle.mlp_present.specs.Decoding.{timing_by};
ghost use Rattle.mlp_present.specs.Parts.{HasOuter, BreaksOuter, is_missing, presentations_of, IsReady, BreaksInside, TakesInside, next_behind, TakesUnit};

use arrayvec::ArrayVec;
use mlp_contents::{SegmentFault, Substreams};
use mlp_layout::broken;
use mlp_outline::{next_outer, outer_refusal};
use mlp_syntax::{Fault, Field, MajorSync, Outer};
use mlp_walk::Refusal;

/// The next unit's length in bytes and its outer part, behind so many units.
fn outer_behind(
    ended: bool,
    number: u64,
    first: Option<&MajorSync>,
    next: &[u8],
) -> Result<(usize, Outer), Refusal>
    requires few { substreams_of (option_copied first) ≤ 4 }
    ensures { MatchResult result
        (λ x. HasOuter ended (option_copied first.entry) next.now x.0 x.1)
        (BreaksOuter ended number (option_copied first.entry) next.now) }
{
    if ended {
        return Err(outer_refusal(number, broken(Field::AfterEnd, 0)));
    }
    match next_outer(next, first) {
        Ok(taken) => Ok(taken),
        Err(broken) => Err(outer_refusal(number, broken)),
    }
}

/// The number of presentations that a first unit with this major sync tells: a fourth substream has none of its own.
fn presentations(major: &Option<MajorSync>) -> u8
    ensures { result ≡ presentations_of major.now }
{
    match major {
        None => 0,
        Some(sync) => sync.substreams.min(3),
    }
}

/// Whether this is the first unit and doesn't tell presentation `k`.
fn is_missing(number: u64, have: u8, k: u8) -> bool
    ensures { result ≡ is_missing number have k }
{
    number == 0 && have <= k
}

/// The fault of what the unit of this number contains.
fn inside_refusal(number: u64, fault: SegmentFault) -> Refusal
    ensures { result ≡ Refusal.Fault (fault_of number (unit_fault fault)) }
{
    Refusal::Fault(Fault {
        unit: number,
        substream: fault.substream,
        field: fault.field,
        bit: fault.bit,
    })
}

/// Takes what a unit contains, whose outer part was read, and puts its frames into `out`.
fn take_inside(
    number: u64,
    first: Option<&MajorSync>,
    unit: &[u8],
    outer: &Outer,
    substreams: &mut Substreams,
    out: &mut ArrayVec<[i32; 8], 160>,
) -> Result<(), Refusal>
    requires ready { IsReady number (option_copied first) substreams.old }
    requires size { length unit.now ≤ 8190 }
    requires body { outer.now.body ≡ body_place (unit_with unit.now outer.now) }
    requires count { HasCount (option_copied first) outer.now }
    requires inside { HoldsSegments unit.now outer.now }
    requires usable { IfSome outer.now.major IsUsable }
    ensures taken { let sync = option_copied first.entry in let o = unit_with unit.now outer.now in
        MatchResult result
        (λ _. TakesInside number sync o (bits_of unit.now) substreams.old substreams.new out.new.items)
        (BreaksInside number sync substreams.old o (bits_of unit.now)) }
    ensures last { substreams.new.last ≡ substreams.old.last }
{
    let have = presentations(&outer.major);
    if is_missing(number, have, substreams.last()) {
        return Err(Refusal::NoPresentation { have });
    }
    match substreams.take(first, unit, outer, out) {
        Ok(()) => Ok(()),
        Err(fault) => Err(inside_refusal(number, fault)),
    }
}

/// Takes the next unit, puts its frames into `out`, and answers its length in bytes and its outer part.
pub fn take_next(
    number: u64,
    first: Option<&MajorSync>,
    substreams: &mut Substreams,
    next: &[u8],
    out: &mut ArrayVec<[i32; 8], 160>,
) -> Result<(usize, Outer), Refusal>
    requires ready { IsReady number (option_copied first) substreams.old }
    ensures taken { let sync = option_copied first.entry in
        MatchResult result
        (λ x. TakesUnit number sync next.now x.0 (unit_with (take x.0 next.now) x.1)
        substreams.old substreams.new out.new.items)
        (λ refusal. next_behind number sync substreams.old next.now ≡ Err refusal) }
    ensures outer { IfOk result (λ x. HasOuter substreams.old.ended (option_copied first.entry) next.now x.0 x.1) }
    ensures last { substreams.new.last ≡ substreams.old.last }
{
    let (size, outer) = outer_behind(substreams.ended(), number, first, next)?;
    take_inside(number, first, &next[..size], &outer, substreams, out)?;
    Ok((size, outer))
}

/// The output timing of substream 0's restart in the latest unit, if its major sync is this.
pub fn timing_of(major: &Option<MajorSync>, substreams: &Substreams) -> Option<u16>
    ensures { result ≡ timing_by major.now substreams.now.substreams }
{
    if major.is_none() {
        return None;
    }
    substreams.output_timing()
}
