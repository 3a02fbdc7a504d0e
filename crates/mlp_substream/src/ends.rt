//! Reading the end of a segment, and the rules on it. Source: the MLP substream syntax as publicly documented.
ghost use Rattle.std.specs.Prelude.{◌≡◌, ◌-◌, Ok, Err, MatchResult};
ghost use Rattle.mlp_syntax.specs.declared.fault.Field.TheVariants.{SegmentEnd};
ghost use Rattle.mlp_layout.specs.Reading.{Gives};
ghost use Rattle.mlp_layout.specs.Tails.{ending_read};
ghost use Rattle.mlp_substream.specs.Segment.{terminator, same_end, frames_fit, end_rules};

use crate::known::{Ending, Known};
use mlp_bits::BitReader;
use mlp_layout::{broken, word};
use mlp_syntax::{Broken, Field, Kind, Segment};

/// The second word of a terminator.
#[tactic(auto, unfolding(mlp_layout::specs::Layout::part, mlp_layout::specs::Layout::ruled, mlp_layout::specs::Combined::fixed, crate::specs::Segment::terminator))]
fn read_terminator(format: Kind, r: &mut BitReader) -> Result<u16, Broken>
    ensures { Gives (λ n. n) r.old r.new result ((terminator format).read r.old.all r.old.place) }
{
    let at = r.place();
    let first = word(16, r)?;
    if first != 0xD234 {
        return Err(broken(Field::Terminator, at));
    }
    let at = r.place();
    let second = word(16, r)?;
    if format == Kind::Fbb && second != 0xD234 {
        return Err(broken(Field::Terminator, at));
    }
    Ok(second)
}

/// The terminator, or none where no bits are left.
pub fn read_end(format: Kind, r: &mut BitReader) -> Result<Option<u16>, Broken>
    ensures { MatchResult result
        (λ t. ending_read SegmentEnd 32 (terminator format) (λ t. t) r.old.all r.old.place ≡ Ok t)
        (λ e. ending_read SegmentEnd 32 (terminator format) (λ t. t) r.old.all r.old.place ≡ Err e) }
{
    let left = r.left();
    if left == 0 {
        return Ok(None);
    }
    if left != 32 {
        return Err(broken(Field::SegmentEnd, r.place()));
    }
    let word = read_terminator(format, r)?;
    Ok(Some(word))
}

fn has_same_end(first: Option<Ending>, segment: &Segment) -> bool
    ensures { result ≡ same_end first segment.now }
{
    match first {
        None => true,
        Some(e) => {
            if segment.terminator.is_some() {
                e.terminator
            } else {
                !e.terminator
            }
        }
    }
}

fn frames_fit(first: Option<Ending>, unit_frames: u16, segment: &Segment) -> bool
    ensures { result ≡ frames_fit first unit_frames segment.now }
{
    let count = segment.codes.len();
    let whole = count == usize::from(unit_frames) || segment.terminator.is_some();
    match first {
        None => whole,
        Some(e) => whole && count == usize::from(e.frames),
    }
}

/// The first rule at the end of a segment that fails, and its place among so many bits.
#[tactic(auto, unfolding(crate::specs::Segment::end_rules))]
pub fn end_fault(
    known: &Known,
    unit_frames: u16,
    all: u32,
    segment: &Segment,
) -> Option<(Field, u32)>
    ensures { result ≡ end_rules known.now unit_frames all segment.now }
{
    if !has_same_end(known.first, segment) {
        let behind = if segment.terminator.is_some() { 32 } else { 0 };
        return Some((Field::TerminatorMixed, all.saturating_sub(behind)));
    }
    if !frames_fit(known.first, unit_frames, segment) {
        return Some((Field::FrameCount, 0));
    }
    None
}
