//! What the earlier segments of a unit, and earlier units, say of a segment.
ghost use Rattle.std.specs.Prelude.{◌≡◌, ◌+◌, ◌<◌, ◌^◌, ◌++◌, [], ◌∷◌, ◌&&◌, ◌||◌, nat_le, List, is_some, length, map, option_map, if◌then◌else◌};
ghost use Rattle.std.specs.List.{range_with_len};
ghost use Rattle.std.specs.Option.{option_copied};
ghost use Rattle.mlp_bits.specs.Bits.{bit};
ghost use Rattle.mlp_residual.specs.Frames.{packed};
ghost use Rattle.mlp_syntax.specs.declared.segment.Segment.{Segment};
ghost use Rattle.mlp_contents.specs.Known.{ending_of, first_restart, covered_by, known_by};

use mlp_params::State;
use mlp_substream::{Ending, Known};
use mlp_syntax::{BlockHead, Restart, Segment};

/// How a segment ends.
pub fn ending_of(segment: &Segment) -> Ending
    ensures { result ≡ record {
      frames = length segment.now.codes.items;
      terminator = is_some segment.now.terminator;
    } }
{
    Ending {
        frames: segment.codes.len() as u16,
        terminator: segment.terminator.is_some(),
    }
}

/// How substream 0 ends, whose segment this is unless one was read before.
pub fn ending_with(first: Option<Ending>, segment: &Segment) -> Option<Ending>
    ensures { (before : List Segment) → first ≡ ending_of before
        → result ≡ ending_of (before ++ segment.now ∷ []) }
{
    match first {
        None => Some(ending_of(segment)),
        Some(ending) => Some(ending),
    }
}

fn max_matrix(force: &Option<State>) -> Option<u8>
    ensures { result ≡ option_map (λ s. s.restart.max_matrix) force.now }
{
    match force {
        None => None,
        Some(state) => Some(state.restart.max_matrix),
    }
}

/// What is known of a segment before it is read.
pub fn known_by(
    is_last: bool,
    force: &Option<State>,
    check: u8,
    covered: u8,
    first: Option<Ending>,
) -> Known
    ensures { result ≡ known_by is_last force.now check covered first }
{
    let max_matrix = max_matrix(force);
    Known {
        max_matrix,
        covered: if is_last { Some(covered) } else { None },
        lossless: if is_last && max_matrix.is_some() {
            Some(check)
        } else {
            None
        },
        first,
    }
}

/// Whether a channel is one of these, or lies from `min` to `max`.
fn is_covered(covered: u8, min: u8, max: u8, channel: u8) -> bool
    requires { channel < 8 }
    ensures { result ≡ (bit covered channel || (nat_le min channel && nat_le channel max)) }
{
    (covered >> channel) % 2 == 1 || min <= channel && channel <= max
}

/// With the bit of a channel, behind those of the channels before it.
fn with_channel(channels: u8, channel: u8, covered: bool) -> u8
    requires place { channel < 8 }
    requires small { channels < 2 ^ channel }
    ensures value { result ≡ channels + (if covered then 2 ^ channel else 0) }
    ensures small { result < 2 ^ (channel + 1) }
{
    if covered {
        channels + (1 << channel)
    } else {
        channels
    }
}

/// These channels, and those from `min` to `max`.
fn with_range(covered: u8, min: u8, max: u8) -> u8
    ensures { result
        ≡ packed (map (λ c. bit covered c || (nat_le min c && nat_le c max)) (range_with_len 0 8)) }
{
    let mut channels = 0;
    for channel in 0..8u8 {
        let covered = is_covered(covered, min, max, channel);
        channels = with_channel(channels, channel, covered);
    }
    channels
}

/// The restart of the first block, if it has one.
fn first_restart(blocks: &[BlockHead]) -> Option<&Restart>
    ensures { option_copied result ≡ first_restart blocks.now }
{
    match blocks {
        [] => None,
        [head, ..] => head.restart.as_ref(),
    }
}

/// The channels that segments code, with those of one more.
pub fn covered_with(covered: u8, segment: &Segment) -> u8
    ensures { (before : List Segment) → covered ≡ covered_by before
        → result ≡ covered_by (before ++ segment.now ∷ []) }
{
    match first_restart(&segment.blocks) {
        None => covered,
        Some(restart) => with_range(covered, restart.min, restart.max),
    }
}
