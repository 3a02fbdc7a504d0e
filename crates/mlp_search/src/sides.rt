//! The two offsets that the filters on trial are weighed with.

ghost use Rattle.std.specs.Prelude.{◌≡◌, ℕ, ℤ, pos, neg_ℤ, List, ◌≤◌, ◌≤ℤ◌, ◌-ℤ◌, ◌*ℤ◌, ◌<◌, ◌+◌, ◌-◌, ◌*◌, ◌/◌, ◌^◌, length, map, true, unsigned_abs};
ghost use Rattle.mlp_params.specs.declared.state.ChannelState.{ChannelState};
ghost use Rattle.mlp_residual.specs.Coding.{symbols_of};
ghost use Rattle.mlp_search.specs.declared.choice.Choice.{Choice};
ghost use Rattle.mlp_search.specs.Cost.{is_offset, parameter_sum};
ghost use Rattle.mlp_search.specs.Folded.{folded, stepped, all_folded, top_of, all_symbol_bits, raised_sum};
ghost use Rattle.mlp_search.specs.Survey.{IsSurvey};
ghost use Rattle.mlp_search.specs.Trial.{Writes, IsTrial, IsSide, IsSmall, AreSides};

use crate::survey::Survey;
use crate::trial::Trial;
use mlp_params::ChannelState;

/// Values that are moved by an offset.
#[derive(Drop)]
pub struct Side {
    pub offset: i16,
    /// The greatest folded value.
    pub top: u64,
    /// How many bits it has.
    pub width: u8,
    /// No more than the bits of the parameters.
    pub base: u64,
    /// No more than the bits of parameters and codes in any of the three books, where all values have codes.
    pub least: u64,
}

/// No more than the bits of the parameters with an offset.
fn base_of(state: &ChannelState, trial: &Trial<'_>, offset: i16) -> u64
    requires { Writes state.now trial.now }
    ensures bits { (c : Choice) → c.filter ≡ trial.now.number → c.offset ≡ offset →
        result ≤ parameter_sum state.now trial.now.pair c }
    ensures few { result ≤ 65561 }
{
    if trial.stays {
        return 1;
    }
    let offset_bits = if offset == state.offset { 0 } else { 15 };
    11 + u64::from(trial.bits) + offset_bits
}

/// Twice a value that is moved by an offset.
fn twice_from(value: i32, offset: i16) -> i64
    ensures value { result ≡ pos 2 *ℤ (value -ℤ offset) }
    ensures few { unsigned_abs result ≤ 2 ^ 33 }
{
    2 * (i64::from(value) - i64::from(offset))
}

/// Twice how far a value that is moved by an offset is below 0, less 1.
fn under_twice(value: i32, offset: i16) -> i64
    ensures value { result ≡ neg_ℤ (pos 1) -ℤ pos 2 *ℤ (value -ℤ offset) }
    ensures few { unsigned_abs result ≤ 2 ^ 33 + 1 }
{
    -1 - twice_from(value, offset)
}

/// The greatest folded value: that of the greatest value, where that is positive, or that of the least, where that is
/// negative.
fn top_of(survey: &Survey, offset: i16) -> u64
    requires { survey.now.least ≤ℤ survey.now.greatest }
    ensures value { (vs : List ℤ) → IsSurvey vs survey.now → (length vs ≡ 0 → offset ≡ pos 0) →
        result ≡ top_of (all_folded offset vs) }
    ensures few { result < 2 ^ 34 }
{
    let above = twice_from(survey.greatest, offset);
    let below = under_twice(survey.least, offset);
    above.max(below).cast_unsigned()
}

/// How many bits a number has.
fn width_of(top: u64) -> u8
    requires { top < 2 ^ 34 }
    ensures under { 2 ^ result ≤ 2 * top + 1 }
    ensures few { result ≤ 64 }
{
    (64 - top.leading_zeros()) as u8
}

/// A sum that gains `far` for some values and loses it for others, or 0.
fn moved_sum(sum: u64, far: u64, gaining: u64, losing: u64) -> u64
    requires sum { sum ≤ 4026531840 }
    requires far { far ≤ 131072 }
    requires gaining { gaining ≤ 320 }
    requires losing { losing ≤ 320 }
    ensures value { result ≡ sum + far * gaining - far * losing }
    ensures few { result < 2 ^ 32 }
{
    (sum + far * gaining).saturating_sub(far * losing)
}

/// No more than the sum of the folded values, each raised by 1. Those are at least twice their sizes, and an offset takes
/// no more from those on its side of 0 than it adds to those on the other.
fn sum_of(survey: &Survey, values: &[i32], offset: i16) -> u64
    requires few { length values.now ≤ 160 }
    requires survey { IsSurvey values.now survey.now }
    ensures value { result ≤ raised_sum (all_folded offset values.now) }
    ensures few { result < 2 ^ 32 }
{
    let sum = 2 * u64::from(survey.sizes);
    let count = values.len() as u64;
    let negatives = u64::from(survey.negatives);
    let far = 2 * u64::from(offset.unsigned_abs());
    if offset == 0 {
        return sum + count.saturating_sub(negatives);
    }
    if offset < 0 {
        return moved_sum(sum, far, count, 2 * negatives);
    }
    moved_sum(sum, far, 2 * negatives, count)
}

/// No more than twice the bits of `count` codes, where the folded values, each raised by 1, have at least this sum: by a
/// power, by 1 more and by 2 more. It is that of the low bits of books 2 and 3, or 1 more than of those of book 1.
fn least_twice(sum: u64, count: u64, power: u64) -> u64
    requires sum { sum < 2 ^ 32 }
    requires few { count ≤ 160 }
    requires power { power ≤ 60 }
    ensures first { result ≤ (2 * power + 1) * count + sum / 2 ^ power }
    ensures second { result ≤ (2 * (power + 1) + 1) * count + sum / 2 ^ (power + 1) }
    ensures third { result ≤ (2 * (power + 2) + 1) * count + sum / 2 ^ (power + 2) }
    ensures few { result < 2 ^ 33 }
{
    let whole = sum >> power;
    let first = (2 * power + 1) * count;
    let second = first + 2 * count;
    let third = first + 4 * count;
    (first + whole)
        .min(second + whole / 2)
        .min(third + whole / 4)
}

/// No more than the bits of `count` codes in any of the three books, by the width of the greatest folded value: they are
/// as many as without a book, or their power is one of three.
fn least_bits(sum: u64, count: u64, width: u8) -> u64
    requires sum { sum < 2 ^ 32 }
    requires few { count ≤ 160 }
    requires width { width ≤ 64 }
    ensures value { (book b : ℕ) (us : List ℕ) → 0 < book → length us ≡ count → sum ≤ raised_sum us →
        2 ^ width ≤ 2 * top_of us + 1 → top_of us / 2 ^ b < symbols_of book →
        result ≤ length us * b + all_symbol_bits book b us }
    ensures few { result < 2 ^ 33 }
{
    let power = u64::from(width).saturating_sub(4);
    let twice = least_twice(sum, count, power);
    let uncoded = count * u64::from(width);
    uncoded.min((twice + 1) / 2)
}

/// The values moved by an offset.
#[inline(always)]
pub(crate) fn side_of(
    state: &ChannelState,
    step: u8,
    trial: &Trial<'_>,
    values: &[i32],
    offset: i16,
) -> Side
    requires few { length values.now ≤ 160 }
    requires writes { Writes state.now trial.now }
    requires survey { IsSurvey values.now trial.now.survey }
    requires offset { is_offset step (map (stepped step) values.now) offset ≡ true }
    ensures side { IsSide state.now step trial.now values.now result }
    ensures offset { result.offset ≡ offset }
    ensures small { IsSmall result }
{
    let top = top_of(&trial.survey, offset);
    let width = width_of(top);
    let sum = sum_of(&trial.survey, values, offset);
    let base = base_of(state, trial, offset);
    let codes = least_bits(sum, values.len() as u64, width);
    Side {
        offset,
        top,
        width,
        base,
        least: base + codes,
    }
}

/// The values moved by 0, and by their middle.
#[derive(Drop)]
pub struct Sides {
    pub zero: Side,
    pub middle: Side,
}

/// Both.
#[inline(always)]
pub(crate) fn sides_of(state: &ChannelState, step: u8, trial: &Trial<'_>, values: &[i32]) -> Sides
    requires trial { IsTrial state.now 0 values.now trial.now }
    requires few { length values.now ≤ 160 }
    ensures { AreSides state.now step trial.now values.now result }
{
    Sides {
        zero: side_of(state, step, trial, values, 0),
        middle: side_of(state, step, trial, values, trial.middle),
    }
}
