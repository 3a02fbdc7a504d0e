//! The choices of the filters on trial, one after the other.

ghost use Rattle.std.specs.Prelude.{◌≡◌, ℕ, List, ◌≤◌, ◌<◌, ◌-◌, ◌*◌, ◌/◌, ◌^◌, ◌+◌, length, map, All, FitsSigned, true, Some, IfSome};
ghost use Rattle.std.specs.Int.{w32};
ghost use Rattle.std.specs.List.{flat_map, range_with_len};
ghost use Rattle.mlp_residual.specs.Coding.{symbols_of};
ghost use Rattle.mlp_search.specs.Cost.{in_range, is_offset, most_low, cost_over};
ghost use Rattle.mlp_search.specs.Folded.{stepped, symbol_bits, all_folded, top_of};
ghost use Rattle.mlp_search.specs.Least.{is_better, better, least_from, choice_of, with_offsets, with_lows, with_books};
ghost use Rattle.mlp_search.specs.Tally.{IsTally, AreTallies};
ghost use Rattle.mlp_search.specs.Trial.{Writes, IsTrial, IsFewest, IsSide, IsSmall, AreSides};

use crate::choice::Choice;
use crate::costs::{most_low, parameter_sum};
use crate::sides::{Side, Sides, sides_of};
use crate::tally::{Tallies, Tally, fewest, symbols, tally_side};
use crate::trial::Trial;
use mlp_params::ChannelState;

/// Whether a choice that costs so much comes in the place of the best so far.
pub(crate) fn is_better(bits: u64, best: Option<Choice>) -> bool
    ensures { result ≡ is_better bits best }
{
    match best {
        Some(choice) => bits < choice.bits,
        None => true,
    }
}

/// The best so far, with one choice more, which may have no cost.
fn better(best: Option<Choice>, choice: Choice, cost: Option<u64>) -> Option<Choice>
    ensures { result ≡ better best choice cost }
{
    let Some(bits) = cost else {
        return best;
    };
    if is_better(bits, best) {
        Some(Choice { bits, ..choice })
    } else {
        best
    }
}

/// How many symbols a book has.
fn symbols_of(book: u8) -> u64
    requires { book ≤ 3 }
    ensures { result ≡ symbols_of book }
{
    match book {
        0 => 1,
        1 => 18,
        2 => 16,
        _ => 15,
    }
}

pub(crate) fn choice_of(filter: u8, book: u8, low: u8, offset: i16) -> Choice
    ensures { result ≡ choice_of filter book low offset }
{
    Choice {
        filter,
        book,
        low,
        offset,
        bits: 0,
    }
}

/// What a choice costs that has a code for each value.
#[inline(always)]
fn cost_with_codes(
    state: &ChannelState,
    step: u8,
    trial: &Trial<'_>,
    tally: &Option<Tally>,
    values: &[i32],
    choice: &Choice,
) -> u64
    requires step { step ≤ 8 }
    requires writes { Writes state.now trial.now }
    requires few { length values.now ≤ 160 }
    requires words { All (FitsSigned w32) (map (stepped step) values.now) }
    requires number { choice.now.filter ≡ trial.now.number }
    requires range { in_range step true choice.now ≡ true }
    requires offset { is_offset step (map (stepped step) values.now) choice.now.offset ≡ true }
    requires codes { let c = choice.now in
        top_of (all_folded c.offset values.now) / 2 ^ (c.low - step) < symbols_of c.book }
    requires tally { IfSome tally.now (λ t. IsTally choice.now.offset values.now t) }
    ensures { Some result
        ≡ cost_over state.now step true trial.now.pair (map (stepped step) values.now) choice.now }
{
    let b = choice.low - step;
    let low_bits = values.len() as u64 * u64::from(b);
    let symbol_bits = symbols(tally, choice.book, values, choice.offset, b);
    parameter_sum(state, trial, choice) + (low_bits + symbol_bits)
}

/// The best so far, with one choice more of the filters on trial.
#[inline(always)]
fn tried(
    state: &ChannelState,
    step: u8,
    trial: &Trial<'_>,
    side: &Side,
    tally: &Option<Tally>,
    values: &[i32],
    best: Option<Choice>,
    book: u8,
    low: u8,
) -> Option<Choice>
    requires step { step ≤ 8 }
    requires writes { Writes state.now trial.now }
    requires few { length values.now ≤ 160 }
    requires words { All (FitsSigned w32) (map (stepped step) values.now) }
    requires side { IsSide state.now step trial.now values.now side.now }
    requires small { IsSmall side.now }
    requires tally { IfSome tally.now (λ t. IsTally side.now.offset values.now t) }
    requires book { book ≤ 3 }
    requires from { step ≤ low }
    requires most { low ≤ most_low book }
    ensures { let c = choice_of trial.now.number book low side.now.offset in result
        ≡ better best c
        (cost_over state.now step true trial.now.pair (map (stepped step) values.now) c) }
{
    if book > 0 {
        if !is_better(side.least, best) {
            return best;
        }
    }
    if side.top >> (low - step) >= symbols_of(book) {
        return best;
    }
    let choice = choice_of(trial.number, book, low, side.offset);
    let bits = cost_with_codes(state, step, trial, tally, values, &choice);
    better(best, choice, Some(bits))
}

/// The best so far, with the choices of a book and low bits.
#[inline(always)]
fn with_offsets(
    state: &ChannelState,
    step: u8,
    trial: &Trial<'_>,
    sides: &Sides,
    tallies: &Tallies,
    values: &[i32],
    best: Option<Choice>,
    book: u8,
    low: u8,
) -> Option<Choice>
    requires step { step ≤ 8 }
    requires writes { Writes state.now trial.now }
    requires few { length values.now ≤ 160 }
    requires words { All (FitsSigned w32) (map (stepped step) values.now) }
    requires sides { AreSides state.now step trial.now values.now sides.now }
    requires tallies { AreTallies values.now sides.now tallies.now }
    requires book { book ≤ 3 }
    requires from { step ≤ low }
    requires most { low ≤ most_low book }
    ensures { let t = trial.now in result
        ≡ least_from (cost_over state.now step true t.pair (map (stepped step) values.now)) best
        (with_offsets t.number t.middle book low) }
{
    let first = tried(
        state,
        step,
        trial,
        &sides.zero,
        &tallies.zero,
        values,
        best,
        book,
        low,
    );
    tried(
        state,
        step,
        trial,
        &sides.middle,
        &tallies.middle,
        values,
        first,
        book,
        low,
    )
}

/// Fewer low bits than these leave some value without a code.
fn first_low(step: u8, sides: &Sides, book: u8) -> u8
    requires step { step ≤ 8 }
    requires zero { 2 ^ sides.now.zero.width ≤ 2 * sides.now.zero.top + 1 }
    requires middle { 2 ^ sides.now.middle.width ≤ 2 * sides.now.middle.top + 1 }
    requires few { sides.now.zero.width ≤ 64 }
    requires book { book ≤ 3 }
    ensures from { step ≤ result }
    ensures most { result ≤ most_low book + 1 }
    ensures none { (b : ℕ) → step + b < result →
        (symbols_of book ≤ sides.now.zero.top / 2 ^ b) × (symbols_of book ≤ sides.now.middle.top / 2 ^ b) }
{
    let width = sides.zero.width.min(sides.middle.width);
    let fewest = match book {
        0 => width,
        1 => width.saturating_sub(5),
        _ => width.saturating_sub(4),
    };
    (step + fewest).min(most_low(book) + 1)
}

/// No more than the bits of any symbol of a book.
fn least_symbol_bits(book: u8) -> u64
    requires { book ≤ 3 }
    ensures least { (p : ℕ) → result ≤ symbol_bits book p }
    ensures few { result ≤ 3 }
{
    match book {
        0 => 0,
        1 => 3,
        2 => 2,
        _ => 1,
    }
}

/// The best so far, with the choices of a book.
#[inline(always)]
fn with_lows(
    state: &ChannelState,
    step: u8,
    trial: &Trial<'_>,
    sides: &Sides,
    tallies: &Tallies,
    values: &[i32],
    mut best: Option<Choice>,
    book: u8,
) -> Option<Choice>
    requires step { step ≤ 8 }
    requires writes { Writes state.now trial.now }
    requires few { length values.now ≤ 160 }
    requires words { All (FitsSigned w32) (map (stepped step) values.now) }
    requires sides { AreSides state.now step trial.now values.now sides.now }
    requires tallies { AreTallies values.now sides.now tallies.now }
    requires book { book ≤ 3 }
    ensures { let t = trial.now in result
        ≡ least_from (cost_over state.now step true t.pair (map (stepped step) values.now)) best
        (with_lows t.number t.middle book) }
{
    let base = sides.zero.base.min(sides.middle.base);
    let symbol = least_symbol_bits(book);
    for low in first_low(step, sides, book)..most_low(book) + 1 {
        let each = u64::from(low - step) + symbol;
        if !is_better(base + values.len() as u64 * each, best) {
            return best;
        }
        best = with_offsets(state, step, trial, sides, tallies, values, best, book, low);
    }
    best
}

/// No more than the bits of parameters and codes in any of the three books, by a tally.
fn counted_least(side: &Side, tally: &Tally, values: &[i32]) -> u64
    requires few { length values.now ≤ 160 }
    requires base { side.now.base ≤ 65561 }
    requires top { side.now.top ≡ top_of (all_folded side.now.offset values.now) }
    requires under { 2 ^ side.now.width ≤ 2 * side.now.top + 1 }
    requires tally { IsTally side.now.offset values.now tally.now }
    requires low { tally.now.low ≡ side.now.width - 4 }
    ensures { IsFewest values.now side.now result }
{
    let count = values.len() as u64;
    let uncoded = count * u64::from(side.width);
    side.base + uncoded.min(fewest(tally, count))
}

/// The same side, with another bound for the three books.
#[inline(always)]
fn with_least(side: &Side, least: u64) -> Side
    ensures { result ≡ record side.now { least = least } }
{
    Side {
        offset: side.offset,
        top: side.top,
        width: side.width,
        base: side.base,
        least,
    }
}

/// No more than the bits of parameters and codes in any of the three books.
fn side_least(side: &Side, tally: &Option<Tally>, values: &[i32]) -> u64
    requires few { length values.now ≤ 160 }
    requires base { side.now.base ≤ 65561 }
    requires top { side.now.top ≡ top_of (all_folded side.now.offset values.now) }
    requires under { 2 ^ side.now.width ≤ 2 * side.now.top + 1 }
    requires least { IsFewest values.now side.now side.now.least }
    requires tally { IfSome tally.now (λ t. IsTally side.now.offset values.now t) }
    requires low { IfSome tally.now (λ t. t.low ≡ side.now.width - 4) }
    ensures { IsFewest values.now side.now result }
{
    match tally {
        Some(tally) => counted_least(side, tally, values),
        None => side.least,
    }
}

/// The best so far, with the choices of the three books, by counts of all values.
#[inline(always)]
fn with_counted(
    state: &ChannelState,
    step: u8,
    trial: &Trial<'_>,
    sides: &Sides,
    values: &[i32],
    mut best: Option<Choice>,
) -> Option<Choice>
    requires step { step ≤ 8 }
    requires writes { Writes state.now trial.now }
    requires few { length values.now ≤ 160 }
    requires words { All (FitsSigned w32) (map (stepped step) values.now) }
    requires sides { AreSides state.now step trial.now values.now sides.now }
    ensures { let t = trial.now in result
        ≡ least_from (cost_over state.now step true t.pair (map (stepped step) values.now)) best
        (flat_map (with_lows t.number t.middle) (range_with_len 1 3)) }
{
    let tallies = Tallies {
        zero: tally_side(values, &sides.zero, is_better(sides.zero.least, best)),
        middle: tally_side(values, &sides.middle, is_better(sides.middle.least, best)),
    };
    let zero = side_least(&sides.zero, &tallies.zero, values);
    let middle = side_least(&sides.middle, &tallies.middle, values);
    if !is_better(zero.min(middle), best) {
        return best;
    }
    let counted = Sides {
        zero: with_least(&sides.zero, zero),
        middle: with_least(&sides.middle, middle),
    };
    for book in 1..4 {
        best = with_lows(state, step, trial, &counted, &tallies, values, best, book);
    }
    best
}

/// The best so far, with the choices of the three books.
#[inline(always)]
fn with_codebooks(
    state: &ChannelState,
    step: u8,
    trial: &Trial<'_>,
    sides: &Sides,
    values: &[i32],
    best: Option<Choice>,
) -> Option<Choice>
    requires step { step ≤ 8 }
    requires writes { Writes state.now trial.now }
    requires few { length values.now ≤ 160 }
    requires words { All (FitsSigned w32) (map (stepped step) values.now) }
    requires sides { AreSides state.now step trial.now values.now sides.now }
    ensures { let t = trial.now in result
        ≡ least_from (cost_over state.now step true t.pair (map (stepped step) values.now)) best
        (flat_map (with_lows t.number t.middle) (range_with_len 1 3)) }
{
    if !is_better(sides.zero.least.min(sides.middle.least), best) {
        return best;
    }
    with_counted(state, step, trial, sides, values, best)
}

/// The best so far, with the choices of the filters on trial.
#[inline(always)]
pub(crate) fn with_books(
    state: &ChannelState,
    step: u8,
    trial: &Trial<'_>,
    values: &[i32],
    best: Option<Choice>,
) -> Option<Choice>
    requires step { step ≤ 8 }
    requires trial { IsTrial state.now 0 values.now trial.now }
    requires few { length values.now ≤ 160 }
    requires words { All (FitsSigned w32) (map (stepped step) values.now) }
    ensures { let t = trial.now in result
        ≡ least_from (cost_over state.now step true t.pair (map (stepped step) values.now)) best
        (with_books t.number t.middle) }
{
    let sides = sides_of(state, step, trial, values);
    let none = Tallies {
        zero: None,
        middle: None,
    };
    let uncoded = with_lows(state, step, trial, &sides, &none, values, best, 0);
    with_codebooks(state, step, trial, &sides, values, uncoded)
}
