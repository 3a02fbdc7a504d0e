//! The choice for a block.

ghost use Rattle.std.specs.Prelude.{◌≡◌, ◌≤◌, ◌<◌, ◌*◌, ◌+◌, length, map, All, FitsSigned, IsTrue, true, false, Some, None, if◌then◌else◌};
ghost use Rattle.std.specs.Int.{w32};
ghost use Rattle.std.specs.List.{flat_map, range_with_len};
ghost use Rattle.mlp_arith.specs.Words.{clear};
ghost use Rattle.mlp_arith.specs.Ranges.{Is26};
ghost use Rattle.mlp_params.specs.Filters.{order_of};
ghost use Rattle.mlp_params.specs.States.{IsChannelState};
ghost use Rattle.mlp_search.specs.Candidates.{AreComputed, pair_of, middle_of};
ghost use Rattle.mlp_search.specs.Given.{IsPair};
ghost use Rattle.mlp_search.specs.Cost.{cost_over, cost_of};
ghost use Rattle.mlp_search.specs.Folded.{stepped};
ghost use Rattle.mlp_search.specs.Lines.{IsIn};
ghost use Rattle.mlp_search.specs.Least.{IsWithinFirst, is_better, least_from, with_books, middle_for, chosen, IsLeast};
ghost use Rattle.mlp_search.specs.Trial.{IsWriting};

use crate::choice::Choice;
use crate::line::{Line, far_of, put_line};
use crate::pair::{PairRef, in_table, without};
use crate::reduction::values_for;
use crate::trial::{Writing, trial_of, writing_of};
use crate::weighing::{choice_of, is_better, with_books};
use arrayvec::ArrayVec;
use mlp_levinson::levinson_all;
use mlp_params::ChannelState;
use mlp_predict::Predictor;
use mlp_syntax::Filter;

/// Whether the filters of a number, which write this, leave the best so far as it is: they write nothing, as filter 0,
/// or too many bits.
#[inline(always)]
fn is_hopeless(number: u8, writing: &Writing, best: Option<Choice>) -> bool
    ensures stays { IsTrue result → writing.now.stays ≡ true → 1 ≤ number }
    ensures bits { IsTrue result → writing.now.stays ≡ false →
        is_better (11 + writing.now.bits) best ≡ false }
{
    if writing.stays {
        return number > 0;
    }
    !is_better(11 + u64::from(writing.bits), best)
}

/// The best so far, with the choices of the filters of a number, which leave these values.
#[inline(never)]
fn with_values(
    state: &ChannelState,
    step: u8,
    number: u8,
    pair: PairRef<'_>,
    writing: &Writing,
    values: &[i32],
    best: Option<Choice>,
) -> Option<Choice>
    requires step { step ≤ 8 }
    requires pair { IsPair pair }
    requires writing { IsWriting state.now number pair writing.now }
    requires few { length values.now ≤ 160 }
    requires words { All (FitsSigned w32) (map (stepped step) values.now) }
    ensures { let rs = map (stepped step) values.now in result
        ≡ least_from (cost_over state.now step true pair.entry rs) best
        (with_books number (middle_of 0 values.now)) }
{
    let trial = trial_of(0, number, pair, writing, values);
    with_books(state, step, &trial, values, best)
}

/// The best so far, with the choices of the filters of a number.
#[inline(always)]
fn with_filters(
    state: &ChannelState,
    history: &Predictor<8, 4>,
    step: u8,
    number: u8,
    pair: PairRef<'_>,
    samples: &[i32],
    line: &Line<'_>,
    values: &mut [i32],
    best: Option<Choice>,
) -> Option<Choice>
    requires state { IsChannelState state.now }
    requires step { step ≤ 8 }
    requires few { length samples.now ≤ 160 }
    requires samples { All Is26 samples.now }
    requires whole { All (λ x. clear step x ≡ x) samples.now }
    requires pair { pair_of state.now step samples.now number ≡ Some pair }
    requires first { 1 ≤ number →
        IsWithinFirst (cost_of state.now history.now step true samples.now) best }
    requires line { IsTrue line.now.narrow → IsIn step history.now samples.now line.now }
    requires room { length samples.now ≡ length values.old }
    ensures { let mid = middle_for state.now history.now step samples.now number in result
        ≡ least_from (cost_of state.now history.now step true samples.now) best
        (with_books number mid) }
{
    let writing = writing_of(state, number, &pair);
    if is_hopeless(number, &writing, best) {
        return best;
    }
    if !values_for(history, step, number, &pair, samples, line, values) {
        return best;
    }
    with_values(state, step, number, pair, &writing, values, best)
}

/// The best so far, with the choices of filter `N` of the table.
#[inline(always)]
fn with_entry<const N: u8>(
    state: &ChannelState,
    history: &Predictor<8, 4>,
    step: u8,
    samples: &[i32],
    line: &Line<'_>,
    values: &mut [i32],
    best: Option<Choice>,
) -> Option<Choice>
    requires least { 1 ≤ N }
    requires most { N ≤ 9 }
    requires state { IsChannelState state.now }
    requires step { step ≤ 8 }
    requires few { length samples.now ≤ 160 }
    requires samples { All Is26 samples.now }
    requires whole { All (λ x. clear step x ≡ x) samples.now }
    requires first { IsWithinFirst (cost_of state.now history.now step true samples.now) best }
    requires line { IsTrue line.now.narrow → IsIn step history.now samples.now line.now }
    requires room { length samples.now ≡ length values.old }
    ensures { let mid = middle_for state.now history.now step samples.now N in result
        ≡ least_from (cost_of state.now history.now step true samples.now) best (with_books N mid) }
{
    let pair = in_table(N);
    with_filters(
        state,
        history,
        step,
        N,
        pair.view(),
        samples,
        line,
        values,
        best,
    )
}

/// The best so far, with the choices of a filter of the table: each is compiled by itself.
#[inline(always)]
fn with_any_entry(
    state: &ChannelState,
    history: &Predictor<8, 4>,
    step: u8,
    number: u8,
    samples: &[i32],
    line: &Line<'_>,
    values: &mut [i32],
    best: Option<Choice>,
) -> Option<Choice>
    requires least { 1 ≤ number }
    requires most { number ≤ 9 }
    requires state { IsChannelState state.now }
    requires step { step ≤ 8 }
    requires few { length samples.now ≤ 160 }
    requires samples { All Is26 samples.now }
    requires whole { All (λ x. clear step x ≡ x) samples.now }
    requires first { IsWithinFirst (cost_of state.now history.now step true samples.now) best }
    requires line { IsTrue line.now.narrow → IsIn step history.now samples.now line.now }
    requires room { length samples.now ≡ length values.old }
    ensures { let mid = middle_for state.now history.now step samples.now number in result
        ≡ least_from (cost_of state.now history.now step true samples.now) best
        (with_books number mid) }
{
    match number {
        1 => with_entry::<1>(state, history, step, samples, line, values, best),
        2 => with_entry::<2>(state, history, step, samples, line, values, best),
        3 => with_entry::<3>(state, history, step, samples, line, values, best),
        4 => with_entry::<4>(state, history, step, samples, line, values, best),
        5 => with_entry::<5>(state, history, step, samples, line, values, best),
        6 => with_entry::<6>(state, history, step, samples, line, values, best),
        7 => with_entry::<7>(state, history, step, samples, line, values, best),
        8 => with_entry::<8>(state, history, step, samples, line, values, best),
        _ => with_entry::<9>(state, history, step, samples, line, values, best),
    }
}

/// The best so far, with the choices of the filters of the table.
fn with_table(
    state: &ChannelState,
    history: &Predictor<8, 4>,
    step: u8,
    samples: &[i32],
    line: &Line<'_>,
    values: &mut [i32],
    mut best: Option<Choice>,
) -> Option<Choice>
    requires state { IsChannelState state.now }
    requires step { step ≤ 8 }
    requires few { length samples.now ≤ 160 }
    requires samples { All Is26 samples.now }
    requires whole { All (λ x. clear step x ≡ x) samples.now }
    requires first { IsWithinFirst (cost_of state.now history.now step true samples.now) best }
    requires line { IsTrue line.now.narrow → IsIn step history.now samples.now line.now }
    requires room { length samples.now ≡ length values.old }
    ensures { result ≡ least_from (cost_of state.now history.now step true samples.now) best
        (flat_map (λ n. with_books n (middle_for state.now history.now step samples.now n))
        (range_with_len 1 9)) }
{
    for number in 1..10 {
        best = with_any_entry(state, history, step, number, samples, line, values, best);
    }
    best
}

/// The best so far, with the choices of the computed filter of a number, where there is one.
fn with_computed(
    state: &ChannelState,
    history: &Predictor<8, 4>,
    step: u8,
    number: u8,
    computed: &[Filter<8>],
    samples: &[i32],
    line: &Line<'_>,
    values: &mut [i32],
    best: Option<Choice>,
) -> Option<Choice>
    requires state { IsChannelState state.now }
    requires step { step ≤ 8 }
    requires few { length samples.now ≤ 160 }
    requires samples { All Is26 samples.now }
    requires whole { All (λ x. clear step x ≡ x) samples.now }
    requires least { 10 ≤ number }
    requires most { number ≤ 17 }
    requires computed { AreComputed step samples.now computed.now }
    requires first { IsWithinFirst (cost_of state.now history.now step true samples.now) best }
    requires line { IsTrue line.now.narrow → IsIn step history.now samples.now line.now }
    requires room { length samples.now ≡ length values.old }
    ensures { let mid = middle_for state.now history.now step samples.now number in result
        ≡ least_from (cost_of state.now history.now step true samples.now) best
        (with_books number mid) }
{
    let place = number as usize - 10;
    if place >= computed.len() {
        return best;
    }
    let none = without();
    let pair = PairRef {
        fir: &computed[place],
        iir: &none,
    };
    with_filters(
        state, history, step, number, pair, samples, line, values, best,
    )
}

/// The best so far, with the choices of all computed filters.
fn with_all_computed(
    state: &ChannelState,
    history: &Predictor<8, 4>,
    step: u8,
    samples: &[i32],
    line: &Line<'_>,
    values: &mut [i32],
    mut best: Option<Choice>,
) -> Option<Choice>
    requires state { IsChannelState state.now }
    requires step { step ≤ 8 }
    requires few { length samples.now ≤ 160 }
    requires samples { All Is26 samples.now }
    requires whole { All (λ x. clear step x ≡ x) samples.now }
    requires first { IsWithinFirst (cost_of state.now history.now step true samples.now) best }
    requires line { IsTrue line.now.narrow → IsIn step history.now samples.now line.now }
    requires room { length samples.now ≡ length values.old }
    ensures { result ≡ least_from (cost_of state.now history.now step true samples.now) best
        (flat_map (λ n. with_books n (middle_for state.now history.now step samples.now n))
        (range_with_len 10 8)) }
{
    let mut computed = ArrayVec::new();
    levinson_all(samples, step, &mut computed);
    for number in 10..18 {
        best = with_computed(
            state, history, step, number, &computed, samples, line, values, best,
        );
    }
    best
}

/// No more than the bits of a computed filter. Where it is the one in force, the end of an IIR is written.
fn least_computed(state: &ChannelState) -> u64
    ensures most { result ≤ 29 }
    ensures less { 0 < order_of state.now.iir → result ≤ 15 }
{
    if state.iir.coeffs.is_empty() { 29 } else { 15 }
}

/// The best so far, with the choices of all filters behind those in force.
fn with_others(
    state: &ChannelState,
    history: &Predictor<8, 4>,
    step: u8,
    samples: &[i32],
    line: &Line<'_>,
    values: &mut [i32],
    first: Option<Choice>,
) -> Option<Choice>
    requires state { IsChannelState state.now }
    requires step { step ≤ 8 }
    requires few { length samples.now ≤ 160 }
    requires samples { All Is26 samples.now }
    requires whole { All (λ x. clear step x ≡ x) samples.now }
    requires first { IsWithinFirst (cost_of state.now history.now step true samples.now) first }
    requires line { IsTrue line.now.narrow → IsIn step history.now samples.now line.now }
    requires room { length samples.now ≡ length values.old }
    ensures { result ≡ least_from (cost_of state.now history.now step true samples.now) first
        (flat_map (λ n. with_books n (middle_for state.now history.now step samples.now n))
        (range_with_len 1 17)) }
{
    let best = with_table(state, history, step, samples, line, values, first);
    if !is_better(least_computed(state), best) {
        return best;
    }
    with_all_computed(state, history, step, samples, line, values, best)
}

/// The best of the filters in force, and with `filters` of all, over buffers for the block and 8 values more.
#[inline(never)]
fn best_of(
    state: &ChannelState,
    history: &Predictor<8, 4>,
    step: u8,
    filters: bool,
    samples: &[i32],
    whole: &mut [i32],
    high: &mut [i32],
    low: &mut [i32],
    values: &mut [i32],
) -> Option<Choice>
    requires state { IsChannelState state.now }
    requires step { step ≤ 8 }
    requires few { length samples.now ≤ 160 }
    requires samples { All Is26 samples.now }
    requires whole { All (λ x. clear step x ≡ x) samples.now }
    requires whole_room { length whole.old ≡ 8 + length samples.now }
    requires high_room { length high.old ≡ 8 + length samples.now }
    requires low_room { length low.old ≡ 8 + length samples.now }
    requires room { length samples.now ≡ length values.old }
    ensures { result ≡ least_from (cost_of state.now history.now step true samples.now) None
        (flat_map (λ n. with_books n (middle_for state.now history.now step samples.now n))
        (range_with_len 0 (if filters then 18 else 1))) }
{
    let narrow = put_line(history, step, samples, whole, high, low);
    let line = Line {
        narrow,
        far: far_of(whole),
        whole,
        high,
        low,
    };
    let in_force = PairRef {
        fir: &state.fir,
        iir: &state.iir,
    };
    let first = with_filters(
        state, history, step, 0, in_force, samples, &line, values, None,
    );
    if !filters {
        return first;
    }
    with_others(state, history, step, samples, &line, values, first)
}

/// The same over buffers of `N` values.
#[inline(always)]
fn best_within<const N: usize>(
    state: &ChannelState,
    history: &Predictor<8, 4>,
    step: u8,
    filters: bool,
    samples: &[i32],
) -> Option<Choice>
    requires state { IsChannelState state.now }
    requires step { step ≤ 8 }
    requires few { length samples.now ≤ 160 }
    requires samples { All Is26 samples.now }
    requires whole { All (λ x. clear step x ≡ x) samples.now }
    requires room { 8 + length samples.now ≤ N }
    requires most { N ≤ 168 }
    ensures { result ≡ least_from (cost_of state.now history.now step true samples.now) None
        (flat_map (λ n. with_books n (middle_for state.now history.now step samples.now n))
        (range_with_len 0 (if filters then 18 else 1))) }
{
    let end = 8 + samples.len();
    let mut whole = [0; N];
    let mut high = [0; N];
    let mut low = [0; N];
    let mut values = [0; N];
    best_of(
        state,
        history,
        step,
        filters,
        samples,
        &mut whole[..end],
        &mut high[..end],
        &mut low[..end],
        &mut values[..samples.len()],
    )
}

/// The same over buffers that are cleared for a short block in a quarter of the time.
fn best_for(
    state: &ChannelState,
    history: &Predictor<8, 4>,
    step: u8,
    filters: bool,
    samples: &[i32],
) -> Option<Choice>
    requires state { IsChannelState state.now }
    requires step { step ≤ 8 }
    requires few { length samples.now ≤ 160 }
    requires samples { All Is26 samples.now }
    requires whole { All (λ x. clear step x ≡ x) samples.now }
    ensures { result ≡ least_from (cost_of state.now history.now step true samples.now) None
        (flat_map (λ n. with_books n (middle_for state.now history.now step samples.now n))
        (range_with_len 0 (if filters then 18 else 1))) }
{
    if samples.len() <= 40 {
        return best_within::<48>(state, history, step, filters, samples);
    }
    best_within::<168>(state, history, step, filters, samples)
}

/// The choice for a block of 1 to 160 samples: the first, by filter, book, low bits and offset, of those that cost least.
/// The samples have 26 signed bits, the low `step` of which are 0, and the step is at most 8. Without `filters` only
/// those in force are looked at, which then must be absent.
#[inline(never)]
pub fn choose(
    state: &ChannelState,
    history: &Predictor<8, 4>,
    step: u8,
    filters: bool,
    samples: &[i32],
) -> Choice
    requires state { IsChannelState state.now }
    requires step { step ≤ 8 }
    requires few { length samples.now ≤ 160 }
    requires samples { All Is26 samples.now }
    requires whole { All (λ x. clear step x ≡ x) samples.now }
    requires fir { filters ≡ false → order_of state.now.fir ≡ 0 }
    requires iir { filters ≡ false → order_of state.now.iir ≡ 0 }
    ensures chosen { result ≡ chosen state.now history.now step filters samples.now }
    ensures least { IsLeast (cost_of state.now history.now step filters samples.now) result }
    ensures costs { cost_of state.now history.now step true samples.now result ≡ Some result.bits }
    ensures cheap { result.bits ≤ 34 + 26 * length samples.now }
{
    let best = best_for(state, history, step, filters, samples);
    best.unwrap_or(choice_of(0, 0, 0, 0))
}
