//! What a choice costs.

ghost use Rattle.std.specs.Prelude.{◌≡◌, ◌≤◌, ◌<◌, ◌-◌, ◌*◌, ◌+◌, ◌||◌, length, All, FitsSigned, true, IfSome, pos};
ghost use Rattle.std.specs.Ordering.{int_eq};
ghost use Rattle.std.specs.Int.{w32};
ghost use Rattle.mlp_arith.specs.Ranges.{Is26};
ghost use Rattle.mlp_params.specs.States.{IsChannelState};
ghost use Rattle.mlp_search.specs.Candidates.{pair_of};
ghost use Rattle.mlp_search.specs.Cost.{most_low, in_range, is_offset, bits_for, parameter_sum, cost_over, cost_of};
ghost use Rattle.mlp_search.specs.Trial.{Writes, IsTrial};

use crate::choice::Choice;
use crate::giving::codes_alike;
use crate::pair::pair_of;
use crate::reduction::residuals_for;
use crate::trial::{Trial, trial_of, writing_of};
use mlp_params::ChannelState;
use mlp_predict::Predictor;
use mlp_residual::bits_of;

/// The most low bits that a book may have beside it.
pub(crate) fn most_low(book: u8) -> u8
    ensures { result ≡ most_low book }
{
    if book == 0 { 31 } else { 24 }
}

/// Whether a book and low bits may be chosen.
fn in_range(step: u8, choice: &Choice) -> bool
    ensures { result ≡ in_range step true choice.now }
{
    choice.book <= 3 && step <= choice.low && choice.low <= most_low(choice.book)
}

/// Whether an offset is 0 or the middle.
fn is_offset(offset: i16, middle: i16) -> bool
    ensures { result ≡ (int_eq offset (pos 0) || int_eq offset middle) }
{
    offset == 0 || offset == middle
}

/// How many bits the flag and the parameters of the channel take.
pub(crate) fn parameter_sum(state: &ChannelState, trial: &Trial<'_>, choice: &Choice) -> u64
    requires writes { Writes state.now trial.now }
    requires number { choice.now.filter ≡ trial.now.number }
    ensures value { result ≡ parameter_sum state.now trial.now.pair choice.now }
    ensures few { result ≤ 65561 }
{
    if trial.stays && codes_alike(state, choice) {
        return 1;
    }
    let offset_bits = if choice.offset == state.offset { 0 } else { 15 };
    11 + u64::from(trial.bits) + offset_bits
}

/// How many bits the codes of a choice take, where all residuals have one.
fn code_bits(step: u8, choice: &Choice, residuals: &[i32]) -> Option<u64>
    requires book { choice.now.book ≤ 3 }
    requires low { choice.now.low < 32 }
    requires step { step ≤ 8 }
    requires few { length residuals.now ≤ 160 }
    ensures value { result
        ≡ bits_for choice.now.book (choice.now.low - step) choice.now.offset step residuals.now }
    ensures few { IfSome result (λ n. n ≤ 6400) }
{
    bits_of(
        choice.book,
        choice.low.saturating_sub(step),
        choice.offset,
        step,
        residuals,
    )
}

/// What a choice of the filters on trial costs.
pub(crate) fn cost_over(
    state: &ChannelState,
    step: u8,
    trial: &Trial<'_>,
    residuals: &[i32],
    choice: &Choice,
) -> Option<u64>
    requires step { step ≤ 8 }
    requires trial { IsTrial state.now step residuals.now trial.now }
    requires few { length residuals.now ≤ 160 }
    requires words { All (FitsSigned w32) residuals.now }
    requires number { choice.now.filter ≡ trial.now.number }
    ensures { result ≡ cost_over state.now step true trial.now.pair residuals.now choice.now }
{
    if !in_range(step, choice) {
        return None;
    }
    if !is_offset(choice.offset, trial.middle) {
        return None;
    }
    let codes = code_bits(step, choice, residuals)?;
    Some(parameter_sum(state, trial, choice) + codes)
}

/// What a choice for a block of 1 to 160 samples costs: the bits of the channel's flag, its parameters and its codes. The
/// samples have 26 signed bits, the low `step` of which are 0, and the step is at most 8. There is no cost exactly where
/// the choice is no candidate, or some residual hasn't 32 signed bits or no code. The bits that it says aren't looked at.
pub fn cost(
    state: &ChannelState,
    history: &Predictor<8, 4>,
    step: u8,
    choice: &Choice,
    samples: &[i32],
) -> Option<u64>
    requires state { IsChannelState state.now }
    requires step { step ≤ 8 }
    requires few { length samples.now ≤ 160 }
    requires samples { All Is26 samples.now }
    ensures { result ≡ cost_of state.now history.now step true samples.now choice.now }
{
    let pair = pair_of(state, step, samples, choice.filter)?;
    let mut line = [0; 160];
    let residuals = &mut line[..samples.len()];
    let view = pair.view();
    if !residuals_for(history, step, choice.filter, &view, samples, residuals) {
        return None;
    }
    let writing = writing_of(state, choice.filter, &view);
    let trial = trial_of(step, choice.filter, view, &writing, residuals);
    cost_over(state, step, &trial, residuals, choice)
}
