//! What filters leave of a block.

ghost use Rattle.std.specs.Prelude.{◌≡◌, ◌≤◌, ◌<◌, ◌↔◌, length, All, FitsSigned, IsTrue, IsSome, true, Some, replicate, option_map, map, pos};
ghost use Rattle.mlp_arith.specs.Words.{clear};
ghost use Rattle.mlp_search.specs.Folded.{stepped};
ghost use Rattle.std.specs.Int.{w32};
ghost use Rattle.mlp_arith.specs.Ranges.{Is26};
ghost use Rattle.mlp_params.specs.States.{IsChannelState};
ghost use Rattle.mlp_search.specs.Candidates.{pair_of, past_for, residuals_for, past_behind};
ghost use Rattle.mlp_predict.specs.Filters.{AreFilters, IsState};
ghost use Rattle.mlp_search.specs.Cost.{cost_of};
ghost use Rattle.mlp_search.specs.Given.{given_by};
ghost use Rattle.mlp_search.specs.Lines.{IsIn};

use crate::choice::Choice;
use crate::giving::given_of;
use crate::line::{Line, reduce_in};
use crate::pair::{PairRef, pair_of};
use crate::recursive::reduce_recursive;
use arrayvec::ArrayVec;
use mlp_params::ChannelState;
use mlp_predict::Predictor;
use mlp_syntax::{ChannelParams, FilterState};

/// A state of so many zeros.
pub(crate) fn zeros(count: usize) -> FilterState
    requires { count ≤ 4 }
    ensures value { result ≡ record { bits = 0; shift = 0; values = record { items = replicate count (pos 0) } } }
    ensures state { IsState result }
{
    let mut values: ArrayVec<i32, 4> = ArrayVec::new();
    for _ in 0..count {
        values.push(0);
    }
    FilterState {
        bits: 0,
        shift: 0,
        values,
    }
}

/// Puts the state that the filters of a number come with into the past.
fn put_state(history: &mut Predictor<8, 4>, number: u8, pair: &PairRef<'_>)
    ensures { history.new ≡ past_for number pair.now history.old }
{
    if number > 0 {
        history.set_state(&zeros(pair.iir.coeffs.as_slice().len()));
    }
}

/// Puts what the filters of a number leave of the samples; false where some residual hasn't 32 signed bits.
#[inline(never)]
pub(crate) fn residuals_for(
    history: &Predictor<8, 4>,
    step: u8,
    number: u8,
    pair: &PairRef<'_>,
    samples: &[i32],
    residuals: &mut [i32],
) -> bool
    requires step { step ≤ 8 }
    requires filters { AreFilters pair.now.fir pair.now.iir }
    requires room { length samples.now ≡ length residuals.old }
    ensures fit { IsTrue result
        ↔ All (FitsSigned w32) (residuals_for history.now step samples.now number pair.now) }
    ensures values { IsTrue result →
        residuals.new ≡ residuals_for history.now step samples.now number pair.now }
{
    let mut past = history.copied();
    put_state(&mut past, number, pair);
    past.residuals(pair.fir, pair.iir, step, samples, residuals)
}

/// Puts residuals that are whole steps of 2^step in steps.
pub(crate) fn count_steps(step: u8, residuals: &mut [i32])
    requires step { step ≤ 8 }
    requires whole { All (λ r. clear step r ≡ r) residuals.old }
    ensures { map (stepped step) residuals.new ≡ residuals.old }
{
    for residual in residuals.iter_mut() {
        *residual >>= step;
    }
}

/// Puts what the filters of a number leave of samples without low `step` bits, in steps of 2^step; false where some
/// residual hasn't 32 signed bits.
#[inline(always)]
pub(crate) fn values_for(
    history: &Predictor<8, 4>,
    step: u8,
    number: u8,
    pair: &PairRef<'_>,
    samples: &[i32],
    line: &Line<'_>,
    values: &mut [i32],
) -> bool
    requires step { step ≤ 8 }
    requires filters { AreFilters pair.now.fir pair.now.iir }
    requires whole { All (λ x. clear step x ≡ x) samples.now }
    requires line { IsTrue line.now.narrow → IsIn step history.now samples.now line.now }
    requires room { length samples.now ≡ length values.old }
    ensures fit { IsTrue result
        ↔ All (FitsSigned w32) (residuals_for history.now step samples.now number pair.now) }
    ensures values { IsTrue result →
        map (stepped step) values.new ≡ residuals_for history.now step samples.now number pair.now }
{
    if line.narrow {
        if reduce_in(pair, line, values) {
            return true;
        }
        if reduce_recursive(history, step, number, pair, line, values) {
            return true;
        }
    }
    if !residuals_for(history, step, number, pair, samples, values) {
        return false;
    }
    count_steps(step, values);
    true
}

/// Puts the residuals of a block by a choice that has a cost, leaves the past behind them, and says what the choice writes:
/// the filters, the offset, the book and the low bits that differ from those in force. Nothing where all stays as it is.
pub fn reduced(
    state: &ChannelState,
    history: &mut Predictor<8, 4>,
    step: u8,
    choice: &Choice,
    samples: &[i32],
    residuals: &mut [i32],
) -> Option<ChannelParams>
    requires state { IsChannelState state.now }
    requires step { step ≤ 8 }
    requires few { length samples.now ≤ 160 }
    requires samples { All Is26 samples.now }
    requires room { length samples.now ≡ length residuals.old }
    requires costs { IsSome (cost_of state.now history.old step true samples.now choice.now) }
    ensures residuals { let n = choice.now.filter in let past = history.old in
        option_map (residuals_for past step samples.now n) (pair_of state.now step samples.now n)
        ≡ Some residuals.new }
    ensures past { let n = choice.now.filter in let past = history.old in
        option_map (past_behind past samples.now n) (pair_of state.now step samples.now n)
        ≡ Some history.new }
    ensures given { result ≡ given_by state.now step samples.now choice.now }
{
    let pair = pair_of(state, step, samples, choice.filter)?;
    put_state(history, choice.filter, &pair.view());
    let _fit = history.reduce_block(&pair.fir, &pair.iir, step, samples, residuals);
    given_of(state, pair, choice)
}
