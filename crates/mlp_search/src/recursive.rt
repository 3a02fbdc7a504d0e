//! What filters leave of a block whose IIR takes half of the latest difference away.

ghost use Rattle.std.specs.Prelude.{◌≡◌, ◌∷◌, [], ◌≤◌, ◌<◌, ◌+◌, ◌^◌, ℕ, ℤ, List, length, map, drop, reverse, All, FitsSigned, IsTrue, IfSome, unsigned_abs, pos, neg_ℤ, ◌-ℤ◌};
ghost use Rattle.std.specs.Int.{w32};
ghost use Rattle.mlp_arith.specs.Words.{floor_by};
ghost use Rattle.mlp_arith.specs.Ranges.{Is26};
ghost use Rattle.mlp_params.specs.Filters.{order_of};
ghost use Rattle.mlp_predict.specs.Prediction.{Past, residuals_of};
ghost use Rattle.mlp_search.specs.declared.pair.Pair.{Pair};
ghost use Rattle.mlp_search.specs.Candidates.{past_for, residuals_for};
ghost use Rattle.mlp_search.specs.Folded.{stepped};
ghost use Rattle.mlp_search.specs.Lines.{IsIn, halving, excesses};

use crate::line::{Line, reduce_short};
use crate::pair::PairRef;
use mlp_predict::Predictor;
use mlp_syntax::Filter;

/// Half of a value, rounded down.
#[inline(always)]
fn half_of(value: i32) -> i32
    ensures { result ≡ floor_by 1 value }
{
    value >> 1
}

/// So many quantisation steps.
#[inline(always)]
fn steps_of(step: u8, rise: i32) -> i32
    requires step { step ≤ 8 }
    requires few { unsigned_abs (stepped step rise) ≤ 2 ^ 28 }
    ensures { result ≡ stepped step rise }
{
    rise << step
}

/// How far a prediction is above its sample: half of how far the one before was, less the rise of the sample.
#[inline(always)]
fn next_excess(step: u8, excess: i32, rise: i32) -> i32
    requires step { step ≤ 8 }
    requires excess { unsigned_abs excess ≤ 2 ^ 29 }
    requires rise { unsigned_abs (stepped step rise) ≤ 2 ^ 28 }
    ensures value { result ≡ floor_by 1 excess -ℤ stepped step rise }
    ensures few { unsigned_abs result ≤ 2 ^ 29 }
{
    half_of(excess) - steps_of(step, rise)
}

/// Quantisation steps, rounded down.
#[inline(always)]
fn whole_steps(step: u8, excess: i32) -> i32
    requires step { step ≤ 8 }
    ensures { result ≡ floor_by step excess }
{
    excess >> step
}

/// What a prediction leaves of its sample, in quantisation steps.
#[inline(always)]
fn left_by(step: u8, excess: i32) -> i32
    requires step { step ≤ 8 }
    requires few { unsigned_abs excess ≤ 2 ^ 29 }
    ensures { result ≡ neg_ℤ (floor_by step excess) }
{
    -whole_steps(step, excess)
}

/// Replaces rises of samples, in quantisation steps, by how far predictions are above their samples, which have half of
/// the excess before.
#[inline(always)]
fn halve(step: u8, first: i32, values: &mut [i32])
    requires step { step ≤ 8 }
    requires first { unsigned_abs first ≤ 2 ^ 29 }
    requires rises { All (λ d. unsigned_abs d ≤ 2 ^ 28) (map (stepped step) values.old) }
    ensures { values.new ≡ excesses step first values.old }
{
    let mut excess = first;
    for i in 0..values.len() {
        excess = next_excess(step, excess, values[i]);
        values[i] = excess;
    }
}

/// Replaces excesses of predictions by what these leave of their samples, in quantisation steps.
#[inline(always)]
fn put_left(step: u8, values: &mut [i32])
    requires step { step ≤ 8 }
    requires few { All (λ e. unsigned_abs e ≤ 2 ^ 29) values.old }
    ensures { values.new ≡ map (λ e. neg_ℤ (floor_by step e)) values.old }
{
    for i in 0..values.len() {
        values[i] = left_by(step, values[i]);
    }
}

/// Puts what is left of the block behind an excess, by a FIR of which these are a quarter, the first for the oldest
/// value.
#[inline(always)]
fn put_halved<const M: usize>(
    taps: &[i32; M],
    step: u8,
    excess: i32,
    line: &Line<'_>,
    values: &mut [i32],
)
    requires few { M ≤ 2 }
    requires light { All (λ c. unsigned_abs c ≤ 2) taps.now }
    requires step { step ≤ 8 }
    requires excess { unsigned_abs excess ≤ 2 ^ 29 }
    requires room { length line.now.whole.now ≡ 8 + length values.old }
    requires words { All Is26 line.now.whole.now }
    requires small { All Is26 (map (stepped step) line.now.whole.now) }
    ensures value { (past : Past) (samples es : List ℤ) → IsIn step past samples line.now →
        past.differences ≡ neg_ℤ excess ∷ es →
        map (stepped step) values.new ≡ residuals_of (halving (reverse taps.now)) past step samples }
    ensures fits { All (FitsSigned w32) (map (stepped step) values.new) }
{
    reduce_short(taps, 0, line.whole, values);
    halve(step, excess, values);
    put_left(step, values);
}

/// Whether an IIR takes half of the latest difference away, and no coefficients are shifted.
#[inline(always)]
fn takes_half(fir: &Filter<8>, iir: &Filter<4>) -> bool
    ensures shift { IsTrue result → fir.now.shift ≡ 2 }
    ensures fir { IsTrue result → fir.now.coeff_shift ≡ 0 }
    ensures iir { IsTrue result → iir.now.coeff_shift ≡ 0 }
    ensures coeffs { IsTrue result → iir.now.coeffs.items ≡ neg_ℤ (pos 2) ∷ [] }
{
    let coeffs = iir.coeffs.as_slice();
    if coeffs.len() != 1 {
        return false;
    }
    if coeffs[0] != -2 {
        return false;
    }
    fir.shift == 2 && fir.coeff_shift == 0 && iir.coeff_shift == 0
}

/// How far the latest prediction was above its sample, as the filters of a number with one difference see it; None
/// where that is far.
#[inline(always)]
fn excess_before(history: &Predictor<8, 4>, number: u8) -> Option<i32>
    ensures few { IfSome result (λ g. unsigned_abs g ≤ 2 ^ 29) }
    ensures seen { (pair : Pair) → order_of pair.iir ≡ 1 → IfSome result (λ g.
        (past_for number pair history.now).differences ≡ neg_ℤ g ∷ drop 1 history.now.differences) }
{
    if number > 0 {
        return Some(0);
    }
    let difference = history.differences()[0];
    if difference < -536870912 {
        return None;
    }
    if difference > 536870912 {
        return None;
    }
    Some(-difference)
}

/// Puts what a FIR of first or second differences leaves beside such an IIR; false where it is another.
#[inline(always)]
fn reduce_beside(coeffs: &[i32], step: u8, excess: i32, line: &Line<'_>, values: &mut [i32]) -> bool
    requires step { step ≤ 8 }
    requires excess { unsigned_abs excess ≤ 2 ^ 29 }
    requires room { length line.now.whole.now ≡ 8 + length values.old }
    requires words { All Is26 line.now.whole.now }
    requires small { All Is26 (map (stepped step) line.now.whole.now) }
    ensures value { IsTrue result →
        (past : Past) (samples es : List ℤ) → IsIn step past samples line.now →
        past.differences ≡ neg_ℤ excess ∷ es → map (stepped step) values.new
        ≡ residuals_of (record { fir = coeffs.now; iir = neg_ℤ (pos 2) ∷ []; shift = 2 }) past step samples }
    ensures fits { IsTrue result → All (FitsSigned w32) (map (stepped step) values.new) }
    ensures some { IsTrue result → 0 < length coeffs.now }
{
    if coeffs.len() == 1 {
        if coeffs[0] == 4 {
            put_halved(&[1], step, excess, line, values);
            return true;
        }
    }
    if coeffs.len() != 2 {
        return false;
    }
    if coeffs[0] != 8 {
        return false;
    }
    if coeffs[1] != -4 {
        return false;
    }
    put_halved(&[-1, 2], step, excess, line, values);
    true
}

/// Puts what the filters of a number leave of the block, in quantisation steps, where the IIR takes half of the latest
/// difference away beside a FIR of first or second differences; else false.
#[inline(always)]
pub(crate) fn reduce_recursive(
    history: &Predictor<8, 4>,
    step: u8,
    number: u8,
    pair: &PairRef<'_>,
    line: &Line<'_>,
    values: &mut [i32],
) -> bool
    requires step { step ≤ 8 }
    requires room { length line.now.whole.now ≡ 8 + length values.old }
    requires words { All Is26 line.now.whole.now }
    requires small { All Is26 (map (stepped step) line.now.whole.now) }
    ensures value { IsTrue result →
        (samples : List ℤ) → IsIn step history.now samples line.now →
        map (stepped step) values.new ≡ residuals_for history.now step samples number pair.now }
    ensures fits { IsTrue result → All (FitsSigned w32) (map (stepped step) values.new) }
{
    if !takes_half(pair.fir, pair.iir) {
        return false;
    }
    match excess_before(history, number) {
        Some(excess) => reduce_beside(pair.fir.coeffs.as_slice(), step, excess, line, values),
        None => false,
    }
}
