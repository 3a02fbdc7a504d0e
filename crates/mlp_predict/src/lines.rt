//! A block in one line with the 16 values before it, the oldest first.

ghost use Rattle.std.specs.Prelude.{ℕ, ◌≡◌, ◌<◌, ◌≤◌, ◌+◌, ◌-◌, ◌^◌, ◌++◌, take, drop, reverse, replicate, length, All, pos, neg_ℤ, ◌≤ℤ◌};
ghost use Rattle.mlp_predict.specs.Prediction.{Filters, Past, predicted, outputs_of, past_of, with_zeros, IsCoefficient};
ghost use Rattle.mlp_predict.specs.Lines.{past_in, filters_in};

use crate::sample::{difference_of, dot, output_of};
use mlp_arith::floor_by;

/// Puts values, the latest first, right before the block.
pub fn put_before(values: &[i32], line: &mut [i32])
    requires few { length values.now ≤ 16 }
    requires room { 16 ≤ length line.old }
    ensures { line.new ≡ take (16 - length values.now) line.old ++ reverse values.now ++ drop 16 line.old }
{
    for i in 0..values.len() {
        line[15 - i] = values[i];
    }
}

/// The prediction of sample `i` of the block, by coefficients of which the first belongs to the oldest value.
#[inline(always)]
fn predict_at<const M: usize, const K: usize>(
    fir: &[i32; M],
    iir: &[i32; K],
    shift: u8,
    outputs: &[i32],
    differences: &[i32],
    i: usize,
) -> i64
    requires fir_few { M ≤ 16 }
    requires iir_few { K ≤ 16 }
    requires fir_small { All IsCoefficient fir.now }
    requires iir_small { All IsCoefficient iir.now }
    requires shift { shift < 16 }
    requires within { 16 + i < length outputs.now }
    requires same { length outputs.now ≡ length differences.now }
    ensures value { result
        ≡ predicted (filters_in fir.now iir.now shift)
        (past_in (take (16 + i) outputs.now) (take (16 + i) differences.now)) }
    ensures low { neg_ℤ (pos (2 ^ 51)) ≤ℤ result }
    ensures high { result ≤ℤ pos (2 ^ 51) }
{
    let sum = dot(fir, &outputs[16 + i - M..16 + i]) + dot(iir, &differences[16 + i - K..16 + i]);
    floor_by(shift, sum)
}

/// Replaces the residuals of the block by outputs, and puts the differences of these into their line.
#[inline(always)]
pub fn restore_line<const M: usize, const K: usize>(
    fir: &[i32; M],
    iir: &[i32; K],
    shift: u8,
    step: u8,
    outputs: &mut [i32],
    differences: &mut [i32],
)
    requires fir_few { M ≤ 16 }
    requires iir_few { K ≤ 16 }
    requires fir_small { All IsCoefficient fir.now }
    requires iir_small { All IsCoefficient iir.now }
    requires shift { shift < 16 }
    requires step { step < 16 }
    requires room { 16 ≤ length outputs.old }
    requires same { length outputs.old ≡ length differences.old }
    ensures outputs { let past : Past = past_in (take 16 outputs.old) (take 16 differences.old) in
        outputs.new
        ≡ take 16 outputs.old ++ outputs_of (filters_in fir.now iir.now shift) past step (drop 16 outputs.old) }
    ensures past { let f : Filters = filters_in fir.now iir.now shift in
        let past : Past = past_in (take 16 outputs.old) (take 16 differences.old) in
        past_in outputs.new differences.new ≡ past_of f past (outputs_of f past step (drop 16 outputs.old)) }
{
    for i in 0..outputs.len() - 16 {
        let prediction = predict_at(fir, iir, shift, outputs, differences, i);
        let output = output_of(step, prediction, outputs[16 + i]);
        outputs[16 + i] = output;
        differences[16 + i] = difference_of(output, prediction);
    }
}

/// Replaces the residuals of a block by outputs, from the latest outputs and differences on, which come before the
/// block in the lines.
#[inline(always)]
pub fn restore_between<const M: usize, const K: usize>(
    fir: &[i32; M],
    iir: &[i32; K],
    shift: u8,
    step: u8,
    latest_outputs: &[i32],
    latest_differences: &[i32],
    outputs: &mut [i32],
    differences: &mut [i32],
    block: &mut [i32],
)
    requires fir_few { M ≤ 16 }
    requires iir_few { K ≤ 16 }
    requires fir_small { All IsCoefficient fir.now }
    requires iir_small { All IsCoefficient iir.now }
    requires shift { shift < 16 }
    requires step { step < 16 }
    requires outputs_few { length latest_outputs.now ≤ 16 }
    requires differences_few { length latest_differences.now ≤ 16 }
    requires outputs_empty { outputs.old ≡ replicate (length outputs.old) (pos 0) }
    requires differences_empty { differences.old ≡ replicate (length outputs.old) (pos 0) }
    requires same { length outputs.old ≡ length differences.old }
    requires most { 16 + length block.old ≤ length outputs.old }
    ensures outputs { let past : Past = record { outputs = latest_outputs.now; differences = latest_differences.now } in
        block.new ≡ outputs_of (filters_in fir.now iir.now shift) past step block.old }
    ensures past { let past : Past = record { outputs = latest_outputs.now; differences = latest_differences.now } in
        let end : ℕ = 16 + length block.old in
        past_in (take end outputs.new) (take end differences.new)
        ≡ with_zeros (16 - length latest_outputs.now) (16 - length latest_differences.now)
        (past_of (filters_in fir.now iir.now shift) past block.new) }
{
    let end = 16 + block.len();
    put_before(latest_outputs, outputs);
    put_before(latest_differences, differences);
    outputs[16..end].copy_from_slice(block);
    restore_line(
        fir,
        iir,
        shift,
        step,
        &mut outputs[..end],
        &mut differences[..end],
    );
    block.copy_from_slice(&outputs[16..end]);
}
