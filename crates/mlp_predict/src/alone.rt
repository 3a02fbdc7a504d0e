//! A block of a channel without an IIR: its predictions come from outputs alone.

ghost use Rattle.std.specs.Prelude.{◌≡◌, ◌<◌, ◌≤◌, ◌+◌, ◌-◌, ◌^◌, ◌++◌, [], take, drop, reverse, replicate, length, All, pos, neg_ℤ, ◌≤ℤ◌};
ghost use Rattle.mlp_predict.specs.Prediction.{predicted, outputs_of, past_of, IsCoefficient};
ghost use Rattle.mlp_predict.specs.Lines.{past_in, filters_in, finished};

use crate::history::History;
use crate::lines::put_before;
use crate::sample::{difference_of, dot, output_of};
use mlp_arith::floor_by;

/// The prediction of sample `i` of the block, by coefficients of which the first belongs to the oldest output.
#[inline(always)]
pub fn predict_alone<const M: usize>(fir: &[i32; M], shift: u8, outputs: &[i32], i: usize) -> i64
    requires few { M ≤ 16 }
    requires small { All IsCoefficient fir.now }
    requires shift { shift < 16 }
    requires within { 16 + i < length outputs.now }
    ensures value { result ≡ predicted (filters_in fir.now [] shift) (past_in (take (16 + i) outputs.now) []) }
    ensures low { neg_ℤ (pos (2 ^ 51)) ≤ℤ result }
    ensures high { result ≤ℤ pos (2 ^ 51) }
{
    floor_by(shift, dot(fir, &outputs[16 + i - M..16 + i]))
}

/// Replaces `count` residuals of the block by outputs, from sample `start` on.
#[inline(always)]
fn restore_run<const M: usize>(
    fir: &[i32; M],
    shift: u8,
    step: u8,
    outputs: &mut [i32],
    start: usize,
    count: usize,
)
    requires few { M ≤ 16 }
    requires small { All IsCoefficient fir.now }
    requires shift { shift < 16 }
    requires step { step < 16 }
    requires room { 16 + start + count ≤ length outputs.old }
    ensures { finished (filters_in fir.now [] shift) step (16 + start + count) outputs.new
        ≡ finished (filters_in fir.now [] shift) step (16 + start) outputs.old }
{
    for i in 0..count {
        let at = start + i;
        let prediction = predict_alone(fir, shift, outputs, at);
        let output = output_of(step, prediction, outputs[16 + at]);
        outputs[16 + at] = output;
    }
}

/// Replaces the residuals of the block by outputs.
#[inline(always)]
fn restore_alone<const M: usize>(fir: &[i32; M], shift: u8, step: u8, outputs: &mut [i32])
    requires few { M ≤ 16 }
    requires small { All IsCoefficient fir.now }
    requires shift { shift < 16 }
    requires step { step < 16 }
    requires room { 16 ≤ length outputs.old }
    ensures { outputs.new ≡ take 16 outputs.old
        ++ outputs_of (filters_in fir.now [] shift) (past_in (take 16 outputs.old) []) step (drop 16 outputs.old) }
{
    let count = outputs.len() - 16;
    // Four coefficients stay in registers with the latest outputs: four samples at a time.
    let runs = if M == 4 { count / 4 } else { 0 };
    for i in 0..runs {
        restore_run(fir, shift, step, outputs, i * 4, 4);
    }
    restore_run(fir, shift, step, outputs, runs * 4, count - runs * 4);
}

/// Replaces the residuals of a block by outputs, from the latest outputs on, which come before the block in the line.
#[inline(always)]
pub fn restore_behind<const M: usize>(
    fir: &[i32; M],
    shift: u8,
    step: u8,
    latest: &[i32],
    outputs: &mut [i32],
    block: &mut [i32],
)
    requires few { M ≤ 16 }
    requires small { All IsCoefficient fir.now }
    requires shift { shift < 16 }
    requires step { step < 16 }
    requires latest_few { length latest.now ≤ 16 }
    requires empty { outputs.old ≡ replicate (length outputs.old) (pos 0) }
    requires most { 16 + length block.old ≤ length outputs.old }
    ensures outputs { block.new ≡ outputs_of (filters_in fir.now [] shift)
        (record { outputs = latest.now; differences = [] }) step block.old }
    ensures line { take (16 + length block.old) outputs.new
        ≡ (replicate (16 - length latest.now) (pos 0) ++ reverse latest.now) ++ block.new }
{
    let end = 16 + block.len();
    put_before(latest, outputs);
    outputs[16..end].copy_from_slice(block);
    restore_alone(fir, shift, step, &mut outputs[..end]);
    block.copy_from_slice(&outputs[16..end]);
}

/// Puts the differences of the block's outputs before the latest ones. No more of them than are kept are computed.
#[inline(always)]
pub fn put_differences<const M: usize, const I: usize>(
    fir: &[i32; M],
    shift: u8,
    outputs: &[i32],
    differences: &mut History<I>,
)
    requires few { M ≤ 16 }
    requires small { All IsCoefficient fir.now }
    requires shift { shift < 16 }
    requires any { 0 < I }
    requires kept { I ≤ 16 }
    requires room { 16 ≤ length outputs.now }
    ensures value { differences.new ≡ take I (past_of (filters_in fir.now [] shift)
        (record { outputs = reverse (take 16 outputs.now); differences = differences.old })
        (drop 16 outputs.now)).differences }
    ensures count { length differences.new ≡ I }
{
    let _ = differences.as_slice();
    let count = outputs.len() - 16;
    for i in count - count.min(I)..count {
        let prediction = predict_alone(fir, shift, outputs, i);
        differences.push(difference_of(outputs[16 + i], prediction));
    }
}
