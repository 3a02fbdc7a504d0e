//! The residuals of a block of a channel without an IIR: its samples lie in one line behind the latest outputs.

ghost use Rattle.std.specs.Prelude.{◌≡◌, ◌↔◌, ◌<◌, ◌≤◌, ◌+◌, ◌-◌, ◌++◌, [], take, drop, reverse, replicate, length, All, FitsSigned, IsTrue, pos};
ghost use Rattle.std.specs.Int.{w32};
ghost use Rattle.mlp_predict.specs.Prediction.{residuals_of, IsCoefficient};
ghost use Rattle.mlp_predict.specs.Lines.{past_in, filters_in};

use crate::alone::predict_alone;
use crate::lines::put_before;
use crate::sample::residual_of;

/// Puts the residuals of the block; false where one of them hasn't 32 signed bits.
#[inline(always)]
fn reduce_alone<const M: usize>(
    fir: &[i32; M],
    shift: u8,
    step: u8,
    outputs: &[i32],
    residuals: &mut [i32],
) -> bool
    requires few { M ≤ 16 }
    requires small { All IsCoefficient fir.now }
    requires shift { shift < 16 }
    requires step { step < 16 }
    requires room { length outputs.now ≡ 16 + length residuals.old }
    ensures fit { IsTrue result ↔ All (FitsSigned w32)
        (residuals_of (filters_in fir.now [] shift) (past_in (take 16 outputs.now) []) step (drop 16 outputs.now)) }
    ensures values { IsTrue result → residuals.new
        ≡ residuals_of (filters_in fir.now [] shift) (past_in (take 16 outputs.now) []) step (drop 16 outputs.now) }
{
    for i in 0..residuals.len() {
        let prediction = predict_alone(fir, shift, outputs, i);
        match residual_of(step, prediction, outputs[16 + i]) {
            Some(residual) => residuals[i] = residual,
            None => return false,
        }
    }
    true
}

/// Puts the residuals of a block behind the latest outputs, and both in one line; false where a residual hasn't 32
/// signed bits.
#[inline(always)]
pub fn reduce_behind<const M: usize>(
    fir: &[i32; M],
    shift: u8,
    step: u8,
    latest: &[i32],
    outputs: &mut [i32],
    samples: &[i32],
    residuals: &mut [i32],
) -> bool
    requires few { M ≤ 16 }
    requires small { All IsCoefficient fir.now }
    requires shift { shift < 16 }
    requires step { step < 16 }
    requires latest_few { length latest.now ≤ 16 }
    requires empty { outputs.old ≡ replicate (length outputs.old) (pos 0) }
    requires most { 16 + length samples.now ≤ length outputs.old }
    requires room { length samples.now ≡ length residuals.old }
    ensures fit { IsTrue result ↔ All (FitsSigned w32) (residuals_of (filters_in fir.now [] shift)
        (record { outputs = latest.now; differences = [] }) step samples.now) }
    ensures values { IsTrue result → residuals.new ≡ residuals_of (filters_in fir.now [] shift)
        (record { outputs = latest.now; differences = [] }) step samples.now }
    ensures line { take (16 + length samples.now) outputs.new
        ≡ (replicate (16 - length latest.now) (pos 0) ++ reverse latest.now) ++ samples.now }
{
    let end = 16 + samples.len();
    put_before(latest, outputs);
    outputs[16..end].copy_from_slice(samples);
    reduce_alone(fir, shift, step, &outputs[..end], residuals)
}
