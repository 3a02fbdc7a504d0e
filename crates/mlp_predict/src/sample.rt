//! One sample: sums, outputs, differences and residuals.

ghost use Rattle.std.specs.Prelude.{◌≡◌, ◌↔◌, ◌<◌, ◌≤◌, ◌^◌, All, length, pos, neg_ℤ, ◌+ℤ◌, ◌-ℤ◌, ◌≤ℤ◌, FitsSigned, IsSome, IfSome};
ghost use Rattle.std.specs.Int.{w32};
ghost use Rattle.mlp_arith.specs.Words.{clear, wrap};
ghost use Rattle.mlp_predict.specs.Prediction.{dot, IsCoefficient};

use mlp_arith::{clear, wrap};

/// The sum of at most 16 coefficients of 16 signed bits times the values that they belong to, the first to the first.
#[inline]
pub fn dot(coeffs: &[i32], values: &[i32]) -> i64
    requires few { length coeffs.now ≤ 16 }
    requires known { length coeffs.now ≤ length values.now }
    requires small { All IsCoefficient coeffs.now }
    ensures sum { result ≡ dot coeffs.now values.now }
    ensures low { neg_ℤ (pos (2 ^ 50)) ≤ℤ result }
    ensures high { result ≤ℤ pos (2 ^ 50) }
{
    let mut sum: i64 = 0;
    for i in 0..coeffs.len() {
        sum += i64::from(coeffs[i]) * i64::from(values[i]);
    }
    sum
}

/// The output for a prediction and a residual.
#[inline]
pub fn output_of(step: u8, prediction: i64, residual: i32) -> i32
    requires step { step < 16 }
    requires low { neg_ℤ (pos (2 ^ 51)) ≤ℤ prediction }
    requires high { prediction ≤ℤ pos (2 ^ 51) }
    ensures { result ≡ wrap (clear step (prediction +ℤ residual)) }
{
    wrap(clear(step, prediction + i64::from(residual)))
}

/// What an output has above its prediction.
#[inline]
pub fn difference_of(output: i32, prediction: i64) -> i32
    requires low { neg_ℤ (pos (2 ^ 51)) ≤ℤ prediction }
    requires high { prediction ≤ℤ pos (2 ^ 51) }
    ensures { result ≡ wrap (output -ℤ prediction) }
{
    wrap(i64::from(output) - prediction)
}

/// A number of 64 bits as one of 32, where it fits.
#[inline]
fn narrowed(v: i64) -> Option<i32>
    ensures fits { IsSome result ↔ FitsSigned w32 v }
    ensures value { IfSome result (λ r. r ≡ v) }
{
    if v < -2147483648 {
        return None;
    }
    if v > 2147483647 {
        return None;
    }
    Some(v as i32)
}

/// How far a sample is above its cleared prediction.
#[inline]
fn gap_of(step: u8, prediction: i64, sample: i32) -> i64
    requires step { step < 16 }
    requires low { neg_ℤ (pos (2 ^ 51)) ≤ℤ prediction }
    requires high { prediction ≤ℤ pos (2 ^ 51) }
    ensures { result ≡ sample -ℤ clear step prediction }
{
    i64::from(sample) - clear(step, prediction)
}

/// The residual from which a prediction gives the sample, or None where it hasn't 32 signed bits.
#[inline]
pub fn residual_of(step: u8, prediction: i64, sample: i32) -> Option<i32>
    requires step { step < 16 }
    requires low { neg_ℤ (pos (2 ^ 51)) ≤ℤ prediction }
    requires high { prediction ≤ℤ pos (2 ^ 51) }
    ensures fits { IsSome result ↔ FitsSigned w32 (sample -ℤ clear step prediction) }
    ensures value { IfSome result (λ r. r ≡ sample -ℤ clear step prediction) }
{
    narrowed(gap_of(step, prediction, sample))
}
