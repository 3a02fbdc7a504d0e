//! One row over one frame.

ghost use Rattle.std.specs.Prelude.{◌≡◌, ◌-◌, ◌++◌, ◌<◌, ◌≤◌, ◌^◌, length, All, pos, neg_ℤ, ◌+ℤ◌, ◌≤ℤ◌, replicate};
ghost use Rattle.mlp_arith.specs.Words.{floor_by, clear, wrap};
ghost use Rattle.mlp_predict.specs.Prediction.{IsCoefficient};
ghost use Rattle.mlp_matrix.specs.Matrix.{weight, weights_of, bit_of, weighted};

use mlp_arith::{clear, floor_by, wrap};
use mlp_predict::dot;

/// The weight of a coefficient.
fn weight(coefficient: Option<i32>, frac: u8) -> i32
    requires frac { frac ≤ 14 }
    requires small { IsCoefficient (weight frac coefficient) }
    ensures { result ≡ weight frac coefficient }
{
    match coefficient {
        Some(field) => field * (1 << (14 - frac)),
        None => 0,
    }
}

/// The weights of a row with these coefficients, with zeros behind them.
pub fn weights<const M: usize>(coeffs: &[Option<i32>], frac: u8) -> [i32; M]
    requires frac { frac ≤ 14 }
    requires small { All IsCoefficient (weights_of frac coeffs.now) }
    requires room { length coeffs.now ≤ M }
    ensures value { result ≡ weights_of frac coeffs.now ++ replicate (M - length coeffs.now) (pos 0) }
    ensures small { All IsCoefficient result }
{
    let mut weights = [0; M];
    for i in 0..coeffs.len() {
        weights[i] = weight(coeffs[i], frac);
    }
    weights
}

/// A flag as a number.
#[inline]
fn bit_of(bit: bool) -> i64
    ensures value { result ≡ bit_of bit }
    ensures low { pos 0 ≤ℤ result }
    ensures high { result ≤ℤ pos 1 }
{
    if bit { 1 } else { 0 }
}

/// A weighted sum as a channel's value.
#[inline]
fn value_of(sum: i64, step: u8, bit: bool) -> i32
    requires low { neg_ℤ (pos (2 ^ 50)) ≤ℤ sum }
    requires high { sum ≤ℤ pos (2 ^ 50) }
    requires step { step < 16 }
    ensures { result ≡ wrap (clear step (floor_by 14 sum) +ℤ bit_of bit) }
{
    wrap(clear(step, floor_by(14, sum)) + bit_of(bit))
}

/// Puts what the weights make of a frame at its destination.
#[inline]
pub fn put_weighted(weights: &[i32], dest: usize, step: u8, bit: bool, frame: &mut [i32])
    requires few { length weights.now ≤ 16 }
    requires known { length weights.now ≤ length frame.old }
    requires small { All IsCoefficient weights.now }
    requires dest { dest < length frame.old }
    requires step { step < 16 }
    ensures { frame.new ≡ weighted weights.now dest step bit frame.old }
{
    frame[dest] = value_of(dot(weights, frame), step, bit);
}
