//! Rows in order, over one frame and over many.

ghost use Rattle.std.specs.Prelude.{◌≡◌, ◌<◌, ◌≤◌, ◌==◌, length, map, false, All};
ghost use Rattle.mlp_predict.specs.Prediction.{IsCoefficient};
ghost use Rattle.mlp_matrix.specs.Front.{AreUsed};
ghost use Rattle.mlp_matrix.specs.Matrix.{applied, applied_each, weights, weighted, weighted_each, has_bit, IsRow, AreRows};

use crate::row::{put_weighted, weights};
use mlp_syntax::MatrixRow;

/// Whether bit `i` is set.
#[inline]
fn has_bit(bits: u8, i: usize) -> bool
    requires { i < 8 }
    ensures { result ≡ has_bit bits i }
{
    (bits >> i) & 1 == 1
}

/// Applies the rows in order to a frame of `channels` channels, behind which, where the rows have noise sources, the
/// two noise values stand. Row `i` adds bit `i` of `bypass`, the bits that were read for this frame.
pub fn apply(rows: &[MatrixRow], steps: &[u8], channels: u8, frame: &mut [i32; 10], bypass: u8)
    requires { AreRows rows.now steps.now channels }
    ensures { frame.new ≡ applied rows.now steps.now bypass frame.old }
{
    for i in 0..rows.len() {
        let row = &rows[i];
        let dest = usize::from(row.dest);
        let weights: [i32; 10] = weights(row.coeffs.as_slice(), row.frac);
        put_weighted(&weights, dest, steps[dest], has_bit(bypass, i), frame);
    }
}

/// The greatest of these, 0 where no bit is set in any.
fn greatest_of(bypass: &[u8]) -> u8
    ensures { All (λ bits. bits ≤ result) bypass.now }
{
    let mut greatest = 0;
    for i in 0..bypass.len() {
        greatest = bypass[i].max(greatest);
    }
    greatest
}

/// Puts what `M` weights make of each frame at its destination, without a bypassed bit.
fn put_each_clear<const M: usize>(
    weights: &[i32; M],
    dest: usize,
    step: u8,
    frames: &mut [[i32; 10]],
)
    requires few { M ≤ 10 }
    requires small { All IsCoefficient weights.now }
    requires dest { dest < 10 }
    requires step { step < 16 }
    ensures { frames.new ≡ map (weighted weights.now dest step false) frames.old }
{
    for i in 0..frames.len() {
        put_weighted(weights, dest, step, false, &mut frames[i]);
    }
}

/// Puts what `M` weights of the row at place `index` make of each frame at its destination.
fn put_each<const M: usize>(
    weights: &[i32; M],
    dest: usize,
    step: u8,
    index: usize,
    frames: &mut [[i32; 10]],
    bypass: &[u8],
)
    requires few { M ≤ 10 }
    requires small { All IsCoefficient weights.now }
    requires dest { dest < 10 }
    requires step { step < 16 }
    requires index { index < 8 }
    requires bits { length bypass.now ≡ length frames.old }
    ensures { frames.new ≡ weighted_each weights.now dest step index bypass.now frames.old }
{
    let bits = greatest_of(bypass);
    if bits == 0 {
        put_each_clear(weights, dest, step, frames);
        return;
    }
    for i in 0..frames.len() {
        let bit = has_bit(bypass[i], index);
        put_weighted(weights, dest, step, bit, &mut frames[i]);
    }
}

/// How many coefficients there are up to the last one that isn't left out.
fn used(coeffs: &[Option<i32>]) -> usize
    ensures count { result ≤ length coeffs.now }
    ensures used { AreUsed result coeffs.now }
{
    for at in (0..coeffs.len()).rev() {
        if coeffs[at].is_some() {
            return at + 1;
        }
    }
    0
}

/// One row over many frames, by sums of `M` products. The coefficients behind the first `count` are left out.
fn put_row<const M: usize>(
    row: &MatrixRow,
    count: usize,
    step: u8,
    index: usize,
    frames: &mut [[i32; 10]],
    bypass: &[u8],
)
    requires few { M ≤ 10 }
    requires room { count ≤ M }
    requires count { count ≤ length row.now.coeffs.items }
    requires used { AreUsed count row.now.coeffs.items }
    requires row { IsRow 8 row.now }
    requires step { step < 16 }
    requires index { index < 8 }
    requires bits { length bypass.now ≡ length frames.old }
    ensures { frames.new ≡ weighted_each (weights row.now) row.now.dest step index bypass.now frames.old }
{
    let coeffs = &row.coeffs.as_slice()[..count];
    let weights: [i32; M] = weights(coeffs, row.frac);
    put_each(&weights, usize::from(row.dest), step, index, frames, bypass);
}

/// One row over many frames.
fn put_row_each(row: &MatrixRow, step: u8, index: usize, frames: &mut [[i32; 10]], bypass: &[u8])
    requires row { IsRow 8 row.now }
    requires step { step < 16 }
    requires index { index < 8 }
    requires bits { length bypass.now ≡ length frames.old }
    ensures { frames.new ≡ weighted_each (weights row.now) row.now.dest step index bypass.now frames.old }
{
    let count = used(row.coeffs.as_slice());
    match count {
        0..=2 => put_row::<2>(row, count, step, index, frames, bypass),
        3..=4 => put_row::<4>(row, count, step, index, frames, bypass),
        5..=6 => put_row::<6>(row, count, step, index, frames, bypass),
        7..=8 => put_row::<8>(row, count, step, index, frames, bypass),
        _ => put_row::<10>(row, count, step, index, frames, bypass),
    }
}

/// Does to each frame what `apply` does, with its own bypassed bits. A row's weights are prepared once.
pub fn apply_block(
    rows: &[MatrixRow],
    steps: &[u8],
    channels: u8,
    frames: &mut [[i32; 10]],
    bypass: &[u8],
)
    requires rows { AreRows rows.now steps.now channels }
    requires bits { length bypass.now ≡ length frames.old }
    ensures { frames.new ≡ applied_each rows.now steps.now bypass.now frames.old }
{
    for i in 0..rows.len() {
        let row = &rows[i];
        put_row_each(row, steps[usize::from(row.dest)], i, frames, bypass);
    }
}
