//! Runs a kernel over many blocks, at a step, and prints a sum of what it gives.
#![tactic(auto)]

ghost use Rattle.std.specs.Prelude.{◌≡◌, ◌≤◌, ◌<◌, length, All};
ghost use Rattle.mlp_predict.specs.Filters.{IsFilter, AreFilters, scaled};
ghost use Rattle.mlp_predict.specs.Prediction.{IsCoefficient};
ghost use Rattle.mlp_matrix.specs.Matrix.{IsRow};

use arrayvec::ArrayVec;
use mlp_matrix::apply_block;
use mlp_predict::Predictor;
use mlp_syntax::{Filter, MatrixRow};
use std::{env, io};

/// A filter with these coefficients over 2^6.
fn filter<const N: usize>(coeffs: &[i32]) -> Filter<N>
    requires few { length coeffs.now ≤ N }
    requires small { All IsCoefficient (scaled 0 coeffs.now) }
    ensures { IsFilter result }
{
    let mut fields: ArrayVec<i32, N> = ArrayVec::new();
    for i in 0..coeffs.len() {
        fields.push(coeffs[i]);
    }
    Filter {
        shift: 6,
        coeff_bits: 16,
        coeff_shift: 0,
        coeffs: fields,
        state: None,
    }
}

/// Residuals of a generator.
fn residuals() -> [i32; 160] {
    let mut seed: i32 = 1;
    let mut block = [0; 160];
    for i in 0..160 {
        seed = seed.wrapping_mul(1103515245).wrapping_add(12345);
        block[i] = seed >> 20;
    }
    block
}

/// Restores a block of residuals so many times.
fn restored(fir: &Filter<8>, iir: &Filter<4>, step: u8, count: u32) -> i32
    requires filters { AreFilters fir.now iir.now }
    requires step { step < 16 }
{
    let from = residuals();
    let mut channel = Predictor::<8, 4>::new();
    let mut sum: i32 = 0;
    for _ in 0..count {
        let mut block = from;
        channel.restore_block(fir, iir, step, &mut block);
        sum = sum.wrapping_add(block[159]);
    }
    sum
}

/// A row of six weights to the first channel.
fn row() -> MatrixRow
    ensures { IsRow 6 result }
{
    let mut coeffs: ArrayVec<Option<i32>, 10> = ArrayVec::new();
    coeffs.push(Some(8192));
    coeffs.push(Some(-11585));
    coeffs.push(Some(3000));
    coeffs.push(Some(-5793));
    coeffs.push(Some(4096));
    coeffs.push(Some(1000));
    MatrixRow {
        dest: 0,
        frac: 14,
        bypass: false,
        coeffs,
        noise_shift: 0,
    }
}

/// Applies a row of six weights to a block so many times.
fn matrixed(step: u8, count: u32) -> i32
    requires { step < 16 }
{
    let rows = [row()];
    let steps = [step; 6];
    let bypass = [0; 160];
    let from = residuals();
    let mut frames = [[0; 10]; 160];
    let mut sum: i32 = 0;
    for i in 0..160 {
        frames[i] = [from[i]; 10];
    }
    for _ in 0..count {
        apply_block(&rows, &steps, 6, &mut frames, &bypass);
        sum = sum.wrapping_add(frames[159][0]);
    }
    sum
}

/// Restores by filters of some orders, with coefficients from a list on.
fn filtered(fir: &[i32], iir: &[i32], step: u8, count: u32) -> i32
    requires fir_few { length fir.now ≤ 8 }
    requires iir_few { length iir.now ≤ 4 }
    requires fir_small { All IsCoefficient (scaled 0 fir.now) }
    requires iir_small { All IsCoefficient (scaled 0 iir.now) }
    requires step { step < 16 }
{
    restored(&filter(fir), &filter(iir), step, count)
}

fn run(kernel: &str, step: u8, count: u32) -> i32
    requires { step < 16 }
{
    if kernel == "matrix6" {
        return matrixed(step, count);
    }
    if kernel == "fir8" {
        return filtered(&[1, 2, 3, 4, 5, 6, 7, 8], &[], step, count);
    }
    if kernel == "fir4" {
        return filtered(&[2, -1, 3, 1], &[], step, count);
    }
    if kernel == "fir2" {
        return filtered(&[2, -1], &[], step, count);
    }
    if kernel == "fir8iir4" {
        return filtered(&[1, 2, 3, 4, 5, 6, 7, 8], &[4, 3, -2, 1], step, count);
    }
    if kernel == "fir4iir2" {
        return filtered(&[2, -1, 3, 1], &[4, -2], step, count);
    }
    filtered(&[8, -4], &[-2], step, count)
}

fn main(rt: HostRuntime) -> io::Result<()> {
    let words: Vec<String> = env::args(&rt)?.skip(1).collect(rt.alloc())?;
    if words.len() < 3 {
        println!(rt; "usage: KERNEL STEP BLOCKS")?;
        return Ok(());
    }
    let step = words[1].parse::<u8>().unwrap_or(0) & 15;
    let count = words[2].parse::<u32>().unwrap_or(0);
    println!(rt; "{}", run(&words[0], step, count))?;
    Ok(())
}
