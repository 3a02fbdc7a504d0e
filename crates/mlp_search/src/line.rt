//! What filters without an IIR leave of a block that lies in one line behind the latest outputs.

ghost use Rattle.std.specs.Prelude.{◌≡◌, ℕ, ◌≤◌, ◌<◌, ◌+◌, [], List, ◌++◌, length, map, take, reverse, get_or, All, FitsSigned, IsTrue, ℤ, pos, ◌-ℤ◌, unsigned_abs};
ghost use Rattle.std.specs.Int.{w32};
ghost use Rattle.mlp_arith.specs.Words.{floor_by, clear, wrap};
ghost use Rattle.mlp_arith.specs.Ranges.{Is26};
ghost use Rattle.mlp_predict.specs.Prediction.{Past, dot, IsCoefficient};
ghost use Rattle.mlp_predict.specs.Filters.{AreFilters};
ghost use Rattle.mlp_predict.specs.Lines.{filters_in};
ghost use Rattle.mlp_search.specs.Folded.{sizes, stepped};
ghost use Rattle.mlp_search.specs.Candidates.{residuals_for};
ghost use Rattle.mlp_search.specs.Lines.{low_part, alone_by, left_in, AreNear, AreShort, IsLight, IsLine, IsIn};

use crate::pair::PairRef;
use crate::reduction::count_steps;
use mlp_arith::clear;
use mlp_predict::Predictor;

/// A block behind the 8 latest outputs, the oldest first, in quantisation steps.
#[derive(Drop)]
pub struct Line<'a> {
    /// Whether that is so: the outputs must be whole steps of 26 bits.
    pub narrow: bool,
    /// No value is farther from 0.
    pub far: u32,
    pub whole: &'a [i32],
    /// All over 2^13, rounded down.
    pub high: &'a [i32],
    /// What they have above 2^13 times that.
    pub low: &'a [i32],
}

/// The sum of coefficients times values, wrapped to 32 bits.
#[inline(always)]
fn wrapped_dot<const M: usize>(coeffs: &[i32; M], values: &[i32]) -> i32
    requires known { M ≤ length values.now }
    ensures { result ≡ wrap (dot coeffs.now values.now) }
{
    let mut sum: i32 = 0;
    for i in 0..M {
        sum = sum.wrapping_add(coeffs[i].wrapping_mul(values[i]));
    }
    sum
}

/// The sum of coefficients, the first for the oldest value, times the values before value `i` of the block, wrapped to
/// 32 bits.
#[inline(always)]
fn dot_before<const M: usize>(fir: &[i32; M], line: &[i32], i: usize) -> i32
    requires few { M ≤ 8 }
    requires within { 8 + i < length line.now }
    ensures { result ≡ wrap (dot (reverse fir.now) (reverse (take (8 + i) line.now))) }
{
    wrapped_dot(fir, &line[8 + i - M..8 + i])
}

/// Value `i` of the block less its prediction by one sum, with coefficients of which the first is for the oldest value.
#[inline(always)]
fn short_at<const M: usize>(fir: &[i32; M], shift: u8, whole: &[i32], i: usize) -> i32
    requires few { M ≤ 8 }
    requires short { AreShort (reverse fir.now) whole.now }
    requires shift { shift < 16 }
    requires small { All Is26 whole.now }
    requires within { 8 + i < length whole.now }
    ensures { result ≡ get_or whole.now (8 + i) (pos 0)
        -ℤ floor_by shift (dot (reverse fir.now) (reverse (take (8 + i) whole.now))) }
{
    let sum = dot_before(fir, whole, i);
    whole[8 + i] - (sum >> shift)
}

/// Value `i` of the block less its prediction by coefficients of 16 bits, by sums over the high and the low parts.
#[inline(always)]
fn split_at<const M: usize>(
    fir: &[i32; M],
    shift: u8,
    whole: &[i32],
    high: &[i32],
    low: &[i32],
    i: usize,
) -> i32
    requires few { M ≤ 8 }
    requires small_coeffs { All IsCoefficient fir.now }
    requires least_shift { 13 ≤ shift }
    requires most_shift { shift < 16 }
    requires small { All Is26 whole.now }
    requires high_parts { high.now ≡ map (floor_by 13) whole.now }
    requires low_parts { low.now ≡ map low_part whole.now }
    requires within { 8 + i < length whole.now }
    ensures { result ≡ get_or whole.now (8 + i) (pos 0)
        -ℤ floor_by shift (dot (reverse fir.now) (reverse (take (8 + i) whole.now))) }
{
    let high_sum = dot_before(fir, high, i);
    let low_sum = dot_before(fir, low, i);
    whole[8 + i] - ((high_sum + (low_sum >> 13)) >> (shift - 13))
}

/// Puts what coefficients leave of the block, by one sum for each value.
#[inline(always)]
pub(crate) fn reduce_short<const M: usize>(
    fir: &[i32; M],
    shift: u8,
    whole: &[i32],
    values: &mut [i32],
)
    requires few { M ≤ 8 }
    requires short { AreShort (reverse fir.now) whole.now }
    requires shift { shift < 16 }
    requires small { All Is26 whole.now }
    requires room { length whole.now ≡ 8 + length values.old }
    ensures { values.new ≡ left_in (filters_in fir.now [] shift) whole.now }
{
    for i in 0..values.len() {
        values[i] = short_at(fir, shift, whole, i);
    }
}

/// Puts what coefficients of 16 bits leave of the block.
#[inline(always)]
fn reduce_split<const M: usize>(
    fir: &[i32; M],
    shift: u8,
    whole: &[i32],
    high: &[i32],
    low: &[i32],
    values: &mut [i32],
)
    requires few { M ≤ 8 }
    requires small_coeffs { All IsCoefficient fir.now }
    requires least_shift { 13 ≤ shift }
    requires most_shift { shift < 16 }
    requires small { All Is26 whole.now }
    requires high_parts { high.now ≡ map (floor_by 13) whole.now }
    requires low_parts { low.now ≡ map low_part whole.now }
    requires room { length whole.now ≡ 8 + length values.old }
    ensures { values.new ≡ left_in (filters_in fir.now [] shift) whole.now }
{
    for i in 0..values.len() {
        values[i] = split_at(fir, shift, whole, high, low, i);
    }
}

/// The coefficients, the first for the oldest value.
#[inline]
fn taps_of<const M: usize>(coeffs: &[i32]) -> [i32; M]
    requires { length coeffs.now ≡ M }
    ensures { reverse result ≡ coeffs.now }
{
    let mut taps = [0; M];
    taps.copy_from_slice(coeffs);
    taps.reverse();
    taps
}

/// Puts what `M` coefficients leave of the block, by one sum for each value.
#[inline(always)]
fn put_short<const M: usize>(coeffs: &[i32], shift: u8, whole: &[i32], values: &mut [i32])
    requires few { M ≤ 8 }
    requires count { length coeffs.now ≡ M }
    requires short { AreShort coeffs.now whole.now }
    requires shift { shift < 16 }
    requires small { All Is26 whole.now }
    requires room { length whole.now ≡ 8 + length values.old }
    ensures { values.new ≡ left_in (alone_by coeffs.now shift) whole.now }
{
    let taps: [i32; M] = taps_of(coeffs);
    reduce_short(&taps, shift, whole, values);
}

/// Puts what `M` coefficients of 16 bits leave of the block.
fn put_split<const M: usize>(
    coeffs: &[i32],
    shift: u8,
    whole: &[i32],
    high: &[i32],
    low: &[i32],
    values: &mut [i32],
)
    requires few { M ≤ 8 }
    requires count { length coeffs.now ≡ M }
    requires small_coeffs { All IsCoefficient coeffs.now }
    requires least_shift { 13 ≤ shift }
    requires most_shift { shift < 16 }
    requires small { All Is26 whole.now }
    requires high_parts { high.now ≡ map (floor_by 13) whole.now }
    requires low_parts { low.now ≡ map low_part whole.now }
    requires room { length whole.now ≡ 8 + length values.old }
    ensures { values.new ≡ left_in (alone_by coeffs.now shift) whole.now }
{
    let taps: [i32; M] = taps_of(coeffs);
    reduce_split(&taps, shift, whole, high, low, values);
}

/// Puts what at most 4 light coefficients leave of the block.
#[inline(always)]
fn put_any_light(coeffs: &[i32], shift: u8, whole: &[i32], values: &mut [i32])
    requires few { length coeffs.now ≤ 4 }
    requires light { All IsLight coeffs.now }
    requires shift { shift < 16 }
    requires small { All Is26 whole.now }
    requires room { length whole.now ≡ 8 + length values.old }
    ensures { values.new ≡ left_in (alone_by coeffs.now shift) whole.now }
{
    match coeffs.len() {
        0 => put_short::<0>(coeffs, shift, whole, values),
        1 => put_short::<1>(coeffs, shift, whole, values),
        2 => put_short::<2>(coeffs, shift, whole, values),
        3 => put_short::<3>(coeffs, shift, whole, values),
        _ => put_short::<4>(coeffs, shift, whole, values),
    }
}

/// Puts what at most 8 coefficients leave of the block, by one sum for each value.
#[inline(never)]
fn put_any_short(coeffs: &[i32], shift: u8, whole: &[i32], values: &mut [i32])
    requires few { length coeffs.now ≤ 8 }
    requires short { AreShort coeffs.now whole.now }
    requires shift { shift < 16 }
    requires small { All Is26 whole.now }
    requires room { length whole.now ≡ 8 + length values.old }
    ensures { values.new ≡ left_in (alone_by coeffs.now shift) whole.now }
{
    match coeffs.len() {
        0 => put_short::<0>(coeffs, shift, whole, values),
        1 => put_short::<1>(coeffs, shift, whole, values),
        2 => put_short::<2>(coeffs, shift, whole, values),
        3 => put_short::<3>(coeffs, shift, whole, values),
        4 => put_short::<4>(coeffs, shift, whole, values),
        5 => put_short::<5>(coeffs, shift, whole, values),
        6 => put_short::<6>(coeffs, shift, whole, values),
        7 => put_short::<7>(coeffs, shift, whole, values),
        _ => put_short::<8>(coeffs, shift, whole, values),
    }
}

/// Puts what at most 8 coefficients of 16 bits leave of the block.
#[inline(never)]
fn put_any_split(
    coeffs: &[i32],
    shift: u8,
    whole: &[i32],
    high: &[i32],
    low: &[i32],
    values: &mut [i32],
)
    requires few { length coeffs.now ≤ 8 }
    requires small_coeffs { All IsCoefficient coeffs.now }
    requires least_shift { 13 ≤ shift }
    requires most_shift { shift < 16 }
    requires small { All Is26 whole.now }
    requires high_parts { high.now ≡ map (floor_by 13) whole.now }
    requires low_parts { low.now ≡ map low_part whole.now }
    requires room { length whole.now ≡ 8 + length values.old }
    ensures { values.new ≡ left_in (alone_by coeffs.now shift) whole.now }
{
    match coeffs.len() {
        0 => put_split::<0>(coeffs, shift, whole, high, low, values),
        1 => put_split::<1>(coeffs, shift, whole, high, low, values),
        2 => put_split::<2>(coeffs, shift, whole, high, low, values),
        3 => put_split::<3>(coeffs, shift, whole, high, low, values),
        4 => put_split::<4>(coeffs, shift, whole, high, low, values),
        5 => put_split::<5>(coeffs, shift, whole, high, low, values),
        6 => put_split::<6>(coeffs, shift, whole, high, low, values),
        7 => put_split::<7>(coeffs, shift, whole, high, low, values),
        _ => put_split::<8>(coeffs, shift, whole, high, low, values),
    }
}

/// Whether all coefficients are light.
#[inline(always)]
fn are_light(coeffs: &[i32]) -> bool
    ensures { IsTrue result → All IsLight coeffs.now }
{
    for coeff in coeffs {
        if *coeff < -15 {
            return false;
        }
        if *coeff > 15 {
            return false;
        }
    }
    true
}

/// How far a value is from 0.
#[inline]
fn distance(value: &i32) -> u32
    ensures value { result ≡ unsigned_abs value.now }
    ensures few { result ≤ 2147483648 }
{
    value.unsigned_abs()
}

/// The sum of the sizes of coefficients.
fn size_of(coeffs: &[i32]) -> u64
    requires few { length coeffs.now ≤ 8 }
    requires small_coeffs { All IsCoefficient coeffs.now }
    ensures value { result ≡ sizes coeffs.now }
    ensures few { result ≤ 262144 }
{
    let mut sum: u64 = 0;
    for coeff in coeffs {
        sum += u64::from(distance(coeff));
    }
    sum
}

/// Whether no sum of values of the line, times these coefficients, is too far from 0 for 32 bits.
fn are_short(coeffs: &[i32], line: &Line<'_>) -> bool
    requires few { length coeffs.now ≤ 8 }
    requires small_coeffs { All IsCoefficient coeffs.now }
    requires near { AreNear line.now.far line.now.whole.now }
    ensures { IsTrue result → AreShort coeffs.now line.now.whole.now }
{
    if size_of(coeffs) * u64::from(line.far) > 2013265920 {
        return false;
    }
    true
}

/// Puts what coefficients of 16 bits leave of the block, by one sum for each value where that serves.
#[inline(always)]
fn put_any(coeffs: &[i32], shift: u8, line: &Line<'_>, values: &mut [i32])
    requires few { length coeffs.now ≤ 8 }
    requires small_coeffs { All IsCoefficient coeffs.now }
    requires least_shift { 13 ≤ shift }
    requires most_shift { shift < 16 }
    requires near { AreNear line.now.far line.now.whole.now }
    requires small { All Is26 line.now.whole.now }
    requires high_parts { line.now.high.now ≡ map (floor_by 13) line.now.whole.now }
    requires low_parts { line.now.low.now ≡ map low_part line.now.whole.now }
    requires room { length line.now.whole.now ≡ 8 + length values.old }
    ensures { values.new ≡ left_in (alone_by coeffs.now shift) line.now.whole.now }
{
    if are_short(coeffs, line) {
        return put_any_short(coeffs, shift, line.whole, values);
    }
    put_any_split(coeffs, shift, line.whole, line.high, line.low, values);
}

/// Puts what a FIR leaves of the block, where its coefficients are light or its shift is at least 13; else false.
#[inline(always)]
fn reduce_by(coeffs: &[i32], shift: u8, line: &Line<'_>, values: &mut [i32]) -> bool
    requires few { length coeffs.now ≤ 8 }
    requires small_coeffs { All IsCoefficient coeffs.now }
    requires shift { shift < 16 }
    requires near { AreNear line.now.far line.now.whole.now }
    requires small { All Is26 line.now.whole.now }
    requires high_parts { line.now.high.now ≡ map (floor_by 13) line.now.whole.now }
    requires low_parts { line.now.low.now ≡ map low_part line.now.whole.now }
    requires room { length line.now.whole.now ≡ 8 + length values.old }
    ensures value { IsTrue result → values.new ≡ left_in (alone_by coeffs.now shift) line.now.whole.now }
    ensures fits { IsTrue result →
        (q : ℕ) → q ≤ 8 → All Is26 (map (stepped q) line.now.whole.now) →
        All (FitsSigned w32) (map (stepped q) values.new) }
{
    if coeffs.len() <= 4 {
        if are_light(coeffs) {
            put_any_light(coeffs, shift, line.whole, values);
            return true;
        }
    }
    if shift < 13 {
        return false;
    }
    put_any(coeffs, shift, line, values);
    true
}

/// Puts what filters without an IIR leave of the block, in quantisation steps; false where that isn't done here.
#[inline(always)]
pub(crate) fn reduce_in(pair: &PairRef<'_>, line: &Line<'_>, values: &mut [i32]) -> bool
    requires filters { AreFilters pair.now.fir pair.now.iir }
    requires room { length line.now.whole.now ≡ 8 + length values.old }
    requires near { AreNear line.now.far line.now.whole.now }
    requires small { All Is26 line.now.whole.now }
    requires high_parts { line.now.high.now ≡ map (floor_by 13) line.now.whole.now }
    requires low_parts { line.now.low.now ≡ map low_part line.now.whole.now }
    ensures value { IsTrue result →
        (step : ℕ) (past : Past) (samples : List ℤ) (n : ℕ) → IsIn step past samples line.now →
        map (stepped step) values.new ≡ residuals_for past step samples n pair.now }
    ensures fits { IsTrue result →
        (step : ℕ) (past : Past) (samples : List ℤ) → step ≤ 8 → IsIn step past samples line.now →
        All (FitsSigned w32) (map (stepped step) values.new) }
{
    if !pair.iir.coeffs.is_empty() {
        return false;
    }
    if pair.fir.coeff_shift > 0 {
        return false;
    }
    let coeffs = pair.fir.coeffs.as_slice();
    let shift = if coeffs.is_empty() {
        pair.iir.shift
    } else {
        pair.fir.shift
    };
    reduce_by(coeffs, shift, line, values)
}

/// Puts outputs, the latest first, and samples in one line, the oldest first.
fn put_whole(outputs: &[i32], samples: &[i32], whole: &mut [i32])
    requires eight { length outputs.now ≡ 8 }
    requires room { length whole.old ≡ 8 + length samples.now }
    ensures { whole.new ≡ reverse outputs.now ++ samples.now }
{
    whole[..8].copy_from_slice(outputs);
    whole[..8].reverse();
    whole[8..].copy_from_slice(samples);
}

/// Whether a value has 26 signed bits, and the low `step` of them are 0.
fn is_narrow(step: u8, value: &i32) -> bool
    requires { step ≤ 8 }
    ensures whole { IsTrue result → clear step value.now ≡ value.now }
    ensures small { IsTrue result → Is26 value.now }
{
    let wide = i64::from(*value);
    if clear(step, wide) != wide {
        return false;
    }
    if *value < -33554432 {
        return false;
    }
    *value < 33554432
}

/// Whether all values are narrow.
fn are_narrow(step: u8, values: &[i32]) -> bool
    requires { step ≤ 8 }
    ensures whole { IsTrue result → All (λ x. clear step x ≡ x) values.now }
    ensures small { IsTrue result → All Is26 values.now }
{
    for value in values {
        if !is_narrow(step, value) {
            return false;
        }
    }
    true
}

/// Puts values over 2^13.
fn put_high(whole: &[i32], high: &mut [i32])
    requires { length whole.now ≡ length high.old }
    ensures { high.new ≡ map (floor_by 13) whole.now }
{
    for i in 0..high.len() {
        high[i] = whole[i] >> 13;
    }
}

/// What a value has above its multiple of 2^13.
#[inline]
fn low_part(value: i32) -> i32
    ensures { result ≡ low_part value }
{
    value - (value >> 13) * 8192
}

/// Puts what values have above their multiples of 2^13.
fn put_low(whole: &[i32], low: &mut [i32])
    requires { length whole.now ≡ length low.old }
    ensures { low.new ≡ map low_part whole.now }
{
    for i in 0..low.len() {
        low[i] = low_part(whole[i]);
    }
}

/// How far the values are from 0 at the most.
pub(crate) fn far_of(values: &[i32]) -> u32
    ensures { AreNear result values.now }
{
    let mut far: u32 = 0;
    for value in values {
        far = far.max(distance(value));
    }
    far
}

/// Puts a block in one line behind the latest outputs, where these are narrow; else false.
pub(crate) fn put_line(
    history: &Predictor<8, 4>,
    step: u8,
    samples: &[i32],
    whole: &mut [i32],
    high: &mut [i32],
    low: &mut [i32],
) -> bool
    requires step { step ≤ 8 }
    requires samples { All Is26 samples.now }
    requires whole { All (λ x. clear step x ≡ x) samples.now }
    requires whole_room { length whole.old ≡ 8 + length samples.now }
    requires high_room { length high.old ≡ 8 + length samples.now }
    requires low_room { length low.old ≡ 8 + length samples.now }
    ensures { IsTrue result → IsLine step history.now samples.now whole.new high.new low.new }
{
    let outputs = history.outputs();
    if !are_narrow(step, outputs) {
        return false;
    }
    put_whole(outputs, samples, whole);
    count_steps(step, whole);
    put_high(whole, high);
    put_low(whole, low);
    true
}
