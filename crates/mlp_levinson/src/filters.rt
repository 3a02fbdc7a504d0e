//! The filter of computed coefficients.

ghost use Rattle.std.specs.Prelude.{◌≡◌, ◌<◌, ◌≤◌, ◌-◌, ◌^◌, pos, ◌+ℤ◌, ◌*ℤ◌, length, All, map};
ghost use Rattle.std.specs.List.{list_all};
ghost use Rattle.mlp_levinson.specs.Computed.{rounded, magnitude, has_bits, serves, greatest_shift, fewest_bits, filter_of, IsSmall};

use arrayvec::ArrayVec;
use mlp_syntax::Filter;

/// A coefficient times 2^shift, and half of 2^20 more.
fn scaled(shift: u8, coefficient: i64) -> i64
    requires shift { shift < 16 }
    requires small { IsSmall coefficient }
    ensures { result ≡ coefficient *ℤ pos (2 ^ shift) +ℤ pos (2 ^ 19) }
{
    coefficient * (1 << shift) + 524288
}

/// A coefficient over 2^shift, rounded to the nearest.
fn rounded(shift: u8, coefficient: i64) -> i32
    requires shift { shift < 16 }
    requires small { IsSmall coefficient }
    ensures { result ≡ rounded shift coefficient }
{
    (scaled(shift, coefficient) >> 20) as i32
}

/// All coefficients over 2^shift, rounded to the nearest.
fn all_rounded(shift: u8, coefficients: &[i64]) -> ArrayVec<i32, 8>
    requires shift { shift < 16 }
    requires few { length coefficients.now ≤ 8 }
    requires small { All IsSmall coefficients.now }
    ensures { result.items ≡ map (rounded shift) coefficients.now }
{
    let mut fields: ArrayVec<i32, 8> = ArrayVec::new();
    for j in 0..coefficients.len() {
        fields.push(rounded(shift, coefficients[j]));
    }
    fields
}

/// `n` of the numbers `n` and `-n - 1`.
fn magnitude(number: i32) -> u32
    ensures { result ≡ magnitude number }
{
    if number < 0 {
        return (-1 - number).cast_unsigned();
    }
    number.cast_unsigned()
}

/// The least magnitude that so many signed bits don't hold.
fn limit(width: u8) -> u32
    requires { width ≤ 16 }
    ensures { result ≡ 2 ^ (width - 1) }
{
    if width == 0 {
        return 1;
    }
    1 << (width - 1)
}

/// Whether a number has at most so many signed bits, or one for a width of 0.
fn has_bits(width: u8, number: i32) -> bool
    requires { width ≤ 16 }
    ensures { result ≡ has_bits width number }
{
    magnitude(number) < limit(width)
}

/// Whether all numbers have at most so many signed bits.
fn have_bits(width: u8, numbers: &[i32]) -> bool
    requires { width ≤ 16 }
    ensures { result ≡ list_all (has_bits width) numbers.now }
{
    for j in 0..numbers.len() {
        if !has_bits(width, numbers[j]) {
            return false;
        }
    }
    true
}

/// The fewest bits that hold all numbers, which have 16 signed bits.
fn fewest_bits(numbers: &[i32]) -> u8
    ensures { result ≡ fewest_bits 16 numbers.now }
{
    let mut width = 16;
    while width > 0 {
        if !have_bits(width - 1, numbers) {
            return width;
        }
        width -= 1;
    }
    1
}

/// Whether a coefficient over 2^shift, rounded to the nearest, has 16 signed bits.
fn is_served(shift: u8, coefficient: i64) -> bool
    requires shift { shift < 16 }
    requires small { IsSmall coefficient }
    ensures { result ≡ has_bits 16 (rounded shift coefficient) }
{
    let scaled = scaled(shift, coefficient);
    -34359738368 <= scaled && scaled < 34359738368
}

/// Whether all coefficients over 2^shift have 16 signed bits.
fn serves(shift: u8, coefficients: &[i64]) -> bool
    requires shift { shift < 16 }
    requires small { All IsSmall coefficients.now }
    ensures { result ≡ serves shift coefficients.now }
{
    for j in 0..coefficients.len() {
        if !is_served(shift, coefficients[j]) {
            return false;
        }
    }
    true
}

/// The greatest shift, up to 15, at which all coefficients have 16 signed bits.
fn greatest_shift(coefficients: &[i64]) -> u8
    requires few { length coefficients.now ≤ 8 }
    requires small { All IsSmall coefficients.now }
    ensures value { result ≡ greatest_shift 15 coefficients.now }
    ensures high { result < 16 }
{
    let mut shift = 15;
    while shift > 0 {
        if serves(shift, coefficients) {
            return shift;
        }
        shift -= 1;
    }
    0
}

/// The filter of coefficients over 2^20, with as many fraction bits as leave all of them 16 signed bits.
#[inline(always)]
pub fn filter_of(coefficients: &[i64]) -> Filter<8>
    requires few { length coefficients.now ≤ 8 }
    requires small { All IsSmall coefficients.now }
    ensures { result ≡ filter_of coefficients.now }
{
    let shift = greatest_shift(coefficients);
    let coeffs = all_rounded(shift, coefficients);
    let coeff_bits = fewest_bits(coeffs.as_slice());
    Filter {
        shift,
        coeff_bits,
        coeff_shift: 0,
        coeffs,
        state: None,
    }
}
