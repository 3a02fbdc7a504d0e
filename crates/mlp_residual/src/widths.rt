//! How many bits residuals take with several numbers of low bits.
ghost use Rattle.std.specs.Prelude.{◌≡◌, ℕ, ◌+◌, ◌*◌, ◌<◌, ◌≤◌, ◌^◌, ℤ, pos, neg_ℤ, ◌+ℤ◌, ◌-ℤ◌, ◌*ℤ◌, ◌≤ℤ◌, List, [], None, true, false, length, map, slice_index_or, IfSome, IfNone};
ghost use Rattle.mlp_residual.specs.Coding.{sign_offset, TakeBits, Counts};

use crate::coding::{sign_offset, whole_of};
use arrayvec::ArrayVec;
use mlp_books::lengths_in;

/// How far the place of a code above the least one is above its value.
#[inline]
fn base_of(book: u8, b: u8, offset: i16) -> i64
    requires book { book ≤ 3 }
    requires b { b < 32 }
    ensures value { result ≡ pos (sign_offset book b) -ℤ offset }
    ensures least { neg_ℤ (pos 65536) ≤ℤ result }
    ensures most { result ≤ℤ pos 19327418368 }
{
    sign_offset(book, b) as i64 - i64::from(offset)
}

/// How many bits the code of a value takes, where it has one. The symbols have codes of these lengths, `b` low bits
/// stand behind them, and the least value is `base` below 0.
#[inline]
fn bits_of_value(lengths: &[u8], b: u8, base: i64, value: &i32) -> Option<u64>
    requires b { b < 32 }
    requires least { neg_ℤ (pos 65536) ≤ℤ base }
    requires most { base ≤ℤ pos 19327418368 }
    ensures some { IfSome result
        (λ n. (symbol : ℕ) × (low : ℕ) × (symbol < length lengths.now) × (low < 2 ^ b) ×
        (value.now +ℤ base ≡ pos (symbol * 2 ^ b + low)) × (n ≡ slice_index_or lengths.now symbol 0 + b)) }
    ensures none { IfNone result ((symbol low : ℕ) → symbol < length lengths.now → low < 2 ^ b →
        value.now +ℤ base ≡ pos (symbol * 2 ^ b + low) → ⊥) }
    ensures small { IfSome result (λ n. n ≤ 286) }
{
    let place = i64::from(*value) + base;
    if place < 0 {
        return None;
    }
    let symbol = place as u64 >> b;
    if symbol >= lengths.len() as u64 {
        return None;
    }
    Some(u64::from(lengths[symbol as usize]) + u64::from(b))
}

/// How many bits values take in all, whatever the step that they count.
fn bits_of_values(book: u8, b: u8, offset: i16, values: &[i32]) -> Option<u64>
    requires book { book ≤ 3 }
    requires b { b < 32 }
    requires count { length values.now ≤ 160 }
    ensures { (step : ℕ) → Counts book b offset step (map (λ v. v *ℤ pos (2 ^ step)) values.now) result }
{
    let lengths = lengths_in(book);
    let base = base_of(book, b, offset);
    let mut bits = 0;
    for value in values {
        bits += bits_of_value(lengths, b, base, value)?;
    }
    Some(bits)
}

/// A residual over `2^step`, where it is a whole number.
#[inline]
fn whole_value(step: u8, residual: &i32) -> Option<i32>
    requires { step < 16 }
    ensures whole { IfSome result (λ v. v *ℤ pos (2 ^ step) ≡ residual.now) }
    ensures none { IfNone result ((v : ℤ) → v *ℤ pos (2 ^ step) ≡ residual.now → ⊥) }
{
    let value = whole_of(step, *residual)?;
    Some(value as i32)
}

/// The residuals over `2^step`, where they all are whole numbers; else some of them.
fn whole_values(step: u8, residuals: &[i32], values: &mut ArrayVec<i32, 160>) -> bool
    requires step { step < 16 }
    requires count { length residuals.now ≤ 160 }
    requires none { values.old.items ≡ [] }
    ensures all { result ≡ true → map (λ v. v *ℤ pos (2 ^ step)) values.new.items ≡ residuals.now }
    ensures some { result ≡ false → (book b n : ℕ) (offset : ℤ) →
        TakeBits book b offset step residuals.now n → ⊥ }
{
    for residual in residuals {
        match whole_value(step, residual) {
            Some(value) => values.push(value),
            None => return false,
        }
    }
    true
}

/// How many bits residuals take that are whole steps, if they are.
#[inline]
fn bits_of_whole(whole: bool, book: u8, b: u8, offset: i16, values: &[i32]) -> Option<u64>
    requires book { book ≤ 3 }
    requires b { b < 32 }
    requires count { length values.now ≤ 160 }
    ensures whole { whole ≡ true → (step : ℕ) →
        Counts book b offset step (map (λ v. v *ℤ pos (2 ^ step)) values.now) result }
    ensures not_whole { whole ≡ false → result ≡ None }
{
    if whole {
        bits_of_values(book, b, offset, values)
    } else {
        None
    }
}

/// How many bits the residuals take in all with `least` low bits, with one more, and so on, as `bits_of` counts them.
///
/// The residuals are divided by the step once. Each number of low bits then takes a shift and a look-up a residual.
pub fn bits_of_widths(
    book: u8,
    least: u8,
    offset: i16,
    step: u8,
    residuals: &[i32],
    out: &mut [Option<u64>],
)
    requires book { book ≤ 3 }
    requires widths { least + length out.old ≤ 32 }
    requires step { step < 16 }
    requires count { length residuals.now ≤ 160 }
    ensures same { length out.new ≡ length out.old }
    ensures counts { (i : ℕ) → i < length out.old →
        Counts book (least + i) offset step residuals.now (slice_index_or out.new i None) }
{
    let mut values: ArrayVec<i32, 160> = ArrayVec::new();
    let whole = whole_values(step, residuals, &mut values);
    for i in 0..out.len() {
        out[i] = bits_of_whole(whole, book, least + i as u8, offset, &values);
    }
}
