//! Values folded onto numbers without a sign, and the bits that their symbols take.

ghost use Rattle.std.specs.Prelude.{◌≡◌, ◌≤◌, ◌<◌, ◌+◌, ◌*◌, ◌/◌, ◌^◌, ◌-ℤ◌, ◌≤ℤ◌, ◌<ℤ◌, length, pos, neg_ℤ};
ghost use Rattle.mlp_search.specs.Folded.{folded, symbol_bits, all_folded, top_of, all_symbol_bits};

/// A value, folded.
#[inline]
fn folded(x: i32) -> u32
    requires low { neg_ℤ (pos (2 ^ 30)) ≤ℤ x }
    requires high { x <ℤ pos (2 ^ 30) }
    ensures { result ≡ folded x }
{
    let twice = 2 * x.unsigned_abs();
    if x < 0 {
        return twice - 1;
    }
    twice
}

/// A value that is moved by an offset and folded.
#[inline]
pub(crate) fn moved(value: &i32, offset: i16) -> u32
    requires { folded (value.now -ℤ offset) < 2 ^ 30 }
    ensures { result ≡ folded (value.now -ℤ offset) }
{
    folded(*value - i32::from(offset))
}

/// How many bits a symbol takes, of a folded value over 2^b.
#[inline]
pub(crate) fn symbol_bits<const BOOK: u8>(p: u32) -> u32
    requires { p < 32 }
    ensures value { result ≡ symbol_bits BOOK p }
    ensures few { result ≤ 19 }
{
    match BOOK {
        0 => 0,
        1 => 1 + p / 2 + u32::from(p < 2) + u32::from(p < 4),
        2 => 2 + p / 2,
        _ => 2 + (p - p / 2) - u32::from(p < 1),
    }
}

/// How many bits the symbols of all values take.
fn symbol_sum_in<const BOOK: u8>(values: &[i32], offset: i16, b: u8) -> u32
    requires few { length values.now ≤ 160 }
    requires b { b < 25 }
    requires within { top_of (all_folded offset values.now) / 2 ^ b < 18 }
    ensures value { result ≡ all_symbol_bits BOOK b (all_folded offset values.now) }
    ensures few { result ≤ 3040 }
{
    let mut sum = 0;
    for value in values {
        sum += symbol_bits::<BOOK>(moved(value, offset) >> b);
    }
    sum
}

/// How many bits the symbols of all values take in a book with so many low bits.
pub(crate) fn symbol_sum(book: u8, values: &[i32], offset: i16, b: u8) -> u64
    requires few { length values.now ≤ 160 }
    requires book { book ≤ 3 }
    requires b { 0 < book → b < 25 }
    requires within { top_of (all_folded offset values.now) / 2 ^ b < 18 }
    ensures value { result ≡ all_symbol_bits book b (all_folded offset values.now) }
    ensures few { result ≤ 3040 }
{
    let sum = match book {
        0 => 0,
        1 => symbol_sum_in::<1>(values, offset, b),
        2 => symbol_sum_in::<2>(values, offset, b),
        _ => symbol_sum_in::<3>(values, offset, b),
    };
    u64::from(sum)
}
