//! A residual and its code.
ghost use Rattle.std.specs.Prelude.{◌≡◌, ℕ, ◌+◌, ◌-◌, ◌*◌, ◌/◌, ◌%◌, ◌^◌, ◌<◌, ◌≤◌, ℤ, pos, neg_ℤ, ◌+ℤ◌, ◌-ℤ◌, ◌*ℤ◌, ◌≤ℤ◌, ◌<ℤ◌, IfSome, IfNone, FitsSigned};
ghost use Rattle.std.specs.Int.{w32, w64};
ghost use Rattle.mlp_arith.specs.Words.{clear, wrap};
ghost use Rattle.mlp_syntax.specs.declared.segment.Code.{Code};
ghost use Rattle.mlp_residual.specs.Coding.{symbols_of, sign_offset, value_of, residual_of, Spells};

use mlp_arith::{clear, floor_by, wrap};
use mlp_syntax::Code;

/// How many symbols each book has.
const SYMBOLS: [u64; 4] = [1, 18, 16, 15];

/// How many symbols a book has.
#[inline]
fn symbols_of(book: u8) -> u64
    requires { book ≤ 3 }
    ensures value { result ≡ symbols_of book }
    ensures most { result ≤ 18 }
{
    SYMBOLS[usize::from(book)]
}

/// Two to a power.
#[inline]
fn power(b: u8) -> u64
    requires { b < 32 }
    ensures value { result ≡ 2 ^ b }
    ensures low { 1 ≤ result }
    ensures high { result ≤ 2147483648 }
{
    1 << b
}

/// How far the values lie below those that symbols and low bits spell.
#[inline]
pub(crate) fn sign_offset(book: u8, b: u8) -> u64
    requires book { book ≤ 3 }
    requires b { b < 32 }
    ensures value { result ≡ sign_offset book b }
    ensures high { result ≤ 19327352832 }
{
    symbols_of(book) * power(b) / 2
}

/// The value of a code, a number of quantisation steps.
#[inline]
fn value_of(book: u8, b: u8, offset: i16, code: Code) -> i64
    requires book { book ≤ 3 }
    requires b { b < 32 }
    ensures value { result ≡ value_of book b offset code }
    ensures least { neg_ℤ (pos 1099511627776) ≤ℤ result }
    ensures most { result ≤ℤ pos 1099511627776 }
{
    let place = u64::from(code.symbol) * power(b) + u64::from(code.low);
    place as i64 + i64::from(offset) - sign_offset(book, b) as i64
}

/// So many quantisation steps.
#[inline]
fn steps(value: i64, step: u8) -> i64
    requires step { step < 16 }
    requires least { neg_ℤ (pos 1099511627776) ≤ℤ value }
    requires most { value ≤ℤ pos 1099511627776 }
    ensures { result ≡ value *ℤ pos (2 ^ step) }
{
    value << step
}

/// The residual of a code in a book of which `b` low bits stand behind the symbol, with an offset, and a quantisation
/// step of `2^step`.
#[inline]
pub fn residual(book: u8, b: u8, offset: i16, step: u8, code: Code) -> i32
    requires book { book ≤ 3 }
    requires b { b < 32 }
    requires step { step < 16 }
    ensures { result ≡ residual_of book b offset step code }
{
    wrap(steps(value_of(book, b, offset, code), step))
}

/// The residual over `2^step`, where it is a whole number.
#[inline]
pub(crate) fn whole_of(step: u8, residual: i32) -> Option<i64>
    requires { step < 16 }
    ensures whole { IfSome result (λ v. v *ℤ pos (2 ^ step) ≡ residual) }
    ensures fits { IfSome result (λ v. FitsSigned w32 v) }
    ensures none { IfNone result ((v : ℤ) → v *ℤ pos (2 ^ step) ≡ residual → ⊥) }
{
    let wide = i64::from(residual);
    if clear(step, wide) == wide {
        Some(floor_by(step, wide))
    } else {
        None
    }
}

/// The low `b` bits of a number.
#[inline]
fn low_bits(n: u64, b: u8) -> u32
    requires { b < 32 }
    ensures { result ≡ n % 2 ^ b }
{
    (n & (power(b) - 1)) as u32
}

/// The symbol and the low bits of a place above the least value.
#[inline]
fn code_at(book: u8, b: u8, place: u64) -> Option<Code>
    requires book { book ≤ 3 }
    requires b { b < 32 }
    ensures code { IfSome result (λ c. place ≡ c.symbol * 2 ^ b + c.low) }
    ensures symbol { IfSome result (λ c. c.symbol < symbols_of book) }
    ensures low { IfSome result (λ c. c.low < 2 ^ b) }
    ensures none { IfNone result (symbols_of book * 2 ^ b ≤ place) }
{
    let symbol = place >> b;
    if symbol >= symbols_of(book) {
        return None;
    }
    Some(Code {
        symbol: symbol as u8,
        low: low_bits(place, b),
    })
}

/// The place of a value above the least one.
#[inline]
fn place_of(book: u8, b: u8, offset: i16, v: i64) -> i64
    requires book { book ≤ 3 }
    requires b { b < 32 }
    requires fits { FitsSigned w32 v }
    ensures { result ≡ v -ℤ offset +ℤ pos (sign_offset book b) }
{
    v - i64::from(offset) + sign_offset(book, b) as i64
}

/// The code of a residual. There is none exactly where the residual is no multiple of `2^step`, or is too far from the
/// offset for the book's symbols with `b` low bits.
#[inline]
pub fn code_of(book: u8, b: u8, offset: i16, step: u8, residual: i32) -> Option<Code>
    requires book { book ≤ 3 }
    requires b { b < 32 }
    requires step { step < 16 }
    ensures some { IfSome result (λ c. Spells book b offset step residual c) }
    ensures none { IfNone result ((code : Code) → Spells book b offset step residual code → ⊥) }
{
    let v = whole_of(step, residual)?;
    let place = place_of(book, b, offset, v);
    if place < 0 {
        return None;
    }
    code_at(book, b, place as u64)
}
