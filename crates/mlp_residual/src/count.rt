//! How many bits residuals take.
ghost use Rattle.std.specs.Prelude.{◌≡◌, ℕ, ◌+◌, ◌*◌, ◌<◌, ◌≤◌, ◌^◌, List, length, drop, IfSome, IfNone};
ghost use Rattle.mlp_books.specs.Books.{symbol_in, symbol_of, book1, book2, book3};
ghost use Rattle.mlp_layout.specs.Layout.{made};
ghost use Rattle.mlp_syntax.specs.declared.segment.Code.{Code};
ghost use Rattle.mlp_residual.specs.Coding.{symbols_of, Spells, length_of, TakeBits};

use crate::coding::code_of;
use mlp_books::{Book1, Book2, Book3, length};
use mlp_syntax::Code;

/// How many bits the code of a symbol has.
#[inline]
#[tactic(auto, unfolding(mlp_layout::specs::Layout::made, mlp_books::specs::Books::symbol_in, mlp_books::specs::Books::symbol_of))]
fn symbol_length(book: u8, symbol: u8) -> u32
    requires book { book ≤ 3 }
    requires symbol { symbol < symbols_of book }
    ensures { result ≡ length ((symbol_in book).spelling symbol) }
{
    let symbol = u32::from(symbol);
    match book {
        0 => 0,
        1 => length::<Book1>(symbol),
        2 => length::<Book2>(symbol),
        _ => length::<Book3>(symbol),
    }
}

/// How many bits a code takes.
#[inline]
fn length_of(book: u8, b: u8, code: Code) -> u64
    requires book { book ≤ 3 }
    requires b { b < 32 }
    requires symbol { code.symbol < symbols_of book }
    ensures value { result ≡ length_of book b code }
    ensures most { result ≤ 40 }
{
    u64::from(symbol_length(book, code.symbol)) + u64::from(b)
}

/// How many bits a residual takes, where it has a code.
#[inline]
fn bits_of_one(book: u8, b: u8, offset: i16, step: u8, residual: &i32) -> Option<u64>
    requires book { book ≤ 3 }
    requires b { b < 32 }
    requires step { step < 16 }
    ensures some { IfSome result (λ n. (code : Code) ×
        Spells book b offset step residual.now code × (n ≡ length_of book b code)) }
    ensures none { IfNone result ((code : Code) → Spells book b offset step residual.now code → ⊥) }
    ensures most { IfSome result (λ n. n ≤ 40) }
{
    let code = code_of(book, b, offset, step, *residual)?;
    Some(length_of(book, b, code))
}

/// How many bits the residuals take in all, in a book with `b` low bits, an offset and steps of `2^step`. There is no
/// such number exactly where some residual has no code.
pub fn bits_of(book: u8, b: u8, offset: i16, step: u8, residuals: &[i32]) -> Option<u64>
    requires book { book ≤ 3 }
    requires b { b < 32 }
    requires step { step < 16 }
    requires count { length residuals.now ≤ 160 }
    ensures some { IfSome result (TakeBits book b offset step residuals.now) }
    ensures none { IfNone result ((n : ℕ) → TakeBits book b offset step residuals.now n → ⊥) }
{
    let mut bits = 0;
    for residual in residuals {
        bits += bits_of_one(book, b, offset, step, residual)?;
    }
    Some(bits)
}
