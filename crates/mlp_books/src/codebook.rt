//! What a codebook is.
ghost use Rattle.std.specs.Prelude.{◌≡◌, ℕ, ◌+◌, ◌<◌, ◌^◌, Bool, List, length};
ghost use Rattle.mlp_bits.specs.Bits.{bits, number};
ghost use Rattle.mlp_books.specs.Books.{Passes, code_of, meaning_of};

/// What nine bits mean that begin with no code.
pub const NO_CODE: u16 = 65535;

/// Symbols from 0 on, each with a code of one to nine bits that begins no other one's.
pub trait Codebook {
    /// How many symbols there are.
    const SYMBOLS: u32;

    ghost SYMBOLS: { ℕ };

    /// The codes by symbol.
    ghost codes: { List (List Bool) };

    /// The code of a symbol, as a number.
    fn pattern(symbol: u32) -> u32
        requires { symbol < SYMBOLS }
        ensures { result ≡ number (code_of codes symbol) };

    /// How many bits the code of a symbol has.
    fn width(symbol: u32) -> u32
        requires { symbol < SYMBOLS }
        ensures { result ≡ length (code_of codes symbol) };

    /// 256 times the symbol whose code nine bits begin with, plus the code's width; `NO_CODE` where they begin with
    /// none.
    fn meaning(nine: u32) -> u16
        requires { nine < 2 ^ 9 }
        ensures { result ≡ meaning_of codes (bits 9 nine) };

    ghost counted: { length codes ≡ SYMBOLS };

    ghost passes: { Passes codes };
}
