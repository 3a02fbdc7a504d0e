//! The three codebooks of samples, by the MLP syntax as publicly documented.
//!
//! A book is a list of codes, by symbol. Each symbol is read by one look at the next nine bits.
#![tactic(auto)]

mod codebook;
mod laws;
mod symbols;
mod tables;

pub use codebook::{Codebook, NO_CODE};
pub use laws::{law_books, law_symbols};
pub use symbols::{
    length, lengths_in, meanings, put_code_in, put_symbol_in, read_symbol, symbol, symbol_in,
    write_symbol,
};
pub use tables::{Book1, Book2, Book3};
