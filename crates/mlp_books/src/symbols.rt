//! Reading and writing symbols.
ghost use Rattle.std.specs.Prelude.{◌≡◌, ℕ, ◌+◌, ◌*◌, ◌<◌, ◌≤◌, ◌^◌, ◌++◌, ◌↔◌, length, slice_index_or, Ok, IsErr, IfOk, OnOk, OnErr};
ghost use Rattle.mlp_bits.specs.Bits.{bits};
ghost use Rattle.mlp_bits.specs.Cursor.{Cursor};
ghost use Rattle.mlp_layout.specs.Reading.{Gives};
ghost use Rattle.mlp_layout.specs.Layout.{made, number_of};
ghost use Rattle.mlp_layout.specs.Writing.{Writes};
ghost use Rattle.mlp_books.specs.Books.{code_of, symbol_of, symbol_in, meaning_in, GivesSymbol};

use crate::codebook::{Codebook, NO_CODE};
use crate::tables::{Book1, Book2, Book3, MEANINGS, WIDTHS0, WIDTHS1, WIDTHS2, WIDTHS3};
use mlp_bits::{BitReader, BitWriter, Full};
use mlp_layout::{broken, put_all, put_number};
use mlp_syntax::{Broken, Field};

/// Reads a symbol by its code.
///
/// # Errors
///
/// `Code` where the next nine bits are no code, `SegmentShort` where the bits end before a code does and fewer than
/// nine are left. Nothing is then taken.
#[inline]
pub fn read_symbol<B: Codebook>(r: &mut BitReader) -> Result<u32, Field>
    ensures read { GivesSymbol r.old r.new result ((symbol_of B.codes).read r.old.all r.old.place) }
    ensures bound { IfOk result (λ s. s < B.SYMBOLS) }
{
    let meaning = B::meaning(r.peek(9));
    let left = r.left();
    if meaning == NO_CODE {
        return Err(no_code(left));
    }
    let width = u32::from(meaning % 256);
    if width > left {
        return Err(Field::SegmentShort);
    }
    r.skip(width);
    Ok(u32::from(meaning / 256))
}

/// What is wrong where the bits that are left begin with no code.
fn no_code(left: u32) -> Field
    ensures short { left < 9 → result ≡ Field.SegmentShort }
    ensures none { 9 ≤ left → result ≡ Field.Code }
{
    if left < 9 {
        Field::SegmentShort
    } else {
        Field::Code
    }
}

/// Reads a symbol by its code.
///
/// # Errors
///
/// Those of `read_symbol`, at the code's first bit.
#[inline]
pub fn symbol<B: Codebook>(r: &mut BitReader) -> Result<u32, Broken>
    ensures read { Gives (λ s. s) r.old r.new result ((symbol_of B.codes).read r.old.all r.old.place) }
    ensures bound { IfOk result (λ s. s < B.SYMBOLS) }
{
    let place = r.place();
    match read_symbol::<B>(r) {
        Ok(symbol) => Ok(symbol),
        Err(field) => Err(broken(field, place)),
    }
}

/// Reads a symbol of the book with this number, 0 to 3. Book 0 has the symbol 0 alone, which takes no bits.
///
/// # Errors
///
/// Those of `read_symbol`, at the code's first bit.
#[tactic(auto, unfolding(mlp_layout::specs::Layout::made, crate::specs::Books::symbol_in))]
#[inline]
pub fn symbol_in(book: u8, r: &mut BitReader) -> Result<u8, Broken>
    requires { book ≤ 3 }
    ensures read { Gives (λ s. s) r.old r.new result ((symbol_in book).read r.old.all r.old.place) }
    ensures bound { IfOk result (λ s. s < 18) }
{
    let symbol = match book {
        0 => 0,
        1 => symbol::<Book1>(r)?,
        2 => symbol::<Book2>(r)?,
        _ => symbol::<Book3>(r)?,
    };
    Ok(symbol as u8)
}

/// Writes the code of a symbol.
///
/// # Errors
///
/// `Full` exactly where the bits would pass 65,520. Then nothing is written.
#[inline]
pub fn write_symbol<B: Codebook>(symbol: u32, w: &mut BitWriter) -> Result<(), Full>
    requires { symbol < B.SYMBOLS }
    ensures full { IsErr result ↔ (65520 < length w.old + length (code_of B.codes symbol)) }
    ensures ok { OnOk result (w.new ≡ w.old ++ code_of B.codes symbol) }
    ensures err { OnErr result (w.new ≡ w.old) }
{
    w.put(B::pattern(symbol), B::width(symbol))
}

/// Writes the code of a symbol, and says what was written as the layouts do.
#[inline]
fn put_symbol<B: Codebook>(symbol: u32, w: &mut BitWriter) -> Result<(), Full>
    requires { symbol < B.SYMBOLS }
    ensures { Writes w.old w.new result (code_of B.codes symbol) }
{
    put_number(B::pattern(symbol), B::width(symbol), w)
}

/// Writes the code of a symbol of the book with this number, 0 to 3.
///
/// # Errors
///
/// `Full` exactly where the bits would pass 65,520.
#[tactic(auto, unfolding(mlp_layout::specs::Layout::made, crate::specs::Books::symbol_in, crate::specs::Books::symbol_of, crate::specs::Books::book1, crate::specs::Books::book2, crate::specs::Books::book3))]
#[inline]
pub fn put_symbol_in(book: u8, symbol: u8, w: &mut BitWriter) -> Result<(), Full>
    requires book { book ≤ 3 }
    requires symbol { (symbol_in book).Fits symbol }
    ensures { Writes w.old w.new result ((symbol_in book).spelling symbol) }
{
    let symbol = u32::from(symbol);
    match book {
        0 => put_all(&[], w),
        1 => put_symbol::<Book1>(symbol, w),
        2 => put_symbol::<Book2>(symbol, w),
        _ => put_symbol::<Book3>(symbol, w),
    }
}

/// Writes the code of a symbol and `width` more bits, which spell `low`, as one number.
#[inline]
fn put_joined<B: Codebook>(symbol: u32, low: u32, width: u32, w: &mut BitWriter) -> Result<(), Full>
    requires symbol { symbol < B.SYMBOLS }
    requires width { width ≤ 23 }
    requires low { low < 2 ^ width }
    ensures { Writes w.old w.new result (code_of B.codes symbol ++ bits width low) }
{
    let high = B::pattern(symbol) << width;
    put_number(high + low, B::width(symbol) + width, w)
}

/// The code of a symbol, and behind it more bits than fit into one number with it.
fn put_apart(book: u8, symbol: u8, low: u32, width: u32, w: &mut BitWriter) -> Result<(), Full>
    requires book { book ≤ 3 }
    requires symbol { (symbol_in book).Fits symbol }
    requires width { width ≤ 32 }
    requires low { low < 2 ^ width }
    ensures { Writes w.old w.new result ((symbol_in book).spelling symbol ++ bits width low) }
{
    put_symbol_in(book, symbol, w)?;
    put_number(low, width, w)
}

/// Writes the code of a symbol of the book with this number, 0 to 3, and `width` more bits, which spell `low`.
///
/// # Errors
///
/// `Full` exactly where the bits would pass 65,520.
#[inline]
pub fn put_code_in(
    book: u8,
    symbol: u8,
    low: u32,
    width: u32,
    w: &mut BitWriter,
) -> Result<(), Full>
    requires book { book ≤ 3 }
    requires symbol { (symbol_in book).Fits symbol }
    requires width { width ≤ 32 }
    requires low { low < 2 ^ width }
    ensures { Writes w.old w.new result ((symbol_in book).spelling symbol ++ bits width low) }
{
    if width > 23 {
        return put_apart(book, symbol, low, width, w);
    }
    match book {
        0 => put_number(low, width, w),
        1 => put_joined::<Book1>(u32::from(symbol), low, width, w),
        2 => put_joined::<Book2>(u32::from(symbol), low, width, w),
        _ => put_joined::<Book3>(u32::from(symbol), low, width, w),
    }
}

/// How many bits the code of a symbol has.
#[inline]
pub fn length<B: Codebook>(symbol: u32) -> u32
    requires { symbol < B.SYMBOLS }
    ensures { result ≡ length (code_of B.codes symbol) }
{
    B::width(symbol)
}

/// How many bits the codes of the book with this number have, by symbol. The one symbol of book 0 has none.
#[tactic(auto, unfolding(mlp_layout::specs::Layout::made, crate::specs::Books::symbol_in, crate::specs::Books::symbol_of))]
#[inline]
pub fn lengths_in(book: u8) -> &'static [u8]
    requires { book ≤ 3 }
    ensures count { 1 ≤ length result.now }
    ensures each { (s : ℕ) → (symbol_in book).Fits s →
        slice_index_or result.now s 0 ≡ length ((symbol_in book).spelling s) }
    ensures fits { (s : ℕ) → (symbol_in book).Fits s ↔ (s < length result.now) }
{
    match book {
        0 => &WIDTHS0,
        1 => &WIDTHS1,
        2 => &WIDTHS2,
        _ => &WIDTHS3,
    }
}

/// What each number of nine bits means in each book, those of book b from 512 * b on: 256 times the symbol whose code
/// they begin with, plus the code's width; `NO_CODE` where they begin with none. In book 0 each begins with the symbol
/// 0, whose code has no bits.
#[inline]
pub fn meanings() -> &'static [u16]
    ensures count { length result.now ≡ 2048 }
    ensures each { (book nine : ℕ) → book ≤ 3 → nine < 2 ^ 9 →
        slice_index_or result.now (512 * book + nine) 0 ≡ meaning_in book nine }
{
    &MEANINGS
}
