//! The bits of symbols in several books and with several numbers of low bits, by one pass over the values.

ghost use Rattle.std.specs.Prelude.{◌≡◌, ℕ, ◌≤◌, ◌<◌, ◌+◌, ◌-◌, ◌*◌, ◌/◌, ◌^◌, List, length, ℤ, IfSome};
ghost use Rattle.mlp_search.specs.Folded.{all_folded, top_of, all_symbol_bits};
ghost use Rattle.mlp_search.specs.Tally.{IsTally, IsCounted};

use crate::folds::symbol_sum;
use crate::sides::Side;
use crate::sums::sums_of;

/// The bits that the symbols of all values take: in book 1 with 1 low bit less than `low`, with `low` and with 1 more,
/// in book 2 with `low` low bits and 1 more, and in book 3 with `low`, 1 more and 2 more.
#[derive(Drop)]
pub struct Tally {
    pub low: u8,
    pub first_before: u32,
    pub first_0: u32,
    pub first_1: u32,
    pub second_0: u32,
    pub second_1: u32,
    pub third_0: u32,
    pub third_1: u32,
    pub third_2: u32,
}

impl Tally {
    /// The bits in book 1 with 1 low bit less than `low` and `more`.
    fn first(&self, more: u8) -> Option<u32>
        ensures { (offset : ℤ) (vs : List ℤ) (b : ℕ) → IsTally offset vs self.now → b + 1 ≡ self.now.low + more →
            IfSome result (λ n. n ≡ all_symbol_bits 1 b (all_folded offset vs)) }
    {
        match more {
            0 => Some(self.first_before),
            1 => Some(self.first_0),
            2 => Some(self.first_1),
            _ => None,
        }
    }

    /// The bits in book 2 with 1 low bit less than `low` and `more`.
    fn second(&self, more: u8) -> Option<u32>
        ensures { (offset : ℤ) (vs : List ℤ) (b : ℕ) → IsTally offset vs self.now → b + 1 ≡ self.now.low + more →
            IfSome result (λ n. n ≡ all_symbol_bits 2 b (all_folded offset vs)) }
    {
        match more {
            1 => Some(self.second_0),
            2 => Some(self.second_1),
            _ => None,
        }
    }

    /// The bits in book 3 with 1 low bit less than `low` and `more`.
    fn third(&self, more: u8) -> Option<u32>
        ensures { (offset : ℤ) (vs : List ℤ) (b : ℕ) → IsTally offset vs self.now → b + 1 ≡ self.now.low + more →
            IfSome result (λ n. n ≡ all_symbol_bits 3 b (all_folded offset vs)) }
    {
        match more {
            1 => Some(self.third_0),
            2 => Some(self.third_1),
            3 => Some(self.third_2),
            _ => None,
        }
    }

    /// The bits in a book with so many low bits, where they were counted.
    #[inline(always)]
    fn sum_of(&self, book: u8, b: u8) -> Option<u32>
        requires book { book ≤ 3 }
        requires b { 0 < book → b < 25 }
        ensures { (offset : ℤ) (vs : List ℤ) → IsTally offset vs self.now →
            IfSome result (λ n. n ≡ all_symbol_bits book b (all_folded offset vs)) }
    {
        if book == 0 || b + 1 < self.low {
            return None;
        }
        let more = b + 1 - self.low;
        match book {
            1 => self.first(more),
            2 => self.second(more),
            _ => self.third(more),
        }
    }
}

/// The bits that the symbols of all values take, for a book and low bits that may have been counted.
#[inline(always)]
pub(crate) fn symbols(tally: &Option<Tally>, book: u8, values: &[i32], offset: i16, b: u8) -> u64
    requires few { length values.now ≤ 160 }
    requires book { book ≤ 3 }
    requires b { 0 < book → b < 25 }
    requires within { top_of (all_folded offset values.now) / 2 ^ b < 18 }
    requires tally { IfSome tally.now (λ t. IsTally offset values.now t) }
    ensures value { result ≡ all_symbol_bits book b (all_folded offset values.now) }
    ensures few { result < 2 ^ 32 }
{
    if let Some(tally) = tally {
        if let Some(sum) = tally.sum_of(book, b) {
            return u64::from(sum);
        }
    }
    symbol_sum(book, values, offset, b)
}

/// Counts all values that are moved by an offset.
#[inline(always)]
pub(crate) fn tally_of(values: &[i32], offset: i16, low: u8) -> Tally
    requires few { length values.now ≤ 160 }
    requires low { low < 28 }
    requires within { top_of (all_folded offset values.now) / 2 ^ low < 16 }
    requires small { top_of (all_folded offset values.now) < 2 ^ 30 }
    ensures sums { IsTally offset values.now result }
    ensures low { result.low ≡ low }
{
    let count = values.len() as u32;
    let sums = sums_of(values, offset, low);
    Tally {
        low,
        first_before: count + sums.whole + sums.below_1 + sums.below_2,
        first_0: count + sums.halves + sums.below_2 + sums.below_4,
        first_1: count + sums.quarters + sums.below_4 + sums.below_8,
        second_0: 2 * count + sums.halves,
        second_1: 2 * count + sums.quarters,
        third_0: 2 * count + sums.whole - sums.halves - sums.below_1,
        third_1: 2 * count + sums.halves - sums.quarters - sums.below_2,
        third_2: count + sums.quarters + sums.below_8 - sums.below_4,
    }
}

/// The least of three numbers.
fn least_of(a: u64, b: u64, c: u64) -> u64
    ensures one { result ≤ a }
    ensures two { result ≤ b }
    ensures three { result ≤ c }
{
    a.min(b).min(c)
}

/// No more bits than low bits and symbols of all values take, in any book and with any low bits that were counted.
pub(crate) fn fewest(tally: &Tally, count: u64) -> u64
    requires { count ≤ 160 }
    ensures { (offset : ℤ) (vs : List ℤ) (book b : ℕ) → IsTally offset vs tally.now → IsCounted tally.now.low book b →
        result ≤ count * b + all_symbol_bits book b (all_folded offset vs) }
{
    let low_bits = count * u64::from(tally.low);
    let with_low = least_of(
        u64::from(tally.first_0),
        u64::from(tally.second_0),
        u64::from(tally.third_0),
    );
    let with_1_more = least_of(
        u64::from(tally.first_1),
        u64::from(tally.second_1),
        u64::from(tally.third_1),
    );
    let with_2_more = u64::from(tally.third_2);
    let bits = low_bits + least_of(with_low, count + with_1_more, 2 * count + with_2_more);
    if tally.low == 0 {
        return bits;
    }
    bits.min(low_bits - count + u64::from(tally.first_before))
}

/// Both offsets, where they were counted.
#[derive(Drop)]
pub struct Tallies {
    pub zero: Option<Tally>,
    pub middle: Option<Tally>,
}

/// Counts all values of a side, where it is wanted and they aren't too great.
#[inline(always)]
pub(crate) fn tally_side(values: &[i32], side: &Side, wanted: bool) -> Option<Tally>
    requires few { length values.now ≤ 160 }
    requires top { side.now.top ≡ top_of (all_folded side.now.offset values.now) }
    ensures sums { IfSome result (λ t. IsTally side.now.offset values.now t) }
    ensures low { IfSome result (λ t. t.low ≡ side.now.width - 4) }
{
    if !wanted {
        return None;
    }
    if side.top >= 1073741824 {
        return None;
    }
    let low = side.width.saturating_sub(4);
    if low >= 28 {
        return None;
    }
    if side.top >> low >= 16 {
        return None;
    }
    Some(tally_of(values, side.offset, low))
}
