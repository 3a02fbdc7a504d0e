//! Sums over folded values, of which the bits of their symbols are made.

ghost use Rattle.std.specs.Prelude.{◌≡◌, ◌≤◌, ◌<◌, ◌+◌, ◌*◌, ◌/◌, ◌^◌, length, nat_lt, if◌then◌else◌};
ghost use Rattle.mlp_search.specs.Folded.{all_folded, top_of};
ghost use Rattle.mlp_search.specs.Tally.{IsSums, AreFew};

use crate::folds::moved;

/// Of folded values over 2^low: their sum, those of their halves and quarters, and how many are below 1, 2, 4 and 8.
#[derive(Drop)]
pub struct Sums {
    pub whole: u32,
    pub halves: u32,
    pub quarters: u32,
    pub below_1: u32,
    pub below_2: u32,
    pub below_4: u32,
    pub below_8: u32,
}

/// A number, its half and its quarter side by side, from bits 0, 12 and 23 on, where the sums of 160 have room.
#[inline]
fn parts(p: u32) -> u32
    requires { p < 16 }
    ensures { result ≡ p + 2 ^ 12 * (p / 2) + 2 ^ 23 * (p / 4) }
{
    (p * 0x0020_0801) & 0x0180_700F
}

/// Whether a number is below 1, 2, 4 and 8, side by side, in a byte each, where the counts of 160 have room. A byte has
/// its bit 4 where it isn't less than 16: in 16 - p where p is below 1, in 17 - p where it is below 2, and so on.
#[inline]
fn marks(p: u32) -> u32
    requires { p < 16 }
    ensures { result ≡ (if nat_lt p 1 then 1 else 0) + 2 ^ 8 * (if nat_lt p 2 then 1 else 0)
        + 2 ^ 16 * (if nat_lt p 4 then 1 else 0) + 2 ^ 24 * (if nat_lt p 8 then 1 else 0) }
{
    ((0x1713_1110 - p * 0x0101_0101) >> 4) & 0x0101_0101
}

/// The sums of all values that are moved by an offset.
pub(crate) fn sums_of(values: &[i32], offset: i16, low: u8) -> Sums
    requires few { length values.now ≤ 160 }
    requires low { low < 28 }
    requires within { top_of (all_folded offset values.now) / 2 ^ low < 16 }
    requires small { top_of (all_folded offset values.now) < 2 ^ 30 }
    ensures sums { IsSums low (all_folded offset values.now) result }
    ensures few { AreFew (length values.now) result }
{
    let mut parts_sum: u32 = 0;
    let mut marks_sum: u32 = 0;
    for value in values {
        let p = moved(value, offset) >> low;
        parts_sum += parts(p);
        marks_sum += marks(p);
    }
    Sums {
        whole: parts_sum % 4096,
        halves: parts_sum / 4096 % 2048,
        quarters: parts_sum / 8388608,
        below_1: marks_sum % 256,
        below_2: marks_sum / 256 % 256,
        below_4: marks_sum / 65536 % 256,
        below_8: marks_sum / 16777216,
    }
}
