//! Sums of a mix.

ghost use Rattle.std.specs.Prelude.{◌≡◌, ◌≤◌, ◌^◌, pos, neg_ℤ, ◌+ℤ◌, ◌*ℤ◌, ◌≤ℤ◌};
ghost use Rattle.mlp_arith.specs.Ranges.{Is26};
ghost use Rattle.mlp_fold.specs.Mix.{IsSample, lowered, front6, front8, stereo, halved};

use mlp_arith::{clear, floor_by, wrap};
use mlp_predict::dot;

/// A value less a sum over 2^14.
fn lowered(q: u8, value: i32, sum: i64) -> i32
    requires q { q ≤ 8 }
    requires value { IsSample q value }
    requires low { neg_ℤ (pos (2 ^ 38)) ≤ℤ sum }
    requires high { sum ≤ℤ pos (2 ^ 38) }
    ensures { result ≡ lowered q value sum }
{
    wrap(i64::from(value) - clear(q, floor_by(14, sum)))
}

/// The part of centre and surround in six channels.
fn part6(q: u8, centre: i32, surround: i32) -> i64
    requires centre { IsSample q centre }
    requires surround { IsSample q surround }
    ensures value { result ≡ neg_ℤ (pos 11585) *ℤ centre +ℤ neg_ℤ (pos 11585) *ℤ surround }
    ensures low { neg_ℤ (pos (2 ^ 38)) ≤ℤ result }
    ensures high { result ≤ℤ pos (2 ^ 38) }
{
    dot(&[-11585, -11585], &[centre, surround])
}

/// The part of centre and of the sum of surround and back in eight channels.
fn part8(q: u8, centre: i32, sum: i32) -> i64
    requires centre { IsSample q centre }
    requires low { neg_ℤ (pos (2 ^ 24)) ≤ℤ sum }
    requires high { sum ≤ℤ pos (2 ^ 24) }
    ensures value { result ≡ neg_ℤ (pos 11585) *ℤ centre +ℤ neg_ℤ (pos 5793) *ℤ sum }
    ensures low { neg_ℤ (pos (2 ^ 38)) ≤ℤ result }
    ensures high { result ≤ℤ pos (2 ^ 38) }
{
    dot(&[-11585, -5793], &[centre, sum])
}

/// A front channel of six, less a part of centre and surround.
pub fn front6(q: u8, value: i32, centre: i32, surround: i32) -> i32
    requires q { q ≤ 8 }
    requires value { IsSample q value }
    requires centre { IsSample q centre }
    requires surround { IsSample q surround }
    ensures { result ≡ front6 q value centre surround }
{
    lowered(q, value, part6(q, centre, surround))
}

/// A front channel of eight, less a part of centre and of the sum of surround and back.
pub fn front8(q: u8, value: i32, centre: i32, sum: i32) -> i32
    requires q { q ≤ 8 }
    requires value { IsSample q value }
    requires centre { IsSample q centre }
    requires low { neg_ℤ (pos (2 ^ 24)) ≤ℤ sum }
    requires high { sum ≤ℤ pos (2 ^ 24) }
    ensures { result ≡ front8 q value centre sum }
{
    lowered(q, value, part8(q, centre, sum))
}

/// The sum of surround and back.
pub fn both(q: u8, surround: i32, back: i32) -> i32
    requires surround { IsSample q surround }
    requires back { IsSample q back }
    ensures value { result ≡ surround +ℤ back }
    ensures low { neg_ℤ (pos (2 ^ 24)) ≤ℤ result }
    ensures high { result ≤ℤ pos (2 ^ 24) }
{
    surround + back
}

/// A front channel of the stereo presentation, of a coded one.
pub fn stereo(q: u8, coded: i32) -> i32
    requires q { q ≤ 8 }
    requires coded { Is26 coded }
    ensures { result ≡ stereo q coded }
{
    wrap(clear(q, floor_by(14, 6786 * i64::from(coded))))
}

/// A side channel of the six-channel presentation of eight channels, of the coded sum of surround and back.
pub fn halved(q: u8, coded: i32) -> i32
    requires q { q ≤ 8 }
    requires coded { Is26 coded }
    ensures { result ≡ halved q coded }
{
    wrap(clear(q, floor_by(1, i64::from(coded))))
}
