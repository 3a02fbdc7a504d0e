//! Two's complement.
ghost use Rattle.std.specs.Prelude.{◌≡◌, ◌≤◌, ◌<◌, ◌-◌, ◌^◌, pos};
ghost use lib.IntN.{neg_ℤ};
ghost use lib.Signed.{◌<ℤ◌, ◌≤ℤ◌};
ghost use Rattle.mlp_bits.specs.Signed.{signed};

/// What `width` bits that spell `value` stand for in two's complement.
#[inline]
pub fn signed_value(value: u32, width: u32) -> i32
    requires low { 1 ≤ width }
    requires high { width ≤ 32 }
    requires fits { value < 2 ^ width }
    ensures value { result ≡ signed width value }
    ensures least { neg_ℤ (pos (2 ^ (width - 1))) ≤ℤ result }
    ensures most { result <ℤ pos (2 ^ (width - 1)) }
{
    if value < 1 << (width - 1) {
        value as i32
    } else {
        (i64::from(value) - (1i64 << width)) as i32
    }
}
