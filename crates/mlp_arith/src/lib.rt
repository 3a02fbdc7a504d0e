//! Whole numbers as the words of a codec: division by powers of two that rounds down, cleared low bits,
//! and wrapped values.
#![tactic(auto)]

ghost use Rattle.std.specs.Prelude.{◌≡◌, ◌<◌, ◌≤◌, ◌^◌, pos, ◌*ℤ◌};
ghost use Rattle.mlp_arith.specs.Words.{floor_by, clear, wrap, low24};

pub mod laws;

/// `v / 2^shift`, rounded down. The shift is below 64.
pub fn floor_by(shift: u8, v: i64) -> i64
    requires { shift < 64 }
    ensures { result ≡ floor_by shift v }
{
    v >> shift
}

/// `v` with its low `step` bits cleared: the greatest multiple of `2^step` that isn't above `v`. The step is below 32.
pub fn clear(step: u8, v: i64) -> i64
    requires { step < 32 }
    ensures { result ≡ clear step v }
{
    (v >> step) << step
}

/// The number of 32 signed bits that is congruent to `v` modulo 2^32.
pub fn wrap(v: i64) -> i32
    ensures { result ≡ wrap v }
{
    ((v.cast_unsigned() & 0xffff_ffff) as u32).cast_signed()
}

/// The number of 24 signed bits that is congruent to `v` modulo 2^24.
pub fn low24(v: i32) -> i32
    ensures { result ≡ low24 v }
{
    v.wrapping_mul(256) >> 8
}

/// A sample: the number of 24 signed bits that is congruent to `v * 2^shift` modulo 2^24. The shift is at most 7.
pub fn sample24(v: i32, shift: u8) -> i32
    requires { shift ≤ 7 }
    ensures { result ≡ low24 (v *ℤ pos (2 ^ shift)) }
{
    low24(v << shift)
}
