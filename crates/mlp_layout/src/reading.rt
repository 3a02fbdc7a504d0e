//! Reading the simplest values, highest bit first.
//!
//! Where the bits of a value aren't all there, each call answers `Broken` with `Field::SegmentShort` at the value's
//! first bit.
ghost use Rattle.std.specs.Prelude.{◌≡◌, ◌≤◌, ◌<◌, ◌^◌, ◌-◌, ℤ, pos, IfOk};
ghost use lib.IntN.{neg_ℤ};
ghost use lib.Signed.{◌<ℤ◌, ◌≤ℤ◌};
ghost use Rattle.mlp_layout.specs.Reading.{Gives};
ghost use Rattle.mlp_layout.specs.Layout.{number_of};
ghost use Rattle.mlp_layout.specs.Combined.{flag, signed_of};
ghost use Rattle.mlp_bits.specs.Signed.{signed};

use mlp_bits::{BitReader, signed_value};
use mlp_syntax::{Broken, Field};

/// A rule that fails, and the first bit of its field.
pub fn broken(field: Field, bit: u32) -> Broken
    ensures { result ≡ record { field = field; bit = bit } }
{
    Broken { field, bit }
}

/// A number of `width` bits, at most 32.
///
/// # Errors
///
/// `Field::SegmentShort` at its first bit where its bits aren't all there.
#[tactic(auto, unfolding(crate::specs::Layout::number_of, crate::specs::Reading::number_at))]
pub fn number(width: u32, r: &mut BitReader) -> Result<u32, Broken>
    requires { width ≤ 32 }
    ensures read { Gives (λ n. n) r.old r.new result ((number_of width).read r.old.all r.old.place) }
    ensures bound { IfOk result (λ n. n < 2 ^ width) }
{
    let place = r.place();
    match r.take(width) {
        Ok(n) => Ok(n),
        Err(_short) => Err(broken(Field::SegmentShort, place)),
    }
}

/// A number of `width` bits, at most 8.
///
/// # Errors
///
/// `Field::SegmentShort` at its first bit where its bits aren't all there.
pub fn byte(width: u32, r: &mut BitReader) -> Result<u8, Broken>
    requires { width ≤ 8 }
    ensures read { Gives (λ n. n) r.old r.new result ((number_of width).read r.old.all r.old.place) }
    ensures bound { IfOk result (λ n. n < 2 ^ width) }
{
    let n = number(width, r)?;
    Ok(n as u8)
}

/// A number of `width` bits, at most 16.
///
/// # Errors
///
/// `Field::SegmentShort` at its first bit where its bits aren't all there.
pub fn word(width: u32, r: &mut BitReader) -> Result<u16, Broken>
    requires { width ≤ 16 }
    ensures read { Gives (λ n. n) r.old r.new result ((number_of width).read r.old.all r.old.place) }
    ensures bound { IfOk result (λ n. n < 2 ^ width) }
{
    let n = number(width, r)?;
    Ok(n as u16)
}

/// One bit, `true` for 1.
///
/// # Errors
///
/// `Field::SegmentShort` at its first bit where its bits aren't all there.
#[tactic(auto, unfolding(crate::specs::Layout::seen, crate::specs::Combined::flag))]
pub fn flag(r: &mut BitReader) -> Result<bool, Broken>
    ensures { Gives (λ b. b) r.old r.new result (flag.read r.old.all r.old.place) }
{
    let n = number(1, r)?;
    Ok(n == 1)
}

/// A number of 64 bits.
///
/// # Errors
///
/// `Field::SegmentShort` at its first bit where its bits aren't all there.
#[tactic(auto, unfolding(crate::specs::Layout::number_of, crate::specs::Reading::number_at))]
pub fn wide(r: &mut BitReader) -> Result<u64, Broken>
    ensures { Gives (λ n. n) r.old r.new result ((number_of 64).read r.old.all r.old.place) }
{
    let place = r.place();
    let (Ok(high), Ok(low)) = (r.take(32), r.take(32)) else {
        return Err(broken(Field::SegmentShort, place));
    };
    Ok((u64::from(high) << 32) + u64::from(low))
}

/// A number of `width` bits in two's complement, 1 to 32.
///
/// # Errors
///
/// `Field::SegmentShort` at its first bit where its bits aren't all there.
#[tactic(auto, unfolding(crate::specs::Layout::seen, crate::specs::Combined::signed_of))]
pub fn signed(width: u32, r: &mut BitReader) -> Result<i32, Broken>
    requires low { 1 ≤ width }
    requires high { width ≤ 32 }
    ensures read { Gives (λ n. n) r.old r.new result ((signed_of width).read r.old.all r.old.place) }
    ensures least { IfOk result (λ n. neg_ℤ (pos (2 ^ (width - 1))) ≤ℤ n) }
    ensures most { IfOk result (λ n. n <ℤ pos (2 ^ (width - 1))) }
{
    let n = number(width, r)?;
    Ok(signed_value(n, width))
}

/// A number of `width` bits in two's complement, 1 to 16.
///
/// # Errors
///
/// `Field::SegmentShort` at its first bit where its bits aren't all there.
pub fn signed_word(width: u32, r: &mut BitReader) -> Result<i16, Broken>
    requires low { 1 ≤ width }
    requires high { width ≤ 16 }
    ensures { Gives (λ n. n) r.old r.new result ((signed_of width).read r.old.all r.old.place) }
{
    let n = signed(width, r)?;
    Ok(n as i16)
}
