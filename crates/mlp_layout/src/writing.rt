//! Writing the simplest values.
//!
//! Each call appends the text of its value, and answers `Full` exactly where the bits would pass 65,520; then the
//! writer has its old bits and perhaps a part of the new ones, and isn't used again.
ghost use Rattle.std.specs.Prelude.{◌≡◌, ◌≤◌, ◌<◌, ◌^◌, Some};
ghost use Rattle.std.specs.List.{AllByRecursion, flat_map};
ghost use Rattle.mlp_layout.specs.Layout.{number_of};
ghost use Rattle.mlp_layout.specs.Combined.{flag, signed_of};
ghost use Rattle.mlp_bits.specs.Signed.{unsigned};
ghost use Rattle.mlp_layout.specs.Writing.{Writes, FieldFits, field_bits};

use mlp_bits::{BitWriter, Full};

/// A number of `width` bits, at most 32.
///
/// # Errors
///
/// `Full` where the bits would pass 65,520.
#[tactic(auto, unfolding(crate::specs::Layout::number_of))]
pub fn put_number(value: u32, width: u32, w: &mut BitWriter) -> Result<(), Full>
    requires width { width ≤ 32 }
    requires value { value < 2 ^ width }
    ensures { Writes w.old w.new result ((number_of width).spelling value) }
{
    w.put(value, width)
}

/// Numbers, each with its width in bits.
///
/// # Errors
///
/// `Full` where the bits would pass 65,520.
pub fn put_all(fields: &[(u32, u32)], w: &mut BitWriter) -> Result<(), Full>
    requires { AllByRecursion FieldFits fields.now }
    ensures { Writes w.old w.new result (flat_map field_bits fields.now) }
{
    let _place = w.place();
    for field in fields {
        put_number(field.0, field.1, w)?;
    }
    Ok(())
}

/// One bit, 1 for `true`.
///
/// # Errors
///
/// `Full` where the bits would pass 65,520.
#[tactic(auto, unfolding(crate::specs::Combined::flag, crate::specs::Layout::seen))]
pub fn put_flag(value: bool, w: &mut BitWriter) -> Result<(), Full>
    ensures { Writes w.old w.new result (flag.spelling value) }
{
    put_number(u32::from(value), 1, w)
}

/// The number that so many bits spell which stand for a value in two's complement.
#[tactic(auto, unfolding(crate::specs::Layout::seen, crate::specs::Layout::number_of, crate::specs::Combined::signed_of))]
fn unsigned_value(value: i32, width: u32) -> u32
    requires low { 1 ≤ width }
    requires high { width ≤ 32 }
    requires fits { (signed_of width).Fits value }
    ensures value { unsigned width value ≡ Some result }
    ensures fits { result < 2 ^ width }
{
    if value >= 0 {
        value as u32
    } else {
        (i64::from(value) + (1i64 << width)) as u32
    }
}

/// A number of `width` bits in two's complement, 1 to 32.
///
/// # Errors
///
/// `Full` where the bits would pass 65,520.
#[tactic(auto, unfolding(crate::specs::Layout::seen, crate::specs::Combined::signed_of))]
pub fn put_signed(value: i32, width: u32, w: &mut BitWriter) -> Result<(), Full>
    requires low { 1 ≤ width }
    requires high { width ≤ 32 }
    requires value { (signed_of width).Fits value }
    ensures { Writes w.old w.new result ((signed_of width).spelling value) }
{
    put_number(unsigned_value(value, width), width, w)
}

/// A number of 64 bits.
///
/// # Errors
///
/// `Full` where the bits would pass 65,520.
pub fn put_wide(value: u64, w: &mut BitWriter) -> Result<(), Full>
    ensures { Writes w.old w.new result ((number_of 64).spelling value) }
{
    put_all(
        &[((value >> 32) as u32, 32), ((value % (1 << 32)) as u32, 32)],
        w,
    )
}
