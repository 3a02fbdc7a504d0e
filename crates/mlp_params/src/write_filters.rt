//! Writing prediction filters.
ghost use Rattle.std.specs.Prelude.{◌≡◌, ◌≤◌, ◌<◌, ℕ, Bool, true};
ghost use Rattle.mlp_layout.specs.Layout.{number_of};
ghost use Rattle.mlp_bits.specs.Bits.{digit};
ghost use Rattle.mlp_layout.specs.Combined.{signed_of, times, group};
ghost use Rattle.mlp_layout.specs.Writing.{Writes, absent_text};
ghost use Rattle.mlp_layout.specs.Allowed.{Allowed};
ghost use Rattle.mlp_params.specs.Filters.{filter_state, filter};

use mlp_bits::{BitWriter, Full};
use mlp_layout::{put_all, put_flag, put_number, put_signed};
use mlp_syntax::{Filter, FilterState};

/// One bit as a number.
pub fn digit(bit: bool) -> u32
    ensures value { result ≡ digit bit }
    ensures small { result < 2 }
{
    if bit { 1 } else { 0 }
}

/// What stands for a group that gives nothing: its flag, where the group is there.
pub fn write_absent(there: bool, w: &mut BitWriter) -> Result<(), Full>
    ensures { Writes w.old w.new result (absent_text there) }
{
    let _place = w.place();
    if !there {
        return Ok(());
    }
    put_flag(false, w)
}

/// Numbers of so many bits, one after the other.
pub fn write_numbers(values: &[u8], width: u32, w: &mut BitWriter) -> Result<(), Full>
    requires width { width ≤ 32 }
    requires values { (n : ℕ) × (times n (number_of width)).Fits values.now }
    ensures { (n : ℕ) → (times n (number_of width)).Fits values.now →
        Writes w.old w.new result ((times n (number_of width)).spelling values.now) }
{
    let _place = w.place();
    for value in values {
        put_number(u32::from(*value), width, w)?;
    }
    Ok(())
}

/// A signed number of so many bits, nothing where there are none.
pub fn write_signed(value: i32, width: u8, w: &mut BitWriter) -> Result<(), Full>
    requires width { width ≤ 16 }
    requires value { (signed_of width).Fits value }
    ensures { Writes w.old w.new result ((signed_of width).spelling value) }
{
    let _place = w.place();
    if width == 0 {
        return Ok(());
    }
    put_signed(value, u32::from(width), w)
}

/// Signed numbers of so many bits, one after the other.
fn write_values(values: &[i32], width: u8, w: &mut BitWriter) -> Result<(), Full>
    requires width { width ≤ 16 }
    requires values { (n : ℕ) × (times n (signed_of width)).Fits values.now }
    ensures { (n : ℕ) → (times n (signed_of width)).Fits values.now →
        Writes w.old w.new result ((times n (signed_of width)).spelling values.now) }
{
    let _place = w.place();
    for value in values {
        write_signed(*value, width, w)?;
    }
    Ok(())
}

#[tactic(auto, unfolding(mlp_layout::specs::Layout::part, mlp_layout::specs::Layout::made, mlp_layout::specs::Layout::number_of, crate::specs::Filters::filter_state))]
fn write_state(state: &FilterState, w: &mut BitWriter) -> Result<(), Full>
    requires { (n : ℕ) × (filter_state n).Fits state.now }
    ensures { (n : ℕ) → (filter_state n).Fits state.now →
        Writes w.old w.new result ((filter_state n).spelling state.now) }
{
    let bits = u32::from(state.bits);
    let shift = u32::from(state.shift);
    put_all(&[(bits, 4), (shift, 4)], w)?;
    write_values(&state.values, state.bits, w)
}

/// The flag of a state, and the state.
fn write_state_if(state: &Option<FilterState>, w: &mut BitWriter) -> Result<(), Full>
    requires { (n : ℕ) × (group true (filter_state n)).Fits state.now }
    ensures { (n : ℕ) → (group true (filter_state n)).Fits state.now →
        Writes w.old w.new result ((group true (filter_state n)).spelling state.now) }
{
    match state {
        None => write_absent(true, w),
        Some(given) => {
            put_flag(true, w)?;
            write_state(given, w)
        }
    }
}

/// A filter.
pub fn write_filter<const N: usize>(given: &Filter<N>, w: &mut BitWriter) -> Result<(), Full>
    requires { (has_state : Bool) × Allowed (filter N has_state) given.now }
    ensures { (has_state : Bool) → Allowed (filter N has_state) given.now →
        Writes w.old w.new result ((filter N has_state).spelling given.now) }
{
    let order = given.coeffs.len() as u32;
    if order == 0 {
        return put_number(0, 4, w);
    }
    let shift = u32::from(given.shift);
    let coeff_bits = u32::from(given.coeff_bits);
    let coeff_shift = u32::from(given.coeff_shift);
    put_all(
        &[(order, 4), (shift, 4), (coeff_bits, 5), (coeff_shift, 3)],
        w,
    )?;
    write_values(&given.coeffs, given.coeff_bits, w)?;
    write_state_if(&given.state, w)
}
