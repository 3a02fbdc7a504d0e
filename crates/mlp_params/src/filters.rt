//! Reading prediction filters. Source: the MLP substream syntax as publicly documented.
ghost use Rattle.std.specs.Prelude.{◌≡◌, ◌+◌, ◌≤◌, ◌<◌, ◌^◌, IsTrue, IfOk};
ghost use Rattle.mlp_layout.specs.Reading.{Gives};
ghost use Rattle.mlp_layout.specs.Combined.{signed_of, times, present};
ghost use Rattle.mlp_bits.specs.Signed.{signed, HasBits};
ghost use Rattle.mlp_params.specs.Filters.{widths, filter_state, filter};

use arrayvec::ArrayVec;
use mlp_bits::{BitReader, signed_value};
use mlp_layout::{broken, byte, flag, number};
use mlp_syntax::{Broken, Field, Filter, FilterState};

/// What so many bits that spell a number stand for, 0 where there are none.
fn value_of(n: u32, width: u8) -> i32
    requires width { width ≤ 16 }
    requires fits { n < 2 ^ width }
    ensures { result ≡ signed width n }
{
    if width == 0 {
        0
    } else {
        signed_value(n, u32::from(width))
    }
}

/// A signed number of so many bits, 0 where there are none.
#[tactic(auto, unfolding(mlp_layout::specs::Layout::seen, mlp_layout::specs::Combined::signed_of))]
pub fn read_signed(width: u8, r: &mut BitReader) -> Result<i32, Broken>
    requires { width ≤ 16 }
    ensures read { Gives (λ z. z) r.old r.new result ((signed_of width).read r.old.all r.old.place) }
    ensures bound { IfOk result (λ z. HasBits width z) }
{
    let n = number(u32::from(width), r)?;
    Ok(value_of(n, width))
}

/// So many signed numbers of so many bits.
fn read_values<const N: usize>(
    count: u8,
    width: u8,
    r: &mut BitReader,
) -> Result<ArrayVec<i32, N>, Broken>
    requires width { width ≤ 16 }
    requires room { count ≤ N }
    ensures { Gives (λ v. v.items) r.old r.new result ((times count (signed_of width)).read r.old.all r.old.place) }
{
    let mut values: ArrayVec<i32, N> = ArrayVec::new();
    for _ in 0..count {
        let value = read_signed(width, r)?;
        values.push(value);
    }
    Ok(values)
}

#[tactic(auto, unfolding(mlp_layout::specs::Layout::part, mlp_layout::specs::Layout::made, crate::specs::Filters::filter_state))]
fn read_state(order: u8, r: &mut BitReader) -> Result<FilterState, Broken>
    requires { order ≤ 4 }
    ensures { Gives (λ x. x) r.old r.new result ((filter_state order).read r.old.all r.old.place) }
{
    let bits = byte(4, r)?;
    let shift = byte(4, r)?;
    let values = read_values(order, bits, r)?;
    Ok(FilterState {
        bits,
        shift,
        values,
    })
}

#[tactic(auto, unfolding(mlp_layout::specs::Layout::seen, mlp_layout::specs::Layout::made, mlp_layout::specs::Combined::chosen, mlp_layout::specs::Combined::present))]
fn read_state_if(there: bool, order: u8, r: &mut BitReader) -> Result<Option<FilterState>, Broken>
    requires { IsTrue there → order ≤ 4 }
    ensures { Gives (λ x. x) r.old r.new result ((present there (filter_state order)).read r.old.all r.old.place) }
{
    if !there {
        return Ok(None);
    }
    let state = read_state(order, r)?;
    Ok(Some(state))
}

/// The coefficient bits and the coefficient shift.
#[tactic(auto, unfolding(mlp_layout::specs::Layout::part, mlp_layout::specs::Layout::ruled, mlp_layout::specs::Layout::made, crate::specs::Filters::widths))]
fn read_widths(r: &mut BitReader) -> Result<(u8, u8), Broken>
    ensures read { Gives (λ w. w) r.old r.new result (widths.read r.old.all r.old.place) }
    ensures bound { IfOk result (λ w. w.0 ≤ 16) }
{
    let at = r.place();
    let coeff_bits = byte(5, r)?;
    if coeff_bits == 0 || coeff_bits > 16 {
        return Err(broken(Field::CoeffBits, at));
    }
    let coeff_shift = byte(3, r)?;
    if coeff_bits + coeff_shift > 16 {
        return Err(broken(Field::CoeffBits, at));
    }
    Ok((coeff_bits, coeff_shift))
}

/// A filter of at most `N` coefficients.
#[tactic(auto, unfolding(mlp_layout::specs::Layout::part, mlp_layout::specs::Layout::ruled, mlp_layout::specs::Layout::made, mlp_layout::specs::Combined::chosen, crate::specs::Filters::filter))]
pub fn read_filter<const N: usize>(has_state: bool, r: &mut BitReader) -> Result<Filter<N>, Broken>
    requires { IsTrue has_state → N ≤ 4 }
    ensures { Gives (λ x. x) r.old r.new result ((filter N has_state).read r.old.all r.old.place) }
{
    let at = r.place();
    let order = byte(4, r)?;
    if order as usize > N {
        return Err(broken(Field::FilterOrder, at));
    }
    if order == 0 {
        return Ok(Filter {
            shift: 0,
            coeff_bits: 0,
            coeff_shift: 0,
            coeffs: ArrayVec::new(),
            state: None,
        });
    }
    let shift = byte(4, r)?;
    let (coeff_bits, coeff_shift) = read_widths(r)?;
    let coeffs = read_values(order, coeff_bits, r)?;
    let at = r.place();
    let there = flag(r)?;
    if there && !has_state {
        return Err(broken(Field::FirState, at));
    }
    let state = read_state_if(there, order, r)?;
    Ok(Filter {
        shift,
        coeff_bits,
        coeff_shift,
        coeffs,
        state,
    })
}
