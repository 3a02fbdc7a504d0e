//! Reading the parameters of channels. Source: the MLP substream syntax as publicly documented.
#![tactic(auto, unfolding(mlp_layout::specs::Layout::part, mlp_layout::specs::Layout::seen, mlp_layout::specs::Layout::ruled, mlp_layout::specs::Layout::tested, mlp_layout::specs::Layout::made, mlp_layout::specs::Combined::chosen, mlp_layout::specs::Combined::present, mlp_layout::specs::Combined::group, crate::specs::Parameters::channel, crate::specs::Parameters::filters_tested))]

ghost use Rattle.std.specs.Prelude.{◌≡◌, ◌+◌, ◌≤◌, ◌<◌, true, false, length, unwrap_or};
ghost use Rattle.mlp_bits.specs.Bits.{bit};
ghost use Rattle.mlp_layout.specs.Reading.{Gives};
ghost use Rattle.mlp_layout.specs.Combined.{signed_of, group, each};
ghost use Rattle.mlp_params.specs.Filters.{filter};
ghost use Rattle.mlp_params.specs.Parameters.{one_precision, channel};

use crate::filters::{read_filter, read_signed};
use crate::state::ChannelState;
use arrayvec::ArrayVec;
use mlp_bits::BitReader;
use mlp_layout::{broken, byte, flag};
use mlp_syntax::{Broken, ChannelParams, Field, Filter};

/// Whether this bit of the presence flags is set.
pub fn has_bit(flags: u8, i: u32) -> bool
    requires { i < 8 }
    ensures { result ≡ bit flags i }
{
    (flags >> i) % 2 == 1
}

fn read_fir(there: bool, r: &mut BitReader) -> Result<Option<Filter<8>>, Broken>
    ensures { Gives (λ x. x) r.old r.new result ((group there (filter 8 false)).read r.old.all r.old.place) }
{
    if !there {
        return Ok(None);
    }
    let given = flag(r)?;
    if !given {
        return Ok(None);
    }
    let fir = read_filter::<8>(false, r)?;
    Ok(Some(fir))
}

fn read_iir(there: bool, r: &mut BitReader) -> Result<Option<Filter<4>>, Broken>
    ensures { Gives (λ x. x) r.old r.new result ((group there (filter 4 true)).read r.old.all r.old.place) }
{
    if !there {
        return Ok(None);
    }
    let given = flag(r)?;
    if !given {
        return Ok(None);
    }
    let iir = read_filter::<4>(true, r)?;
    Ok(Some(iir))
}

fn read_offset(there: bool, r: &mut BitReader) -> Result<Option<i16>, Broken>
    ensures { Gives (λ x. x) r.old r.new result ((group there (signed_of 15)).read r.old.all r.old.place) }
{
    if !there {
        return Ok(None);
    }
    let given = flag(r)?;
    if !given {
        return Ok(None);
    }
    let offset = read_signed(15, r)?;
    Ok(Some(offset as i16))
}

/// The filter that is in force behind a group.
fn filter_now<'a, const N: usize>(
    given: &'a Option<Filter<N>>,
    before: &'a Filter<N>,
) -> &'a Filter<N>
    ensures { result.now ≡ unwrap_or given.now before.now }
{
    match given {
        None => before,
        Some(filter) => filter,
    }
}

fn one_precision(fir: &Filter<8>, iir: &Filter<4>) -> bool
    ensures { result ≡ one_precision fir.now iir.now }
{
    fir.coeffs.len() == 0 || iir.coeffs.len() == 0 || fir.shift == iir.shift
}

pub fn read_channel(
    flags: u8,
    in_force: &ChannelState,
    r: &mut BitReader,
) -> Result<ChannelParams, Broken>
    ensures { Gives (λ x. x) r.old r.new result ((channel flags in_force.now).read r.old.all r.old.place) }
{
    let fir = read_fir(has_bit(flags, 3), r)?;
    let iir = read_iir(has_bit(flags, 2), r)?;
    let at = r.place();
    let fir_now = filter_now(&fir, &in_force.fir);
    let iir_now = filter_now(&iir, &in_force.iir);
    if fir_now.coeffs.len() + iir_now.coeffs.len() > 8 {
        return Err(broken(Field::FilterSum, at));
    }
    if !one_precision(fir_now, iir_now) {
        return Err(broken(Field::FilterPrecision, at));
    }
    let offset = read_offset(has_bit(flags, 1), r)?;
    let book = byte(2, r)?;
    let at = r.place();
    let low = byte(5, r)?;
    if book > 0 && low > 24 {
        return Err(broken(Field::HuffLsbs, at));
    }
    Ok(ChannelParams {
        fir,
        iir,
        offset,
        book,
        low,
    })
}

fn read_given(
    flags: u8,
    in_force: &ChannelState,
    r: &mut BitReader,
) -> Result<Option<ChannelParams>, Broken>
    ensures { Gives (λ x. x) r.old r.new result
        ((group true (channel flags in_force.now)).read r.old.all r.old.place) }
{
    let given = flag(r)?;
    if !given {
        return Ok(None);
    }
    let channel = read_channel(flags, in_force, r)?;
    Ok(Some(channel))
}

/// The parameters of the channels, each behind its flag and against what is in force in it, in place of those in `out`.
pub fn read_channels(
    flags: u8,
    in_force: &[ChannelState],
    r: &mut BitReader,
    out: &mut ArrayVec<Option<ChannelParams>, 8>,
) -> Result<(), Broken>
    requires { length in_force.now ≤ 8 }
    ensures { Gives (λ _. out.new.items) r.old r.new result
        ((each (λ c. group true (channel flags c)) in_force.now).read r.old.all r.old.place) }
{
    out.clear();
    for state in in_force {
        let channel = read_given(flags, state, r)?;
        out.push(channel);
    }
    Ok(())
}
