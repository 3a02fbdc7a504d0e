//! Reading the decoding parameters of a block. Source: the MLP substream syntax as publicly documented.
#![tactic(auto, unfolding(mlp_layout::specs::Layout::part, mlp_layout::specs::Layout::seen, mlp_layout::specs::Layout::ruled, mlp_layout::specs::Layout::made, mlp_layout::specs::Combined::chosen, mlp_layout::specs::Combined::present, mlp_layout::specs::Combined::group, mlp_layout::specs::Combined::listed, crate::specs::Parameters::groups, crate::specs::Parameters::params))]

ghost use Rattle.std.specs.Prelude.{◌≡◌, ◌+◌, ◌≤◌, ◌<◌, IfOk, OnOk, Option, drop, unwrap_or};
ghost use Rattle.arrayvec.specs.ArrayVec.{array_vec_len};
ghost use Rattle.mlp_layout.specs.Reading.{Gives};
ghost use Rattle.mlp_layout.specs.Layout.{number_of};
ghost use Rattle.mlp_layout.specs.Combined.{group, times, listed};
ghost use Rattle.mlp_layout.specs.Allowed.{Allowed};
ghost use Rattle.mlp_params.specs.Matrices.{rows};
ghost use Rattle.mlp_params.specs.Parameters.{block_size_of, output_shift, given_channels, groups, params};
ghost use Rattle.mlp_params.specs.States.{IsState};

use crate::channels::{has_bit, read_channels};
use crate::matrices::read_matrices;
use crate::state::{ChannelState, State};
use arrayvec::ArrayVec;
use mlp_bits::BitReader;
use mlp_layout::{broken, byte, flag, word};
use mlp_syntax::{Broken, ChannelParams, Field, Kind, MatrixRow, Params, Restart};

fn read_presence(there: bool, r: &mut BitReader) -> Result<Option<u8>, Broken>
    ensures { Gives (λ x. x) r.old r.new result ((group there (number_of 8)).read r.old.all r.old.place) }
{
    if !there {
        return Ok(None);
    }
    let given = flag(r)?;
    if !given {
        return Ok(None);
    }
    let presence = byte(8, r)?;
    Ok(Some(presence))
}

fn read_block_size(there: bool, unit_frames: u16, r: &mut BitReader) -> Result<Option<u16>, Broken>
    ensures { Gives (λ x. x) r.old r.new result
        ((group there (block_size_of unit_frames)).read r.old.all r.old.place) }
{
    if !there {
        return Ok(None);
    }
    let given = flag(r)?;
    if !given {
        return Ok(None);
    }
    let at = r.place();
    let block_size = word(9, r)?;
    if block_size < 8 || block_size > unit_frames {
        return Err(broken(Field::BlockSize, at));
    }
    Ok(Some(block_size))
}

fn read_matrices_if(
    there: bool,
    format: Kind,
    restart: &Restart,
    r: &mut BitReader,
) -> Result<Option<ArrayVec<MatrixRow, 8>>, Broken>
    requires { restart.now.max_matrix ≤ 7 }
    ensures { Gives (λ x. x) r.old r.new result ((group there (rows format restart.now)).read r.old.all r.old.place) }
{
    if !there {
        return Ok(None);
    }
    let given = flag(r)?;
    if !given {
        return Ok(None);
    }
    let matrices = read_matrices(format, restart, r)?;
    Ok(Some(matrices))
}

fn read_shift(r: &mut BitReader) -> Result<u8, Broken>
    ensures { Gives (λ x. x) r.old r.new result (output_shift.read r.old.all r.old.place) }
{
    let at = r.place();
    let shift = byte(4, r)?;
    if shift >= 8 {
        return Err(broken(Field::OutputShift, at));
    }
    Ok(shift)
}

#[tactic(auto)]
fn read_shifts(count: u8, r: &mut BitReader) -> Result<ArrayVec<u8, 8>, Broken>
    requires { count ≤ 8 }
    ensures { Gives (λ v. v.items) r.old r.new result ((times count output_shift).read r.old.all r.old.place) }
{
    let mut shifts: ArrayVec<u8, 8> = ArrayVec::new();
    for _ in 0..count {
        let shift = read_shift(r)?;
        shifts.push(shift);
    }
    Ok(shifts)
}

fn read_shifts_if(
    there: bool,
    count: u8,
    r: &mut BitReader,
) -> Result<Option<ArrayVec<u8, 8>>, Broken>
    requires { count ≤ 8 }
    ensures { Gives (λ x. x) r.old r.new result
        ((group there (listed count output_shift)).read r.old.all r.old.place) }
{
    if !there {
        return Ok(None);
    }
    let given = flag(r)?;
    if !given {
        return Ok(None);
    }
    let shifts = read_shifts(count, r)?;
    Ok(Some(shifts))
}

#[tactic(auto)]
fn read_steps(count: u8, r: &mut BitReader) -> Result<ArrayVec<u8, 8>, Broken>
    requires { count ≤ 8 }
    ensures { Gives (λ v. v.items) r.old r.new result ((times count (number_of 4)).read r.old.all r.old.place) }
{
    let mut steps: ArrayVec<u8, 8> = ArrayVec::new();
    for _ in 0..count {
        let step = byte(4, r)?;
        steps.push(step);
    }
    Ok(steps)
}

fn read_steps_if(
    there: bool,
    count: u8,
    r: &mut BitReader,
) -> Result<Option<ArrayVec<u8, 8>>, Broken>
    requires { count ≤ 8 }
    ensures { Gives (λ x. x) r.old r.new result
        ((group there (listed count (number_of 4))).read r.old.all r.old.place) }
{
    if !there {
        return Ok(None);
    }
    let given = flag(r)?;
    if !given {
        return Ok(None);
    }
    let steps = read_steps(count, r)?;
    Ok(Some(steps))
}

/// What is in force in the channels that the substream codes.
#[tactic(auto)]
fn coded(state: &State) -> &[ChannelState]
    requires { state.now.restart.min ≤ array_vec_len state.now.channels }
    ensures { result.now ≡ drop state.now.restart.min state.now.channels.items }
{
    let channels = state.channels.as_slice();
    &channels[state.restart.min as usize..]
}

/// The parameters of the channels that the substream codes, in place of those in `out`.
#[tactic(auto)]
fn read_coded(
    flags: u8,
    state: &State,
    r: &mut BitReader,
    out: &mut ArrayVec<Option<ChannelParams>, 8>,
) -> Result<(), Broken>
    requires least { state.now.restart.min ≤ array_vec_len state.now.channels }
    requires most { array_vec_len state.now.channels ≤ 8 }
    ensures { Gives (λ _. out.new.items) r.old r.new result
        ((given_channels flags state.now).read r.old.all r.old.place) }
{
    read_channels(flags, coded(state), r, out)
}

/// What follows the presence flags, in place of what is in `out`.
fn read_groups(
    state: &State,
    presence: Option<u8>,
    flags: u8,
    r: &mut BitReader,
    out: &mut Params,
) -> Result<(), Broken>
    requires channels { array_vec_len state.now.channels ≤ 8 }
    requires least { state.now.restart.min ≤ array_vec_len state.now.channels }
    requires greatest { state.now.restart.max ≤ 7 }
    requires matrix { state.now.restart.max_matrix ≤ 7 }
    ensures { Gives (λ _. out.new) r.old r.new result ((groups state.now presence flags).read r.old.all r.old.place) }
{
    let restart = &state.restart;
    out.presence = presence;
    out.block_size = read_block_size(has_bit(flags, 7), state.unit_frames, r)?;
    out.matrices = read_matrices_if(has_bit(flags, 6), state.format, restart, r)?;
    out.shifts = read_shifts_if(has_bit(flags, 5), restart.max_matrix + 1, r)?;
    out.steps = read_steps_if(has_bit(flags, 4), restart.max + 1, r)?;
    read_coded(flags, state, r, &mut out.channels)
}

/// The presence flags, and what follows them, in place of what is in `out`.
fn read_all(state: &State, r: &mut BitReader, out: &mut Params) -> Result<(), Broken>
    requires { IsState state.now }
    ensures { Gives (λ _. out.new) r.old r.new result ((params state.now).read r.old.all r.old.place) }
{
    let presence = read_presence(has_bit(state.presence, 0), r)?;
    let flags = presence.unwrap_or(state.presence);
    read_groups(state, presence, flags, r, out)
}

/// Reads the decoding parameters of a block, against what is in force before it, in place of those in `out`.
///
/// # Errors
///
/// The first rule that fails in the order of the fields, from `BlockSize` up to `HuffLsbs`, or `SegmentShort` at the
/// first field whose bits aren't all there; places are bits from the reader's first. `out` is of no use then.
#[tactic(auto)]
pub fn read_params_into(state: &State, r: &mut BitReader, out: &mut Params) -> Result<(), Broken>
    requires { IsState state.now }
    ensures allowed { OnOk result (Allowed (params state.now) out.new) }
    ensures read { Gives (λ _. out.new) r.old r.new result ((params state.now).read r.old.all r.old.place) }
{
    let _first = r.place();
    read_all(state, r, out)
}

/// Reads the decoding parameters of a block, against what is in force before it.
///
/// # Errors
///
/// Those of `read_params_into`.
#[tactic(auto)]
pub fn read_params(state: &State, r: &mut BitReader) -> Result<Params, Broken>
    requires { IsState state.now }
    ensures allowed { IfOk result (λ p. Allowed (params state.now) p) }
    ensures read { Gives (λ x. x) r.old r.new result ((params state.now).read r.old.all r.old.place) }
{
    let mut params = Params::default();
    read_params_into(state, r, &mut params)?;
    Ok(params)
}
