//! Writing the decoding parameters of a block.
ghost use Rattle.std.specs.Prelude.{◌≡◌, ◌<◌, ℕ, unwrap_or};
ghost use Rattle.mlp_layout.specs.Layout.{number_of};
ghost use Rattle.mlp_layout.specs.Combined.{group, listed};
ghost use Rattle.mlp_layout.specs.Writing.{Writes};
ghost use Rattle.mlp_params.specs.declared.state.State.{State};
ghost use Rattle.mlp_syntax.specs.declared.major.Kind.{Kind};
ghost use Rattle.mlp_layout.specs.Allowed.{Allowed};
ghost use Rattle.mlp_params.specs.Matrices.{rows};
ghost use Rattle.mlp_params.specs.Parameters.{block_size_of, output_shift, groups, params};
ghost use Rattle.mlp_params.specs.States.{IsState};

use crate::channels::has_bit;
use crate::state::State;
use crate::write_channels::write_channels;
use crate::write_filters::{write_absent, write_numbers};
use crate::write_matrices::write_matrices;
use arrayvec::ArrayVec;
use mlp_bits::{BitWriter, Full};
use mlp_layout::{put_flag, put_number};
use mlp_syntax::{MatrixRow, Params, Restart};

fn write_presence(there: bool, presence: &Option<u8>, w: &mut BitWriter) -> Result<(), Full>
    requires { Allowed (group there (number_of 8)) presence.now }
    ensures { Writes w.old w.new result ((group there (number_of 8)).spelling presence.now) }
{
    match presence {
        None => write_absent(there, w),
        Some(given) => {
            put_flag(true, w)?;
            put_number(u32::from(*given), 8, w)
        }
    }
}

fn write_block_size(there: bool, block_size: &Option<u16>, w: &mut BitWriter) -> Result<(), Full>
    requires { (unit_frames : ℕ) × Allowed (group there (block_size_of unit_frames)) block_size.now }
    ensures { (unit_frames : ℕ) → Allowed (group there (block_size_of unit_frames)) block_size.now
        → Writes w.old w.new result ((group there (block_size_of unit_frames)).spelling block_size.now) }
{
    match block_size {
        None => write_absent(there, w),
        Some(given) => {
            put_flag(true, w)?;
            put_number(u32::from(*given), 9, w)
        }
    }
}

fn write_matrices_if(
    there: bool,
    restart: &Restart,
    matrices: &Option<ArrayVec<MatrixRow, 8>>,
    w: &mut BitWriter,
) -> Result<(), Full>
    requires { (format : Kind) × Allowed (group there (rows format restart.now)) matrices.now }
    ensures { (format : Kind) → Allowed (group there (rows format restart.now)) matrices.now
        → Writes w.old w.new result ((group there (rows format restart.now)).spelling matrices.now) }
{
    match matrices {
        None => write_absent(there, w),
        Some(given) => {
            put_flag(true, w)?;
            write_matrices(restart, given, w)
        }
    }
}

fn write_shifts(
    there: bool,
    shifts: &Option<ArrayVec<u8, 8>>,
    w: &mut BitWriter,
) -> Result<(), Full>
    requires { (n : ℕ) × Allowed (group there (listed n output_shift)) shifts.now }
    ensures { (n : ℕ) → Allowed (group there (listed n output_shift)) shifts.now
        → Writes w.old w.new result ((group there (listed n output_shift)).spelling shifts.now) }
{
    match shifts {
        None => write_absent(there, w),
        Some(given) => {
            put_flag(true, w)?;
            write_numbers(given, 4, w)
        }
    }
}

fn write_steps(there: bool, steps: &Option<ArrayVec<u8, 8>>, w: &mut BitWriter) -> Result<(), Full>
    requires { (n : ℕ) × Allowed (group there (listed n (number_of 4))) steps.now }
    ensures { (n : ℕ) → Allowed (group there (listed n (number_of 4))) steps.now
        → Writes w.old w.new result ((group there (listed n (number_of 4))).spelling steps.now) }
{
    match steps {
        None => write_absent(there, w),
        Some(given) => {
            put_flag(true, w)?;
            write_numbers(given, 4, w)
        }
    }
}

/// What follows the presence flags.
fn write_groups(state: &State, given: &Params, flags: u8, w: &mut BitWriter) -> Result<(), Full>
    requires state { IsState state.now }
    requires given { Allowed (params state.now) given.now }
    requires flags { flags ≡ unwrap_or given.now.presence state.now.presence }
    ensures { Writes w.old w.new result ((groups state.now given.now.presence flags).spelling given.now) }
{
    write_block_size(has_bit(flags, 7), &given.block_size, w)?;
    write_matrices_if(has_bit(flags, 6), &state.restart, &given.matrices, w)?;
    write_shifts(has_bit(flags, 5), &given.shifts, w)?;
    write_steps(has_bit(flags, 4), &given.steps, w)?;
    write_channels(flags, &given.channels, w)
}

/// Writes the parameters of a block, against what is in force before it: their one spelling.
///
/// # Errors
///
/// `Full` exactly where the bits would pass 65,520; the writer then has its old bits and the first of the new ones.
pub fn write_params(state: &State, given: &Params, w: &mut BitWriter) -> Result<(), Full>
    requires state { IsState state.now }
    requires given { Allowed (params state.now) given.now }
    ensures { Writes w.old w.new result ((params state.now).spelling given.now) }
{
    write_presence(has_bit(state.presence, 0), &given.presence, w)?;
    let flags = given.presence.unwrap_or(state.presence);
    write_groups(state, given, flags, w)
}
