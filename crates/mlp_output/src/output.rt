//! The samples of a unit's frames.
ghost use Rattle.std.specs.Prelude.{◌≡◌, ◌+◌, ◌<◌, ◌≤◌, ◌^◌, length, map, take};
ghost use Rattle.arrayvec.specs.ArrayVec.{array_vec_len};
ghost use Rattle.mlp_params.specs.States.{IsState};
ghost use Rattle.mlp_matrix.specs.Noise.{seed_at};
ghost use Rattle.mlp_output.specs.Output.{heard, placed_each, check_of};

use crate::matrices::apply_rows;
use crate::samples::put_samples;
use arrayvec::ArrayVec;
use mlp_matrix::Noise;
use mlp_params::State;
use mlp_syntax::FrameCode;

/// Makes a list of so many rows, which hold anything.
fn make_room(out: &mut ArrayVec<[i32; 8], 160>, count: usize)
    requires { count ≤ 160 }
    ensures { array_vec_len out.new ≡ count }
{
    out.truncate(count);
    for _ in out.len()..count {
        out.push([0; 8]);
    }
}

/// The samples of the first `kept` frames of a unit, in eight places each, by what is in force in the substream.
/// `frames` are the coded channels, each from matrix channel 0 to the greatest; the places behind these may hold
/// anything. `codes` has their bypassed bits. The noise moves on in each frame, and the samples are added to the
/// running check.
pub fn put_out(
    state: &State,
    noise: &mut Noise,
    codes: &[FrameCode],
    kept: usize,
    frames: &mut [[i32; 10]],
    check: &mut u32,
    out: &mut ArrayVec<[i32; 8], 160>,
)
    requires state { IsState state.now }
    requires seed { noise.old.seed < 2 ^ 23 }
    requires same { length codes.now ≡ length frames.old }
    requires kept { kept ≤ length codes.now }
    requires few { length codes.now ≤ 160 }
    ensures samples { out.new.items ≡ placed_each state.now (take kept (heard state.now
        noise.old.seed (map (λ f. f.bypass) codes.now)
        (map (take (state.now.restart.max_matrix + 1)) frames.old))) }
    ensures seed { noise.new.seed ≡ seed_at noise.old.seed (length codes.now) }
    ensures room { noise.new.seed < 2 ^ 23 }
    ensures check { check.new ≡ check_of check.old (take kept (heard state.now
        noise.old.seed (map (λ f. f.bypass) codes.now)
        (map (take (state.now.restart.max_matrix + 1)) frames.old))) }
{
    apply_rows(state, noise, codes, frames);
    make_room(out, kept);
    let assign = state.restart.assign.as_slice();
    let rows = out.as_mut_slice();
    put_samples(
        state.shifts.as_slice(),
        assign,
        &frames[..kept],
        rows,
        check,
    );
}
