//! The frames that a unit gives.
ghost use Rattle.std.specs.Prelude.{◌≡◌, ◌-◌, ◌<◌, ◌^◌, [], ℕ, List, ℤ, length, Some, if◌then◌else◌};
ghost use Rattle.mlp_params.specs.declared.state.State.{State};
ghost use Rattle.mlp_substream.specs.Blocks.{ForceFits};
ghost use Rattle.mlp_output.specs.Output.{dropped};
ghost use Rattle.mlp_params.specs.States.{IsState};
ghost use Rattle.mlp_contents.specs.Read.{AreWide, HaveMatrixed, Running, IsGiven};

use arrayvec::ArrayVec;
use mlp_matrix::Noise;
use mlp_output::{dropped, put_out};
use mlp_params::State;
use mlp_substream::Place;
use mlp_syntax::Segment;

/// How many frames of a unit are put out.
fn kept(place: &Place, segment: &Segment) -> usize
    ensures { result
        ≡ length segment.now.codes.items - dropped place.now.format segment.now.terminator }
{
    segment
        .codes
        .len()
        .saturating_sub(dropped(place.format, segment.terminator))
}

/// A frame has ten places.
#[inline(always)]
fn width(frame: &[i32; 10])
    ensures { length frame.now ≡ 10 }
{}

/// So have all of these. There is nothing to do for it, and no code comes of it.
#[inline(always)]
fn widths(frames: &[[i32; 10]; 160])
    ensures { AreWide frames.now }
{
    for i in 0..160 {
        width(&frames[i]);
    }
}

/// A restart begins an interval with this seed.
fn begin(restarts: bool, seed: u32, noise: &mut Noise, check: &mut u32)
    requires seed { seed < 2 ^ 23 }
    requires before { noise.old.seed < 2 ^ 23 }
    ensures seed { noise.new.seed ≡ (if restarts then seed else noise.old.seed) }
    ensures check { check.new ≡ (if restarts then 0 else check.old) }
    ensures room { noise.new.seed < 2 ^ 23 }
{
    if restarts {
        noise.seed = seed;
        *check = 0;
    }
}

/// Puts the frames of a unit into `rows`, by what is in force.
fn give_by(
    place: &Place,
    state: &State,
    segment: &Segment,
    noise: &mut Noise,
    check: &mut u32,
    frames: &mut [[i32; 10]; 160],
    rows: &mut ArrayVec<[i32; 8], 160>,
)
    requires state { IsState state.now }
    requires seed { noise.old.seed < 2 ^ 23 }
    ensures given { (channels : ℕ → List ℤ)
        → HaveMatrixed (Some state.now) channels (length segment.now.codes.items) frames.old
        → IsGiven place.now channels segment.now (Some state.now)
        (record { seed = noise.old.seed; check = check.old })
        (record { seed = noise.new.seed; check = check.new }) rows.new.items }
    ensures seed { noise.new.seed < 2 ^ 23 }
{
    widths(frames);
    begin(place.major, state.restart.seed, noise, check);
    let count = segment.codes.len();
    put_out(
        state,
        noise,
        &segment.codes,
        kept(place, segment),
        &mut frames[..count],
        check,
        rows,
    );
}

/// Puts the frames of a unit into `rows`, by the segment of the last substream that was read and what is in force
/// behind it. The first frames have the channels.
pub fn give(
    place: &Place,
    force: &Option<State>,
    segment: &Segment,
    noise: &mut Noise,
    check: &mut u32,
    frames: &mut [[i32; 10]; 160],
    rows: &mut ArrayVec<[i32; 8], 160>,
)
    requires fits { ForceFits place.now force.now }
    requires seed { noise.old.seed < 2 ^ 23 }
    ensures given { (channels : ℕ → List ℤ)
        → HaveMatrixed force.now channels (length segment.now.codes.items) frames.old
        → IsGiven place.now channels segment.now force.now
        (record { seed = noise.old.seed; check = check.old })
        (record { seed = noise.new.seed; check = check.new }) rows.new.items }
    ensures seed { noise.new.seed < 2 ^ 23 }
{
    match force {
        Some(state) => give_by(place, state, segment, noise, check, frames, rows),
        None => {
            begin(place.major, 0, noise, check);
            noise.skip(segment.codes.len());
            rows.clear();
        }
    }
}
