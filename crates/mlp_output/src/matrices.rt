//! Noise and rows over the frames of a unit.
ghost use Rattle.std.specs.Prelude.{◌≡◌, ◌+◌, ◌<◌, ◌≤◌, ◌^◌, false, length, map, take, if◌then◌else◌};
ghost use Rattle.mlp_params.specs.States.{IsState};
ghost use Rattle.mlp_matrix.specs.Noise.{seed_at};
ghost use Rattle.mlp_output.specs.Output.{samples_of, heard};
ghost use Rattle.mlp_output.specs.Frames.{with_noise, HasNoneBehind, HearNone};

use mlp_matrix::{Noise, apply_block};
use mlp_params::State;
use mlp_syntax::{FrameCode, MatrixRow, Restart};

/// Whether there is a coefficient behind so many places.
fn has_behind(places: u8, coeffs: &[Option<i32>]) -> bool
    ensures { result ≡ false → HasNoneBehind places coeffs.now }
{
    for i in usize::from(places)..coeffs.len() {
        if coeffs[i].is_some() {
            return true;
        }
    }
    false
}

/// Whether a row has a coefficient for the noise, which stands behind so many channels.
fn hears_noise(channels: u8, rows: &[MatrixRow]) -> bool
    ensures { result ≡ false → HearNone channels rows.now }
{
    for i in 0..rows.len() {
        if has_behind(channels, rows[i].coeffs.as_slice()) {
            return true;
        }
    }
    false
}

/// Puts the noise behind the matrix channels of each frame, in the noise kind that has any. The seed moves on in both.
fn put_noise(restart: &Restart, noise: &mut Noise, frames: &mut [[i32; 10]])
    requires seed { noise.old.seed < 2 ^ 23 }
    requires shift { restart.now.noise_shift < 16 }
    requires channels { restart.now.max_matrix ≤ 7 }
    ensures noise { frames.new ≡ with_noise restart.now noise.old.seed frames.old }
    ensures seed { noise.new.seed ≡ seed_at noise.old.seed (length frames.old) }
    ensures room { noise.new.seed < 2 ^ 23 }
{
    if restart.kind == 0 {
        noise.put_each(restart.noise_shift, restart.max_matrix + 1, frames);
    } else {
        noise.skip(frames.len());
    }
}

/// The same, unless no row hears the noise: then frames stay as they are.
fn put_heard_noise(heard: bool, restart: &Restart, noise: &mut Noise, frames: &mut [[i32; 10]])
    requires seed { noise.old.seed < 2 ^ 23 }
    requires shift { restart.now.noise_shift < 16 }
    requires channels { restart.now.max_matrix ≤ 7 }
    ensures noise { frames.new ≡ (if heard then with_noise restart.now noise.old.seed frames.old else frames.old) }
    ensures seed { noise.new.seed ≡ seed_at noise.old.seed (length frames.old) }
    ensures room { noise.new.seed < 2 ^ 23 }
{
    if heard {
        put_noise(restart, noise, frames);
    } else {
        noise.skip(frames.len());
    }
}

/// The bypassed bits of each frame.
fn gather(codes: &[FrameCode], bypass: &mut [u8])
    requires { length codes.now ≡ length bypass.old }
    ensures { bypass.new ≡ map (λ f. f.bypass) codes.now }
{
    for i in 0..codes.len() {
        bypass[i] = codes[i].bypass;
    }
}

/// Applies the rows in force to each frame, with its noise and its bypassed bits. Without rows frames stay as they are.
pub fn apply_rows(state: &State, noise: &mut Noise, codes: &[FrameCode], frames: &mut [[i32; 10]])
    requires state { IsState state.now }
    requires seed { noise.old.seed < 2 ^ 23 }
    requires same { length codes.now ≡ length frames.old }
    requires few { length codes.now ≤ 160 }
    ensures samples { map (samples_of state.now.shifts.items) frames.new ≡ heard state.now
        noise.old.seed (map (λ f. f.bypass) codes.now)
        (map (take (state.now.restart.max_matrix + 1)) frames.old) }
    ensures seed { noise.new.seed ≡ seed_at noise.old.seed (length codes.now) }
    ensures room { noise.new.seed < 2 ^ 23 }
{
    if state.rows.is_empty() {
        noise.skip(frames.len());
        return;
    }
    let channels = state.restart.max_matrix + 1;
    let heard = hears_noise(channels, state.rows.as_slice());
    put_heard_noise(heard, &state.restart, noise, frames);
    let mut bypass = [0; 160];
    let bypass = &mut bypass[..codes.len()];
    gather(codes, bypass);
    apply_block(
        state.rows.as_slice(),
        state.steps.as_slice(),
        channels,
        frames,
        bypass,
    );
}
