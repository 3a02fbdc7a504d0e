//! The generator of PCM.
ghost use Rattle.std.specs.Prelude.{◌≡◌, ◌+◌, ◌*◌, ◌<◌, ◌≤◌, ◌^◌, ◌-ℤ◌, ◌+ℤ◌, ◌*ℤ◌, map, replicate, pos, neg_ℤ, ◌≤ℤ◌, ℕ};
ghost use Rattle.std.specs.List.{range_with_len};
ghost use Rattle.mlp_fold.specs.Profile.{AreMixed};
ghost use Rattle.mlp_gen.specs.Generator.{next_state, state_after, noise, triangle, sample, frame_from, frame_at};

use mlp_arith::clear;
use mlp_fold::Profile;
use mlp_syntax::Frames;

fn next_state(state: u32) -> u32
    ensures { result ≡ next_state state }
{
    state.wrapping_mul(1_664_525).wrapping_add(1_013_904_223)
}

/// The noise of a state, from -128 to 127.
fn noise(state: u32) -> i64
    ensures value { result ≡ noise state }
    ensures least { neg_ℤ (pos 128) ≤ℤ result }
    ensures most { result ≤ℤ pos 127 }
{
    i64::from(state / 16_777_216) - 128
}

/// Where the triangle of a channel is at a frame, from -1024 to 1024.
fn triangle(frame: u64, channel: u8) -> i64
    requires { frame < 2 ^ 40 }
    ensures value { result ≡ triangle frame channel }
    ensures least { neg_ℤ (pos 1024) ≤ℤ result }
    ensures most { result ≤ℤ pos 1024 }
{
    let phase = (frame * (u64::from(channel) + 1) * 37 % 4096) as u16;
    let distance = if phase < 2048 {
        2048 - phase
    } else {
        phase - 2048
    };
    i64::from(distance) - 1024
}

/// The value of a channel at a frame, by its state.
fn value(state: u32, frame: u64, channel: u8) -> i64
    requires { frame < 2 ^ 40 }
    ensures value { result ≡ triangle frame channel *ℤ pos 4096 +ℤ noise state *ℤ pos 16 }
    ensures least { neg_ℤ (pos 4196352) ≤ℤ result }
    ensures most { result ≤ℤ pos 4196336 }
{
    triangle(frame, channel) * 4096 + noise(state) * 16
}

/// The same with the `low` lowest bits cleared: a sample.
fn sample(low: u8, state: u32, frame: u64, channel: u8) -> i32
    requires low { low ≤ 8 }
    requires frame { frame < 2 ^ 40 }
    ensures { result ≡ sample low state frame channel }
{
    clear(low, value(state, frame, channel)) as i32
}

/// Makes a frame, in place of zeros, and answers the state behind it.
fn make_frame(low: u8, channels: u8, state: u32, frame: u64, row: &mut [i32; 8]) -> u32
    requires low { low ≤ 8 }
    requires channels { channels ≤ 8 }
    requires frame { frame < 2 ^ 40 }
    requires zeros { row.old ≡ replicate 8 (pos 0) }
    ensures frame { row.new ≡ frame_from low channels state frame }
    ensures state { result ≡ state_after state channels }
{
    let mut last = state;
    for c in 0..channels {
        last = next_state(last);
        row[usize::from(c)] = sample(low, last, frame, c);
    }
    last
}

/// Replaces the rows by so many frames from one on, before which the generator has this state, and answers the state
/// behind them.
pub fn make_unit(profile: &Profile, count: u64, first: u64, state: u32, out: &mut Frames) -> u32
    requires profile { AreMixed profile.now.mix profile.now.depth profile.now.channels }
    requires channels { profile.now.channels ≤ 8 }
    requires count { count ≤ 160 }
    requires first { first ≤ 2 ^ 30 }
    ensures frames { (seed : ℕ) → state ≡ state_after seed (first * profile.now.channels)
        → out.new.rows.items ≡ map (frame_at profile.now seed) (range_with_len first count) }
    ensures state { (seed : ℕ) → state ≡ state_after seed (first * profile.now.channels)
        → result ≡ state_after seed ((first + count) * profile.now.channels) }
{
    let mut last = state;
    out.channels = profile.channels;
    out.rows.clear();
    for i in 0..count {
        let mut row = [0; 8];
        last = make_frame(
            24 - profile.depth,
            profile.channels,
            last,
            first + i,
            &mut row,
        );
        out.rows.push(row);
    }
    last
}
