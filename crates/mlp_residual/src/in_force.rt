//! How frames are coded by the parameters in force.
ghost use Rattle.std.specs.Prelude.{◌≡◌, ◌-◌, ◌≤◌, All, IsTrue, length, map, take, drop};
ghost use Rattle.mlp_params.specs.States.{IsState, IsChannelState};
ghost use Rattle.mlp_residual.specs.Frames.{channel_codes, coding_of, steps_within, steps_fit, frames_of, IsCoded, GivesBehind};
ghost use Rattle.std.specs.Prelude.{◌+◌};
ghost use Rattle.arrayvec.specs.ArrayVec.{array_vec_len};

use crate::frames::{ChannelCode, Coding, read_coded};
use arrayvec::ArrayVec;
use mlp_bits::BitReader;
use mlp_params::{ChannelState, State};
use mlp_syntax::{Broken, FrameCode, MatrixRow};

/// Which rows have a bypass bit.
fn bypass_flags(rows: &[MatrixRow]) -> ArrayVec<bool, 8>
    requires { length rows.now ≤ 8 }
    ensures { result.items ≡ map (λ row. row.bypass) rows.now }
{
    let mut flags: ArrayVec<bool, 8> = ArrayVec::new();
    for row in rows {
        flags.push(row.bypass);
    }
    flags
}

/// How a channel with a step is coded.
fn channel_code(channel: &ChannelState, step: u8) -> ChannelCode
    requires { step ≤ channel.now.low }
    ensures { result ≡ record { book = channel.now.book; low = channel.now.low - step } }
{
    ChannelCode {
        book: channel.book,
        low: channel.low - step,
    }
}

/// How channels with steps are coded.
fn coded_channels(channels: &[ChannelState], steps: &[u8]) -> ArrayVec<ChannelCode, 8>
    requires count { length channels.now ≤ 8 }
    requires same { length steps.now ≡ length channels.now }
    requires low { IsTrue (steps_within steps.now channels.now) }
    requires states { All IsChannelState channels.now }
    ensures value { result.items ≡ channel_codes channels.now steps.now }
    ensures coded { All IsCoded result.items }
{
    let mut codes: ArrayVec<ChannelCode, 8> = ArrayVec::new();
    for i in 0..channels.len() {
        codes.push(channel_code(&channels[i], steps[i]));
    }
    codes
}

/// How the channels from the least one on are coded.
fn coded_from(least: usize, channels: &[ChannelState], steps: &[u8]) -> ArrayVec<ChannelCode, 8>
    requires least { least ≤ length channels.now }
    requires count { length channels.now ≤ 8 }
    requires same { length steps.now ≡ length channels.now }
    requires low { IsTrue (steps_within (drop least steps.now) (drop least channels.now)) }
    requires states { All IsChannelState channels.now }
    ensures value { result.items ≡ channel_codes (drop least channels.now) (drop least steps.now) }
    ensures coded { All IsCoded result.items }
{
    coded_channels(&channels[least..], &steps[least..])
}

/// Whether each channel from one on has at least as many low bits as its step.
fn steps_within(least: usize, steps: &[u8], channels: &[ChannelState]) -> bool
    ensures { result ≡ steps_within (drop least steps.now) (drop least channels.now) }
{
    for i in least..steps.len() {
        if i >= channels.len() {
            return true;
        }
        if steps[i] > channels[i].low {
            return false;
        }
    }
    true
}

/// Whether each channel from the least to the greatest has at least as many low bits as its step.
pub fn steps_fit(state: &State) -> bool
    ensures { result ≡ steps_fit state.now }
{
    steps_within(state.restart.min as usize, &state.steps, &state.channels)
}

/// How the frames of a block are coded by the parameters in force.
pub fn coding_in_force(state: &State) -> Coding
    requires state { IsState state.now }
    requires low { IsTrue (steps_fit state.now) }
    ensures value { result ≡ coding_of state.now }
    ensures coded { All IsCoded result.channels.items }
{
    let least = state.restart.min as usize;
    Coding {
        bypass: bypass_flags(&state.rows),
        channels: coded_from(least, &state.channels, &state.steps),
    }
}

/// Reads so many frames by the parameters in force, behind the first `first` of those in `out`, in place of others or
/// appended to them.
///
/// # Errors
///
/// `Code` at nine bits that are no code, or `SegmentShort` at a field whose bits aren't all there: the first such
/// place. What stands behind the first `first` is of no use then.
#[tactic(auto, unfolding(crate::specs::Frames::frames_of))]
pub fn read_frames_behind(
    state: &State,
    first: usize,
    frames: u16,
    r: &mut BitReader,
    out: &mut ArrayVec<FrameCode, 160>,
) -> Result<(), Broken>
    requires state { IsState state.now }
    requires low { IsTrue (steps_fit state.now) }
    requires first { first ≤ array_vec_len out.old }
    requires room { first + frames ≤ 160 }
    ensures enough { first + frames ≤ array_vec_len out.new }
    ensures rest { drop (first + frames) out.new.items ≡ drop (first + frames) out.old.items }
    ensures read { GivesBehind (take first out.old.items) (take (first + frames) out.new.items) r.old r.new result
        ((frames_of state.now frames).read r.old.all r.old.place) }
{
    let coding = coding_in_force(state);
    read_coded(&coding, first, frames, r, out)
}

/// Reads so many frames by the parameters in force and appends them.
///
/// # Errors
///
/// Those of `read_frames_behind`: as many frames are appended then, and are of no use.
pub fn read_frames(
    state: &State,
    frames: u16,
    r: &mut BitReader,
    out: &mut ArrayVec<FrameCode, 160>,
) -> Result<(), Broken>
    requires state { IsState state.now }
    requires low { IsTrue (steps_fit state.now) }
    requires room { array_vec_len out.old + frames ≤ 160 }
    ensures count { length out.new.items ≡ length out.old.items + frames }
    ensures read { GivesBehind out.old.items out.new.items r.old r.new result
        ((frames_of state.now frames).read r.old.all r.old.place) }
{
    let first = out.len();
    read_frames_behind(state, first, frames, r, out)
}
