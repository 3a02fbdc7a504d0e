//! Sums of what presentations show, for checks.

ghost use Rattle.std.specs.Prelude.{◌≡◌, ◌≤◌, ◌<◌, ◌-◌, map, All, bit_xor};
ghost use Rattle.std.specs.Int.{w32, cast_unsigned};
ghost use Rattle.mlp_fold.specs.Profile.{AreMixed};
ghost use Rattle.mlp_fold.specs.Mix.{at, AreSamples, channels_of, presented_of, presented_fold6, presented_fold8};
ghost use Rattle.mlp_fold.specs.Substreams.{substreams_of};
ghost use Rattle.mlp_fold.specs.Sums.{sum_of};

use crate::profile::Mix;
use crate::sums::{both, front6, front8, halved, stereo};

/// A sum without carries with one value more.
fn with_value(sum: u32, value: i32) -> u32
    ensures { result ≡ bit_xor sum (cast_unsigned w32 value) }
{
    sum ^ value.cast_unsigned()
}

/// A channel of the stereo presentation of six channels.
fn stereo6(q: u8, channel: u8, frame: &[i32; 8]) -> i32
    requires q { q ≤ 8 }
    requires channel { channel < 2 }
    requires samples { AreSamples q 6 frame.now }
    ensures { result ≡ at (presented_fold6 q 0 frame.now) channel }
{
    let c = usize::from(channel);
    stereo(q, front6(q, frame[c], frame[2], frame[c + 4]))
}

/// A channel of the stereo presentation of eight channels.
fn stereo8(q: u8, channel: u8, frame: &[i32; 8]) -> i32
    requires q { q ≤ 8 }
    requires channel { channel < 2 }
    requires samples { AreSamples q 8 frame.now }
    ensures { result ≡ at (presented_fold8 q 0 frame.now) channel }
{
    let c = usize::from(channel);
    let side = both(q, frame[c + 4], frame[c + 6]);
    stereo(q, front8(q, frame[c], frame[2], side))
}

/// A side channel of the six-channel presentation of eight channels.
fn side_of_eight(q: u8, channel: u8, frame: &[i32; 8]) -> i32
    requires q { q ≤ 8 }
    requires first { 4 ≤ channel }
    requires last { channel < 6 }
    requires samples { AreSamples q 8 frame.now }
    ensures { result ≡ at (presented_fold8 q 1 frame.now) channel }
{
    let c = usize::from(channel);
    halved(q, both(q, frame[c], frame[c + 2]))
}

/// The sum of a channel of PCM.
fn sum_plain(channel: u8, frames: &[[i32; 8]]) -> u32
    requires { channel < 8 }
    ensures { result ≡ sum_of 0 (map (λ x. at x channel) frames.now) }
{
    let c = usize::from(channel);
    let mut sum = 0;
    for i in 0..frames.len() {
        sum = with_value(sum, frames[i][c]);
    }
    sum
}

/// The sum of a channel of the stereo presentation of six channels.
fn sum_stereo6(q: u8, channel: u8, frames: &[[i32; 8]]) -> u32
    requires q { q ≤ 8 }
    requires channel { channel < 2 }
    requires samples { All (AreSamples q 6) frames.now }
    ensures { result ≡ sum_of 0 (map (λ x. at (presented_fold6 q 0 x) channel) frames.now) }
{
    let mut sum = 0;
    for i in 0..frames.len() {
        sum = with_value(sum, stereo6(q, channel, &frames[i]));
    }
    sum
}

/// The sum of a channel of the stereo presentation of eight channels.
fn sum_stereo8(q: u8, channel: u8, frames: &[[i32; 8]]) -> u32
    requires q { q ≤ 8 }
    requires channel { channel < 2 }
    requires samples { All (AreSamples q 8) frames.now }
    ensures { result ≡ sum_of 0 (map (λ x. at (presented_fold8 q 0 x) channel) frames.now) }
{
    let mut sum = 0;
    for i in 0..frames.len() {
        sum = with_value(sum, stereo8(q, channel, &frames[i]));
    }
    sum
}

/// The sum of a side channel of the six-channel presentation of eight channels.
fn sum_side(q: u8, channel: u8, frames: &[[i32; 8]]) -> u32
    requires q { q ≤ 8 }
    requires first { 4 ≤ channel }
    requires last { channel < 6 }
    requires samples { All (AreSamples q 8) frames.now }
    ensures { result ≡ sum_of 0 (map (λ x. at (presented_fold8 q 1 x) channel) frames.now) }
{
    let mut sum = 0;
    for i in 0..frames.len() {
        sum = with_value(sum, side_of_eight(q, channel, &frames[i]));
    }
    sum
}

/// The sum of a channel of a presentation of Fold with six channels.
fn sum_fold6(q: u8, k: u8, channel: u8, frames: &[[i32; 8]]) -> u32
    requires q { q ≤ 8 }
    requires k { k < 2 }
    requires channel { channel < channels_of k }
    requires samples { All (AreSamples q 6) frames.now }
    ensures { result ≡ sum_of 0 (map (λ x. at (presented_fold6 q k x) channel) frames.now) }
{
    if k == 0 {
        return sum_stereo6(q, channel, frames);
    }
    sum_plain(channel, frames)
}

/// The sum of a channel of a presentation of Fold with eight channels.
fn sum_fold8(q: u8, k: u8, channel: u8, frames: &[[i32; 8]]) -> u32
    requires q { q ≤ 8 }
    requires channel { channel < channels_of k }
    requires samples { All (AreSamples q 8) frames.now }
    ensures { result ≡ sum_of 0 (map (λ x. at (presented_fold8 q k x) channel) frames.now) }
{
    if k == 0 {
        return sum_stereo8(q, channel, frames);
    }
    if k == 1 && channel > 3 {
        return sum_side(q, channel, frames);
    }
    sum_plain(channel, frames)
}

/// The sum without carries of what presentation `k` shows of many frames in one of its channels.
pub fn sum_presented(
    mix: Mix,
    depth: u8,
    channels: u8,
    k: u8,
    channel: u8,
    frames: &[[i32; 8]],
) -> u32
    requires profile { AreMixed mix depth channels }
    requires k { k < substreams_of channels }
    requires channel { channel < channels_of k }
    requires samples { All (AreSamples (24 - depth) channels) frames.now }
    ensures { result ≡ sum_of 0
        (map (λ x. at (presented_of mix (24 - depth) channels k x) channel) frames.now) }
{
    let q = 24 - depth;
    match mix {
        Mix::Fold => {
            if channels == 6 {
                return sum_fold6(q, k, channel, frames);
            }
            sum_fold8(q, k, channel, frames)
        }
        _ => sum_plain(channel, frames),
    }
}
