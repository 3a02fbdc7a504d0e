//! Many frames at a time.

ghost use Rattle.std.specs.Prelude.{◌≡◌, ◌≤◌, ◌-◌, length, map, All};
ghost use Rattle.mlp_fold.specs.Profile.{AreMixed};
ghost use Rattle.mlp_fold.specs.Mix.{AreSamples, IsCoded, coded_frame};

use crate::coding::{CodedFrame, bypass, fold6, fold8, shown, side, values_alone};
use crate::profile::Mix;

/// Puts into `out`, which is as long as `frames`, what Split codes of each frame.
fn split_frames(q: u8, channels: u8, frames: &[[i32; 8]], out: &mut [CodedFrame])
    requires count { length out.old ≡ length frames.now }
    ensures { out.new ≡ map (coded_frame Mix.Split q channels) frames.now }
{
    for i in 0..frames.len() {
        out[i] = values_alone(shown(channels, &frames[i]));
    }
}

/// Puts into `out`, which is as long as `frames`, what Fold codes of each frame of six channels.
fn fold6_frames(q: u8, frames: &[[i32; 8]], out: &mut [CodedFrame])
    requires q { q ≤ 8 }
    requires samples { All (AreSamples q 6) frames.now }
    requires count { length out.old ≡ length frames.now }
    ensures { out.new ≡ map (coded_frame Mix.Fold q 6) frames.now }
{
    for i in 0..frames.len() {
        out[i] = values_alone(fold6(q, &frames[i]));
    }
}

/// Puts into `out`, which is as long as `frames`, what Fold codes of each frame of eight channels.
fn fold8_frames(q: u8, frames: &[[i32; 8]], out: &mut [CodedFrame])
    requires q { q ≤ 8 }
    requires samples { All (AreSamples q 8) frames.now }
    requires count { length out.old ≡ length frames.now }
    ensures { out.new ≡ map (coded_frame Mix.Fold q 8) frames.now }
{
    for i in 0..frames.len() {
        out[i] = values_alone(fold8(q, &frames[i]));
    }
}

/// Puts into `out`, which is as long as `frames`, what Bypass codes of each frame.
fn bypass_frames(q: u8, channels: u8, frames: &[[i32; 8]], out: &mut [CodedFrame])
    requires count { length out.old ≡ length frames.now }
    ensures { out.new ≡ map (coded_frame Mix.Bypass q channels) frames.now }
{
    for i in 0..frames.len() {
        out[i] = bypass(&frames[i]);
    }
}

/// Puts into `out`, which is as long as `frames`, what Side codes of each frame.
fn side_frames(q: u8, channels: u8, frames: &[[i32; 8]], out: &mut [CodedFrame])
    requires samples { All (AreSamples q 2) frames.now }
    requires count { length out.old ≡ length frames.now }
    ensures { out.new ≡ map (coded_frame Mix.Side q channels) frames.now }
{
    for i in 0..frames.len() {
        out[i] = values_alone(side(q, &frames[i]));
    }
}

/// Puts into `out`, which is as long as `frames`, what is coded of each frame. Each mix has a loop of its own.
fn code_by(mix: Mix, depth: u8, channels: u8, frames: &[[i32; 8]], out: &mut [CodedFrame])
    requires profile { AreMixed mix depth channels }
    requires samples { All (AreSamples (24 - depth) channels) frames.now }
    requires count { length out.old ≡ length frames.now }
    ensures { out.new ≡ map (coded_frame mix (24 - depth) channels) frames.now }
{
    let q = 24 - depth;
    match mix {
        Mix::Split => split_frames(q, channels, frames, out),
        Mix::Fold => {
            if channels == 6 {
                fold6_frames(q, frames, out);
            } else {
                fold8_frames(q, frames, out);
            }
        }
        Mix::Bypass => bypass_frames(q, channels, frames, out),
        Mix::Side => side_frames(q, channels, frames, out),
    }
}

/// Puts into `out`, which is as long as `frames`, what `coded` answers of each frame.
pub fn code_frames(mix: Mix, depth: u8, channels: u8, frames: &[[i32; 8]], out: &mut [CodedFrame])
    requires profile { AreMixed mix depth channels }
    requires samples { All (AreSamples (24 - depth) channels) frames.now }
    requires count { length out.old ≡ length frames.now }
    ensures value { out.new ≡ map (coded_frame mix (24 - depth) channels) frames.now }
    ensures wide { All IsCoded out.new }
{
    code_by(mix, depth, channels, frames, out);
}
