//! What is coded of a frame.

ghost use Rattle.std.specs.Prelude.{◌≡◌, ◌≤◌, ◌<◌, ◌-◌};
ghost use Rattle.mlp_arith.specs.Words.{clear};
ghost use Rattle.mlp_fold.specs.Profile.{AreMixed};
ghost use Rattle.mlp_fold.specs.Mix.{AreSamples, IsCoded, place, shown, coded_fold6, coded_fold8, coded_bypass, coded_side, coded_frame, bypass_of, low_bit};

use crate::profile::Mix;
use crate::sums::{both, front6, front8};
use mlp_arith::{clear, wrap};

/// The coded channels of a frame, and the bits that are sent beside them: bit i belongs to matrix i.
#[derive(Clone, Copy, Debug, PartialEq, Eq)]
pub struct CodedFrame {
    pub values: [i32; 8],
    pub bypass: u8,
}

/// The value of a channel, or 0 past the first `count`.
fn place(count: u8, frame: &[i32; 8], channel: usize) -> i32
    requires { channel < 8 }
    ensures { result ≡ place count frame.now channel }
{
    if channel < usize::from(count) {
        frame[channel]
    } else {
        0
    }
}

/// The first `count` channels, and zeros.
pub fn shown(count: u8, frame: &[i32; 8]) -> [i32; 8]
    ensures { result ≡ shown count frame.now }
{
    [
        place(count, frame, 0),
        place(count, frame, 1),
        place(count, frame, 2),
        place(count, frame, 3),
        place(count, frame, 4),
        place(count, frame, 5),
        place(count, frame, 6),
        place(count, frame, 7),
    ]
}

/// The coded channels of Fold with six channels.
pub fn fold6(q: u8, frame: &[i32; 8]) -> [i32; 8]
    requires q { q ≤ 8 }
    requires samples { AreSamples q 6 frame.now }
    ensures { result ≡ coded_fold6 q frame.now }
{
    [
        front6(q, frame[0], frame[2], frame[4]),
        front6(q, frame[1], frame[2], frame[5]),
        frame[2],
        frame[3],
        frame[4],
        frame[5],
        0,
        0,
    ]
}

/// The coded channels of Fold with eight channels.
pub fn fold8(q: u8, frame: &[i32; 8]) -> [i32; 8]
    requires q { q ≤ 8 }
    requires samples { AreSamples q 8 frame.now }
    ensures { result ≡ coded_fold8 q frame.now }
{
    let left = both(q, frame[4], frame[6]);
    let right = both(q, frame[5], frame[7]);
    [
        front8(q, frame[0], frame[2], left),
        front8(q, frame[1], frame[2], right),
        frame[2],
        frame[3],
        left,
        right,
        frame[6],
        frame[7],
    ]
}

/// A value without its lowest bit.
fn without_low_bit(value: i32) -> i32
    ensures { result ≡ clear 1 value }
{
    wrap(clear(1, i64::from(value)))
}

/// The lowest bit of a value.
fn low_bit(value: i32) -> u8
    ensures value { result ≡ low_bit value }
    ensures high { result ≤ 1 }
{
    (value.cast_unsigned() & 1) as u8
}

/// The coded channels of Bypass.
fn without_low_bits(frame: &[i32; 8]) -> [i32; 8]
    ensures { result ≡ coded_bypass frame.now }
{
    [
        frame[0],
        frame[1],
        without_low_bit(frame[2]),
        without_low_bit(frame[3]),
        without_low_bit(frame[4]),
        without_low_bit(frame[5]),
        0,
        0,
    ]
}

/// The bits that Bypass sends beside the channels.
fn low_bits(frame: &[i32; 8]) -> u8
    ensures { result ≡ bypass_of Mix.Bypass frame.now }
{
    low_bit(frame[2]) + 2 * low_bit(frame[3]) + 4 * low_bit(frame[4]) + 8 * low_bit(frame[5])
}

/// What Bypass codes of a frame.
pub fn bypass(frame: &[i32; 8]) -> CodedFrame
    ensures { result ≡ record { values = coded_bypass frame.now; bypass = bypass_of Mix.Bypass frame.now } }
{
    CodedFrame {
        values: without_low_bits(frame),
        bypass: low_bits(frame),
    }
}

/// The coded channels of Side.
pub fn side(q: u8, frame: &[i32; 8]) -> [i32; 8]
    requires { AreSamples q 2 frame.now }
    ensures { result ≡ coded_side frame.now }
{
    [frame[0], frame[1] - frame[0], 0, 0, 0, 0, 0, 0]
}

/// Coded channels without bypassed bits.
pub fn values_alone(values: [i32; 8]) -> CodedFrame
    ensures { result ≡ record { values = values; bypass = 0 } }
{
    CodedFrame { values, bypass: 0 }
}

/// What is coded of a frame.
fn coded_frame(mix: Mix, depth: u8, channels: u8, frame: &[i32; 8]) -> CodedFrame
    requires profile { AreMixed mix depth channels }
    requires samples { AreSamples (24 - depth) channels frame.now }
    ensures { result ≡ coded_frame mix (24 - depth) channels frame.now }
{
    let q = 24 - depth;
    match mix {
        Mix::Split => values_alone(shown(channels, frame)),
        Mix::Fold => {
            if channels == 6 {
                return values_alone(fold6(q, frame));
            }
            values_alone(fold8(q, frame))
        }
        Mix::Bypass => bypass(frame),
        Mix::Side => values_alone(side(q, frame)),
    }
}

/// What is coded of a frame of PCM: the channels of all substreams, 0 past the last one, and the bypassed bits.
/// The frame's values have 24 signed bits, the low `24 - depth` of them 0.
pub fn coded(mix: Mix, depth: u8, channels: u8, frame: &[i32; 8]) -> CodedFrame
    requires profile { AreMixed mix depth channels }
    requires samples { AreSamples (24 - depth) channels frame.now }
    ensures value { result ≡ coded_frame mix (24 - depth) channels frame.now }

    // Each value has 26 signed bits.
    ensures wide { IsCoded result }
{
    coded_frame(mix, depth, channels, frame)
}
