//! What a presentation shows of a frame.

ghost use Rattle.std.specs.Prelude.{◌≡◌, ◌≤◌, ◌-◌};
ghost use Rattle.mlp_fold.specs.Profile.{AreMixed};
ghost use Rattle.mlp_arith.specs.Ranges.{Is26};
ghost use Rattle.mlp_fold.specs.Mix.{at, AreSamples, stereo, stereo_pair, presented_of, presented_fold6, presented_fold8};

use crate::channels::channels_of;
use crate::coding;
use crate::coding::shown;
use crate::profile::Mix;
use crate::sums::{both, halved, stereo};

/// The stereo presentation of coded channels.
fn stereo_pair(q: u8, coded: &[i32; 8]) -> [i32; 8]
    requires q { q ≤ 8 }
    requires left { Is26 (at coded.now 0) }
    requires right { Is26 (at coded.now 1) }
    ensures { result ≡ stereo_pair q (at coded.now 0) (at coded.now 1) }
{
    [stereo(q, coded[0]), stereo(q, coded[1]), 0, 0, 0, 0, 0, 0]
}

/// The presentations of Fold with six channels.
fn fold6(q: u8, k: u8, frame: &[i32; 8]) -> [i32; 8]
    requires q { q ≤ 8 }
    requires samples { AreSamples q 6 frame.now }
    ensures { result ≡ presented_fold6 q k frame.now }
{
    if k == 0 {
        return stereo_pair(q, &coding::fold6(q, frame));
    }
    shown(6, frame)
}

/// The six-channel presentation of Fold with eight channels.
fn six_of_eight(q: u8, frame: &[i32; 8]) -> [i32; 8]
    requires q { q ≤ 8 }
    requires samples { AreSamples q 8 frame.now }
    ensures { result ≡ presented_fold8 q 1 frame.now }
{
    let left_sum = both(q, frame[4], frame[6]);
    let right_sum = both(q, frame[5], frame[7]);
    let left = halved(q, left_sum);
    let right = halved(q, right_sum);
    [frame[0], frame[1], frame[2], frame[3], left, right, 0, 0]
}

/// The presentations of Fold with eight channels.
fn fold8(q: u8, k: u8, frame: &[i32; 8]) -> [i32; 8]
    requires q { q ≤ 8 }
    requires samples { AreSamples q 8 frame.now }
    ensures { result ≡ presented_fold8 q k frame.now }
{
    if k == 0 {
        return stereo_pair(q, &coding::fold8(q, frame));
    }
    if k == 1 {
        return six_of_eight(q, frame);
    }
    shown(8, frame)
}

/// What presentation `k` shows of a frame of PCM, 0 past its last channel. The frame's values have 24 signed bits, the
/// low `24 - depth` of them 0.
pub fn presented(mix: Mix, depth: u8, channels: u8, k: u8, frame: &[i32; 8]) -> [i32; 8]
    requires profile { AreMixed mix depth channels }
    requires samples { AreSamples (24 - depth) channels frame.now }
    ensures { result ≡ presented_of mix (24 - depth) channels k frame.now }
{
    let q = 24 - depth;
    match mix {
        Mix::Fold => {
            if channels == 6 {
                return fold6(q, k, frame);
            }
            fold8(q, k, frame)
        }
        _ => shown(channels_of(k), frame),
    }
}
