//! Mixes worked by hand.

ghost use Rattle.std.specs.Prelude.{◌≤◌, ◌-◌};
ghost use Rattle.mlp_fold.specs.Profile.{AreMixed};
ghost use Rattle.mlp_fold.specs.Mix.{AreSamples, channels_of};

use mlp_fold::{
    CodedFrame, Mix, Profile, ProfileFault, channels_of, code_frames, coded, first_channel,
    last_channel, presented, rows, steps, substreams, sum_presented,
};
use mlp_matrix::apply;
use mlp_syntax::Kind;

/// What the rows of substream `k` make of the coded channels up to it, with other values behind them.
fn decoded(mix: Mix, depth: u8, channels: u8, k: u8, frame: &[i32; 8]) -> [i32; 10]
    requires profile { AreMixed mix depth channels }
    requires samples { AreSamples (24 - depth) channels frame.now }
    requires substream { channels_of k ≤ channels }
{
    let coded = coded(mix, depth, channels, frame);
    let count = channels_of(k);
    let mut out = [-5; 10];
    for c in 0..usize::from(count) {
        out[c] = coded.values[c];
    }
    let rows = rows(mix, k, channels);
    let steps = steps(mix, depth, k);
    apply(
        rows.as_slice(),
        steps.as_slice(),
        count,
        &mut out,
        coded.bypass,
    );
    out
}

/// Six channels, also at lesser depths, where the value above those bits counts, and the loudest ones, which don't wrap.
#[test]
fn folds_six_channels(rt: HostRuntime) {
    let frame = [1000, 0, 1000, 0, 0, 0, 0, 0];
    let it = coded(Mix::Fold, 24, 6, &frame);
    assert_eq!(rt; it.values, [1708, 708, 1000, 0, 0, 0, 0, 0]);
    assert_eq!(rt; it.bypass, 0);
    let it = presented(Mix::Fold, 24, 6, 0, &frame);
    assert_eq!(rt; it, [707, 293, 0, 0, 0, 0, 0, 0]);
    let it = decoded(Mix::Fold, 24, 6, 0, &frame);
    assert_eq!(rt; it, [707, 293, -5, -5, -5, -5, -5, -5, -5, -5]);
    let it = presented(Mix::Fold, 24, 6, 1, &frame);
    assert_eq!(rt; it, frame);

    let frame = [16000, 0, 16000, 0, 0, 0, 0, 0];
    let it = presented(Mix::Fold, 20, 6, 0, &frame);
    assert_eq!(rt; it, [11312, 4688, 0, 0, 0, 0, 0, 0]);

    let frame = [256000, 0, 256000, 0, 0, 0, 0, 0];
    let it = presented(Mix::Fold, 16, 6, 0, &frame);
    assert_eq!(rt; it, [180992, 75008, 0, 0, 0, 0, 0, 0]);

    let frame = [
        -8388608, -8388608, -8388608, -8388608, -8388608, -8388608, 0, 0,
    ];
    let it = presented(Mix::Fold, 24, 6, 0, &frame);
    assert_eq!(rt; it, [-8387921, -8387921, 0, 0, 0, 0, 0, 0]);
}

#[test]
fn folds_eight_channels(rt: HostRuntime) {
    let frame = [1000, -1000, 300, 40, 500, -600, 70, -81];
    let it = coded(Mix::Fold, 24, 8, &frame);
    assert_eq!(rt; it.values, [1414, -1028, 300, 40, 570, -681, 70, -81]);
    let it = decoded(Mix::Fold, 24, 8, 0, &frame);
    assert_eq!(rt; it, [585, -426, -5, -5, -5, -5, -5, -5, -5, -5]);
    let it = decoded(Mix::Fold, 24, 8, 1, &frame);
    assert_eq!(rt; it, [1000, -1000, 300, 40, 285, -341, -5, -5, -5, -5]);
    let it = decoded(Mix::Fold, 24, 8, 2, &frame);
    assert_eq!(rt; it, [1000, -1000, 300, 40, 500, -600, 70, -81, -5, -5]);

    let frame = [0, 0, 0, 0, 100, 0, 50, 0];
    let it = coded(Mix::Fold, 24, 8, &frame);
    assert_eq!(rt; it.values, [54, 0, 0, 0, 150, 0, 50, 0]);
    let it = presented(Mix::Fold, 24, 8, 0, &frame);
    assert_eq!(rt; it, [22, 0, 0, 0, 0, 0, 0, 0]);
    let it = presented(Mix::Fold, 24, 8, 1, &frame);
    assert_eq!(rt; it, [0, 0, 0, 0, 75, 0, 0, 0]);
}

#[test]
fn sends_low_bits_and_the_side(rt: HostRuntime) {
    let frame = [5, -3, 7, -7, 8, -9, 0, 0];
    let it = coded(Mix::Bypass, 24, 6, &frame);
    assert_eq!(rt; it.values, [5, -3, 6, -8, 8, -10, 0, 0]);
    assert_eq!(rt; it.bypass, 11);
    let it = decoded(Mix::Bypass, 24, 6, 1, &frame);
    assert_eq!(rt; it, [5, -3, 7, -7, 8, -9, -5, -5, -5, -5]);

    let frame = [-8388608, 8388352, 0, 0, 0, 0, 0, 0];
    let it = coded(Mix::Side, 16, 2, &frame);
    assert_eq!(rt; it.values, [-8388608, 16776960, 0, 0, 0, 0, 0, 0]);
    let it = decoded(Mix::Side, 16, 2, 0, &frame);
    assert_eq!(rt; it, [-8388608, 8388352, -5, -5, -5, -5, -5, -5, -5, -5]);
}

#[test]
fn codes_frames_and_sums_presentations(rt: HostRuntime) {
    let frames = [
        [1000, 0, 1000, 0, 0, 0, 0, 0],
        [8388607, 8388607, 8388607, 8388607, 8388607, 8388607, 0, 0],
    ];
    let mut coded = [CodedFrame {
        values: [0; 8],
        bypass: 9,
    }; 2];
    code_frames(Mix::Fold, 24, 6, &frames, &mut coded);
    assert_eq!(rt; coded[0].values, [1708, 708, 1000, 0, 0, 0, 0, 0]);
    assert_eq!(rt; coded[1].values[0], 20251646);
    let sum = sum_presented(Mix::Fold, 24, 6, 0, 0, &frames);
    assert_eq!(rt; sum, 707 ^ 8387919);
    let sum = sum_presented(Mix::Fold, 24, 6, 0, 1, &frames);
    assert_eq!(rt; sum, 293 ^ 8387919);
    let sum = sum_presented(Mix::Fold, 24, 6, 1, 2, &frames);
    assert_eq!(rt; sum, 1000 ^ 8388607);
}

#[test]
fn refuses_profiles_and_shares_out_channels(rt: HostRuntime) {
    let mut profile = Profile {
        kind: Kind::Fba,
        rate: 192000,
        channels: 8,
        depth: 24,
        mix: Mix::Split,
    };
    assert_eq!(rt; profile.check(), Err(ProfileFault::Rate));
    profile.rate = 96000;
    assert_eq!(rt; profile.check(), Ok(()));
    profile.kind = Kind::Fbb;
    assert_eq!(rt; profile.check(), Err(ProfileFault::Channels));
    assert_eq!(rt; Mix::Bypass.suits(6, 24), true);

    assert_eq!(rt; substreams(6), 2);
    assert_eq!(rt; first_channel(1), 2);
    assert_eq!(rt; last_channel(1), 5);
}
