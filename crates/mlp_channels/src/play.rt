//! The blocks of a segment, one after the other, and in each its channels.
ghost use Rattle.std.specs.Prelude.{◌≡◌, ◌≤◌, ◌<◌, ℕ, Bool, true, Some, IfSome, length, replicate};
ghost use Rattle.std.specs.Option.{IsSomeAnd};
ghost use Rattle.mlp_params.specs.States.{IsState};
ghost use Rattle.mlp_predict.specs.Prediction.{zeros};
ghost use Rattle.mlp_predict.specs.Outputs.{outputs_from, past_from};
ghost use Rattle.mlp_substream.specs.Blocks.{IsPlace, ForceFits, after_head, force_after};
ghost use Rattle.mlp_substream.specs.Playable.{AreCoded, IsPlayable, ArePlayable};
ghost use Rattle.mlp_channels.specs.Channels.{Coded, is_coded, block_frames, column, coded_after, HasPlayed};
ghost use Rattle.mlp_channels.specs.Given.{GivesChannels};
ghost use Rattle.mlp_channels.specs.Playing.{pasts_at_start, HasPlayedBlock, HasPlayedBlocks};

use crate::restore::restore;
use crate::scatter::scatter;
use mlp_params::State;
use mlp_predict::Predictor;
use mlp_substream::{Place, put_head};
use mlp_syntax::{BlockHead, FrameCode, Segment};

/// The past of each channel becomes zeros.
pub fn reset_all(predictors: &mut [Predictor<8, 4>; 8])
    ensures { predictors.new ≡ replicate 8 (zeros 8 4) }
{
    for i in 0..8 {
        predictors[i].reset();
    }
}

/// A restart forgets the past of each channel.
fn reset_at(major: bool, predictors: &mut [Predictor<8, 4>; 8])
    ensures { predictors.new ≡ pasts_at_start major predictors.old }
{
    if major {
        reset_all(predictors);
    }
}

/// One channel of a block, side by side with the others. `block` is of no use before and afterwards.
fn play_channel(
    state: &State,
    head: &BlockHead,
    channel: usize,
    codes: &[FrameCode],
    past: &mut Predictor<8, 4>,
    block: &mut [i32],
    frames: &mut [[i32; 10]],
)
    requires state { IsState state.now }
    requires given { GivesChannels state.now head.now.params }
    requires coded { is_coded state.now channel ≡ true }
    requires codes { AreCoded state.now codes.now }
    requires some { 0 < length codes.now }
    requires most { length codes.now ≤ 160 }
    requires count { length block.old ≡ length codes.now }
    requires frames { length frames.old ≡ length codes.now }
    ensures channel { column channel frames.new
        ≡ outputs_from 8 4 past.old (block_frames (Some state.now) head.now channel codes.now) }
    ensures others { (c : ℕ) → ¬ (c ≡ channel) → column c frames.new ≡ column c frames.old }
    ensures past { past.new ≡ past_from 8 4 past.old (block_frames (Some state.now) head.now channel codes.now) }
{
    restore(state, head, channel, codes, past, block);
    scatter(block, channel, frames);
}

/// The channels of a block, from the least to the greatest.
fn play_channels(
    state: &State,
    head: &BlockHead,
    codes: &[FrameCode],
    predictors: &mut [Predictor<8, 4>; 8],
    block: &mut [i32],
    frames: &mut [[i32; 10]],
)
    requires state { IsState state.now }
    requires given { GivesChannels state.now head.now.params }
    requires codes { AreCoded state.now codes.now }
    requires some { 0 < length codes.now }
    requires most { length codes.now ≤ 160 }
    requires count { length block.old ≡ length codes.now }
    requires frames { length frames.old ≡ length codes.now }
    ensures { HasPlayedBlock (Some state.now) head.now codes.now predictors.old predictors.new frames.old frames.new }
{
    let first = state.restart.min as usize;
    let end = state.restart.max as usize + 1;
    for channel in first..end {
        play_channel(
            state,
            head,
            channel,
            codes,
            &mut predictors[channel],
            block,
            frames,
        );
    }
}

/// The channels of a block, by what is in force in it. `block` is of no use before and afterwards.
fn play_in(
    state: &Option<State>,
    head: &BlockHead,
    codes: &[FrameCode],
    predictors: &mut [Predictor<8, 4>; 8],
    block: &mut [i32],
    frames: &mut [[i32; 10]],
)
    requires state { IfSome state.now (λ s. IsState s) }
    requires given { IfSome state.now (λ s. GivesChannels s head.now.params) }
    requires codes { IsSomeAnd state.now (λ s. AreCoded s codes.now) }
    requires some { 0 < length codes.now }
    requires most { length codes.now ≤ 160 }
    requires count { length block.old ≡ length codes.now }
    requires frames { length frames.old ≡ length codes.now }
    ensures { HasPlayedBlock state.now head.now codes.now predictors.old predictors.new frames.old frames.new }
{
    if let Some(state) = state {
        play_channels(state, head, codes, predictors, block, frames);
    }
}

/// A block: what its head gives is put in force, and its channels are played.
fn play_block(
    place: &Place,
    head: &BlockHead,
    codes: &[FrameCode],
    state: &mut Option<State>,
    predictors: &mut [Predictor<8, 4>; 8],
    block: &mut [i32],
    frames: &mut [[i32; 10]],
)
    requires place { IsPlace place.now }
    requires state { ForceFits place.now state.old }
    requires playable { (due : Bool) × IsPlayable place.now due state.old head.now codes.now }
    requires most { length codes.now ≤ 160 }
    requires count { length block.old ≡ length codes.now }
    requires frames { length frames.old ≡ length codes.now }
    ensures force { state.new ≡ after_head place.now state.old head.now }
    ensures state { ForceFits place.now state.new }
    ensures played { HasPlayedBlock state.new head.now codes.now predictors.old predictors.new frames.old frames.new }
{
    put_head(place, head, state);
    play_in(state, head, codes, predictors, block, frames);
}

/// Blocks with these heads, whose codes stand one after the other. The outputs of the channels that they code stand in
/// the first frames, one for each code. `block` is of no use before and afterwards.
fn play_blocks(
    place: &Place,
    heads: &[BlockHead],
    codes: &[FrameCode],
    state: &mut Option<State>,
    predictors: &mut [Predictor<8, 4>; 8],
    block: &mut [i32; 160],
    frames: &mut [[i32; 10]],
)
    requires place { IsPlace place.now }
    requires state { ForceFits place.now state.old }
    requires playable { (due : Bool) × ArePlayable place.now due state.old heads.now codes.now }
    requires most { length codes.now ≤ 160 }
    requires frames { length codes.now ≤ length frames.old }
    ensures force { state.new ≡ force_after place.now state.old heads.now }
    ensures played { HasPlayedBlocks place.now state.old heads.now codes.now (length codes.now)
        predictors.old predictors.new frames.old frames.new }
{
    let mut start = 0;
    for i in 0..heads.len() {
        let head = &heads[i];
        let count = head.frames as usize;
        let end = start + count;
        play_block(
            place,
            head,
            &codes[start..end],
            state,
            predictors,
            &mut block[..count],
            &mut frames[start..end],
        );
        start = end;
    }
}

/// A segment of a unit: `state` and `predictors` are what earlier units leave of its substream, and become what it
/// leaves. The outputs of the channels that it codes stand in the first frames, one for each code. `block` is of no use
/// before and afterwards.
pub fn play(
    place: &Place,
    segment: &Segment,
    state: &mut Option<State>,
    predictors: &mut [Predictor<8, 4>; 8],
    block: &mut [i32; 160],
    frames: &mut [[i32; 10]; 160],
)
    requires place { IsPlace place.now }
    requires state { ForceFits place.now state.old }
    requires playable { ArePlayable place.now place.now.major state.old
        segment.now.blocks.items segment.now.codes.items }
    ensures coded { let x : Coded = record { force = state.old; pasts = predictors.old } in
        let y : Coded = record { force = state.new; pasts = predictors.new } in
        y ≡ coded_after place.now x segment.now }
    ensures force { state.new ≡ force_after place.now state.old segment.now.blocks.items }
    ensures played { let x : Coded = record { force = state.old; pasts = predictors.old } in
        HasPlayed place.now x segment.now (length segment.now.codes.items) frames.old frames.new }
{
    reset_at(place.major, predictors);
    play_blocks(
        place,
        &segment.blocks,
        &segment.codes,
        state,
        predictors,
        block,
        frames,
    );
}
