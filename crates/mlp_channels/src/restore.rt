//! One channel of one block: its outputs from its codes.
ghost use Rattle.std.specs.Prelude.{◌≡◌, ◌≤◌, ◌<◌, true, IsTrue, Some, IfSome, All, length};
ghost use Rattle.arrayvec.specs.ArrayVec.{array_vec_len};
ghost use Rattle.mlp_params.specs.States.{IsState, IsChannelState};
ghost use Rattle.mlp_residual.specs.Frames.{steps_fit};
ghost use Rattle.mlp_predict.specs.Prediction.{with_state};
ghost use Rattle.mlp_predict.specs.Filters.{AreFilters};
ghost use Rattle.mlp_predict.specs.Outputs.{outputs_from, past_from};
ghost use Rattle.mlp_substream.specs.Playable.{AreCoded};
ghost use Rattle.mlp_channels.specs.Channels.{is_coded, channel_at, coding_at, of_state, state_of_filter, state_given, block_frames};
ghost use Rattle.mlp_channels.specs.Playing.{frames_by};
ghost use Rattle.mlp_channels.specs.Given.{StateFits, FilterFits, GivesChannel, GivesChannels};

use mlp_params::{ChannelState, State};
use mlp_predict::Predictor;
use mlp_residual::{ResidualCoding, residuals};
use mlp_syntax::{BlockHead, Filter, FilterState, FrameCode, Params};

/// What is in force in a channel.
fn channel_at(state: &State, channel: usize) -> &ChannelState
    requires { channel < length state.now.channels.items }
    ensures { result.now ≡ channel_at state.now channel }
{
    &state.channels[channel]
}

/// How the residuals of a channel come from its codes: the low bits of a code are those above the step.
fn coding_at(state: &State, channel: usize) -> ResidualCoding
    requires state { IsState state.now }
    requires steps { IsTrue (steps_fit state.now) }
    requires coded { is_coded state.now channel ≡ true }
    ensures value { result ≡ coding_at state.now channel }
    ensures book { result.book ≤ 3 }
    ensures low { result.low < 32 }
    ensures step { result.step < 16 }
{
    let coded = channel_at(state, channel);
    let step = state.steps[channel];
    ResidualCoding {
        book: coded.book,
        low: coded.low - step,
        offset: coded.offset,
        step,
    }
}

/// Puts a state before the next frame.
fn put_state(state: &Option<FilterState>, past: &mut Predictor<8, 4>)
    requires { StateFits state.now }
    ensures { past.new ≡ with_state (of_state state.now) past.old }
{
    if let Some(state) = state {
        past.set_state(state);
    }
}

/// Puts the state of a filter before the next frame.
fn put_filter_state(filter: &Option<Filter<4>>, past: &mut Predictor<8, 4>)
    requires { FilterFits filter.now }
    ensures { past.new ≡ with_state (state_of_filter filter.now) past.old }
{
    if let Some(filter) = filter {
        put_state(&filter.state, past);
    }
}

/// Puts the state that a block gives to a channel, counted from the least one, before the block's first frame.
fn put_given(params: &Option<Params>, index: usize, past: &mut Predictor<8, 4>)
    requires { IfSome params.now (GivesChannel index) }
    ensures { past.new ≡ with_state (state_given params.now index) past.old }
{
    if let Some(params) = params {
        if let Some(channel) = &params.channels[index] {
            put_filter_state(&channel.iir, past);
        }
    }
}

/// The outputs of one channel of a block, by what is in force in it and by its coding.
fn restore_by(
    coded: &ChannelState,
    coding: &ResidualCoding,
    given: &Option<Params>,
    index: usize,
    codes: &[FrameCode],
    past: &mut Predictor<8, 4>,
    block: &mut [i32],
)
    requires lawful { IsChannelState coded.now }
    requires filters { AreFilters coded.now.fir coded.now.iir }
    requires book { coding.now.book ≤ 3 }
    requires low { coding.now.low < 32 }
    requires step { coding.now.step < 16 }
    requires given { IfSome given.now (GivesChannel index) }
    requires index { All (λ f. index < array_vec_len f.codes) codes.now }
    requires some { 0 < length codes.now }
    requires most { length codes.now ≤ 160 }
    requires count { length block.old ≡ length codes.now }
    ensures outputs { block.new
        ≡ outputs_from 8 4 past.old (frames_by coded.now coding.now given.now index codes.now) }
    ensures past { past.new ≡ past_from 8 4 past.old (frames_by coded.now coding.now given.now index codes.now) }
{
    residuals(coding, index, codes, block);
    put_given(given, index, past);
    past.restore_block(&coded.fir, &coded.iir, coding.step, block);
}

/// The outputs of one channel of a block, by what is in force.
pub fn restore(
    state: &State,
    head: &BlockHead,
    channel: usize,
    codes: &[FrameCode],
    past: &mut Predictor<8, 4>,
    block: &mut [i32],
)
    requires state { IsState state.now }
    requires given { GivesChannels state.now head.now.params }
    requires coded { is_coded state.now channel ≡ true }
    requires codes { AreCoded state.now codes.now }
    requires some { 0 < length codes.now }
    requires most { length codes.now ≤ 160 }
    requires count { length block.old ≡ length codes.now }
    ensures outputs { block.new
        ≡ outputs_from 8 4 past.old (block_frames (Some state.now) head.now channel codes.now) }
    ensures past { past.new ≡ past_from 8 4 past.old (block_frames (Some state.now) head.now channel codes.now) }
{
    let index = channel - state.restart.min as usize;
    let coding = coding_at(state, channel);
    let coded = channel_at(state, channel);
    restore_by(coded, &coding, &head.params, index, codes, past, block);
}
