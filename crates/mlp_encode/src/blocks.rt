//! What is sent of a substream in a unit: its blocks, as a segment.
ghost use Rattle.std.specs.Prelude.{◌≡◌, ◌≤◌, ◌<◌, ◌+◌, ◌-◌, ◌++◌, ◌∷◌, [], ℕ, List, All, length, take, drop, map, replicate, nat_lt, is_some, is_none, IsTrue, false, true, Some, None, slice_index_or, ◌==◌, ◌||◌, not};
ghost use Rattle.std.specs.List.{list_any, range_with_len};
ghost use Rattle.arrayvec.specs.ArrayVec.{array_vec_len};
ghost use Rattle.mlp_arith.specs.Words.{clear};
ghost use Rattle.mlp_arith.specs.Ranges.{Is26};
ghost use Rattle.mlp_params.specs.Filters.{order_of};
ghost use Rattle.mlp_params.specs.States.{IsChannelState, IsState};
ghost use Rattle.mlp_params.specs.Parameters.{params as params_layout};
ghost use Rattle.mlp_layout.specs.Allowed.{Allowed};
ghost use Rattle.mlp_params.specs.InForce.{restarted_channel};
ghost use Rattle.mlp_fold.specs.Rows.{steps_of};
ghost use Rattle.mlp_fold.specs.Substreams.{first_channel, last_channel};
ghost use Rattle.mlp_channels.specs.Channels.{channel_at};
ghost use Rattle.mlp_fold.specs.declared.coding.CodedFrame.{CodedFrame};
ghost use Rattle.mlp_encode.specs.Numbers.{low_zeros};
ghost use Rattle.mlp_encode.specs.Coding.{Sent, column, channel_sent};
ghost use Rattle.mlp_encode.specs.Pushed.{with_codes, with_bits};
ghost use Rattle.mlp_encode.specs.Blocks.{Force, channels_in, rows_with, steps_with, size_with, params_of, params_with, behind_params, codes_in, pasts_with, sent_in, given_in, block_sent, with_block};
ghost use Rattle.mlp_encode.specs.Lawful.{IsCodable, IsSendable};

use crate::coding::{column, send_channel};
use arrayvec::ArrayVec;
use mlp_fold::{CodedFrame, Profile, first_channel, last_channel, rows, steps};
use mlp_params::{ChannelState, State, apply};
use mlp_predict::Predictor;
use mlp_syntax::{BlockHead, ChannelParams, FrameCode, MatrixRow, Params, Restart, Segment};

/// Whether a step isn't 0.
fn has_step(steps: &[u8]) -> bool
    ensures { result ≡ list_any (nat_lt 0) steps.now }
{
    steps.iter().any(|step| *step > 0)
}

/// The matrices that come with a restart, where there are rows.
fn rows_with(profile: &Profile, substream: u8) -> Option<ArrayVec<MatrixRow, 8>>
    ensures { result ≡ rows_with substream profile.now true }
{
    let rows = rows(profile.mix, substream, profile.channels);
    if rows.len() != 0 { Some(rows) } else { None }
}

/// The steps that come with a restart, where one isn't 0.
fn steps_with(profile: &Profile, substream: u8) -> Option<ArrayVec<u8, 8>>
    requires { profile.now.depth ≤ 24 }
    ensures { result ≡ steps_with substream profile.now true }
{
    let steps = steps(profile.mix, profile.depth, substream);
    if has_step(&steps) { Some(steps) } else { None }
}

/// Puts nothing in the place of all that is there: a value of its size is written.
#[inline(never)]
fn erase<T: Drop>(out: &mut Option<T>)
    ensures { out.new ≡ None }
{
    *out = None;
}

/// Takes away what is there. Where nothing is, nothing of its size is written.
fn take_away<T: Drop>(out: &mut Option<T>)
    ensures { out.new ≡ None }
{
    if out.is_some() {
        erase(out);
    }
}

/// Puts matrices, where they come.
fn put_rows(
    profile: &Profile,
    substream: u8,
    restarts: bool,
    out: &mut Option<ArrayVec<MatrixRow, 8>>,
)
    ensures { out.new ≡ rows_with substream profile.now restarts }
{
    if !restarts {
        return take_away(out);
    }
    *out = rows_with(profile, substream);
}

/// Puts steps, where they come.
fn put_steps(profile: &Profile, substream: u8, restarts: bool, out: &mut Option<ArrayVec<u8, 8>>)
    requires { profile.now.depth ≤ 24 }
    ensures { out.new ≡ steps_with substream profile.now restarts }
{
    if !restarts {
        return take_away(out);
    }
    *out = steps_with(profile, substream);
}

/// The block size, where it isn't the one in force.
fn size_with(state: &State, frames: u16) -> Option<u16>
    ensures { result ≡ size_with state.now frames }
{
    if state.block_size == frames {
        None
    } else {
        Some(frames)
    }
}

/// Whether parameters are given to a channel.
fn has_given(channels: &[Option<ChannelParams>]) -> bool
    ensures { result ≡ list_any is_some channels.now }
{
    channels.iter().any(|given| given.is_some())
}

/// What is sent of one of the channels, over buffers of `N` values.
#[inline(always)]
fn send_within<const N: usize>(
    channel: usize,
    force: &ChannelState,
    step: u8,
    filters: bool,
    frames: &[CodedFrame],
    past: &mut Predictor<8, 4>,
    codes: &mut [FrameCode],
) -> Option<ChannelParams>
    requires channel { channel < 8 }
    requires force { IsChannelState force.now }
    requires step { step ≤ 8 }
    requires few { length frames.now ≤ N }
    requires most { N ≤ 160 }
    requires samples { All Is26 (column channel frames.now) }
    requires whole { All (λ x. clear step x ≡ x) (column channel frames.now) }
    requires fir { filters ≡ false → order_of force.now.fir ≡ 0 }
    requires iir { filters ≡ false → order_of force.now.iir ≡ 0 }
    requires count { length frames.now ≡ length codes.old }
    requires room { All (λ f. array_vec_len f.codes < 8) codes.old }
    ensures given { let sent = channel_sent force.now past.old step filters (column channel frames.now) in
        result ≡ sent.given }
    ensures codes { let sent = channel_sent force.now past.old step filters (column channel frames.now) in
        codes.new ≡ with_codes sent.codes codes.old }
    ensures past { let sent = channel_sent force.now past.old step filters (column channel frames.now) in
        past.new ≡ sent.past }
{
    let mut line = [0; N];
    let samples = &mut line[..frames.len()];
    column(channel, frames, samples);
    send_channel::<N>(force, step, filters, samples, past, codes)
}

/// What is sent of one of the channels. The buffers for a short block are short.
fn send_at(
    channel: usize,
    force: &ChannelState,
    step: u8,
    filters: bool,
    frames: &[CodedFrame],
    past: &mut Predictor<8, 4>,
    codes: &mut [FrameCode],
) -> Option<ChannelParams>
    requires channel { channel < 8 }
    requires force { IsChannelState force.now }
    requires step { step ≤ 8 }
    requires few { length frames.now ≤ 160 }
    requires samples { All Is26 (column channel frames.now) }
    requires whole { All (λ x. clear step x ≡ x) (column channel frames.now) }
    requires fir { filters ≡ false → order_of force.now.fir ≡ 0 }
    requires iir { filters ≡ false → order_of force.now.iir ≡ 0 }
    requires count { length frames.now ≡ length codes.old }
    requires room { All (λ f. array_vec_len f.codes < 8) codes.old }
    ensures given { let sent = channel_sent force.now past.old step filters (column channel frames.now) in
        result ≡ sent.given }
    ensures codes { let sent = channel_sent force.now past.old step filters (column channel frames.now) in
        codes.new ≡ with_codes sent.codes codes.old }
    ensures past { let sent = channel_sent force.now past.old step filters (column channel frames.now) in
        past.new ≡ sent.past }
{
    if frames.len() <= 40 {
        return send_within::<40>(channel, force, step, filters, frames, past, codes);
    }
    send_within::<160>(channel, force, step, filters, frames, past, codes)
}

/// What is sent of the channels of a block.
fn send_channels(
    substream: u8,
    state: &State,
    steps: &[u8],
    filters: bool,
    frames: &[CodedFrame],
    pasts: &mut [Predictor<8, 4>; 8],
    given: &mut ArrayVec<Option<ChannelParams>, 8>,
    codes: &mut [FrameCode],
)
    requires codable { IsCodable substream state.now steps.now filters frames.now }
    requires none { given.old.items ≡ [] }
    requires codes { codes.old ≡ codes_in [] [] frames.now }
    ensures given { let before : Force = record { state = state.now; pasts = pasts.old } in
        given.new.items ≡ map (λ x. x.given) (channels_in substream before steps.now filters frames.now) }
    ensures codes { let before : Force = record { state = state.now; pasts = pasts.old } in
        codes.new ≡ codes_in [] (channels_in substream before steps.now filters frames.now) frames.now }
    ensures pasts { let before : Force = record { state = state.now; pasts = pasts.old } in
        pasts.new ≡ pasts_with substream pasts.old (channels_in substream before steps.now filters frames.now) }
{
    let first = usize::from(first_channel(substream));
    let end = usize::from(last_channel(substream)) + 1;
    for channel in first..end {
        let params = send_at(
            channel,
            &state.channels[channel],
            steps[channel],
            filters,
            frames,
            &mut pasts[channel],
            codes,
        );
        given.push(params);
    }
}

/// Puts frames without codes behind others.
fn push_frames(count: usize, codes: &mut ArrayVec<FrameCode, 160>)
    requires { array_vec_len codes.old + count ≤ 160 }
    ensures { (frames : List CodedFrame) → length frames ≡ count →
        codes.new.items ≡ codes.old.items ++ codes_in [] [] frames }
{
    for _i in 0..count {
        codes.push(FrameCode {
            bypass: 0,
            codes: ArrayVec::new(),
        });
    }
}

/// Takes the codes of a frame away.
fn empty_frame(frame: &mut FrameCode)
    ensures { frame.new ≡ record { bypass = 0; codes = record { items = [] } } }
{
    frame.bypass = 0;
    frame.codes = ArrayVec::new();
}

/// Takes the codes of all frames away.
fn empty_frames(frames: &mut [FrameCode])
    ensures { frames.new ≡ replicate (length frames.old) (record { bypass = 0; codes = record { items = [] } }) }
{
    for i in 0..frames.len() {
        empty_frame(&mut frames[i]);
    }
}

/// Puts so many frames without codes in the place of all that are there.
pub(crate) fn renew_frames(count: usize, codes: &mut ArrayVec<FrameCode, 160>)
    requires { count ≤ 160 }
    ensures { (frames : List CodedFrame) → length frames ≡ count → codes.new.items ≡ codes_in [] [] frames }
{
    if codes.len() == count {
        empty_frames(codes.as_mut_slice());
        return;
    }
    codes.clear();
    push_frames(count, codes);
}

/// Whether a row takes a bypassed bit.
fn has_bypass(rows: &[MatrixRow]) -> bool
    ensures { result ≡ list_any (λ row. row.bypass) rows.now }
{
    rows.iter().any(|row| row.bypass)
}

/// Puts the bits of a frame.
fn put_bit(coded: &CodedFrame, frame: &mut FrameCode)
    ensures { frame.new ≡ record frame.old { bypass = coded.now.bypass } }
{
    frame.bypass = coded.bypass;
}

/// Puts the bits of each frame.
fn put_bits(frames: &[CodedFrame], codes: &mut [FrameCode])
    requires { length codes.old ≡ length frames.now }
    ensures { codes.new ≡ with_bits frames.now codes.old }
{
    for i in 0..codes.len() {
        put_bit(&frames[i], &mut codes[i]);
    }
}

/// Puts the bypassed bits into frames, where a row takes them.
fn put_bypass(rows: &[MatrixRow], frames: &[CodedFrame], codes: &mut [FrameCode])
    requires { length codes.old ≡ length frames.now }
    ensures { (channels : List Sent) → codes.old ≡ codes_in [] channels frames.now
        → codes.new ≡ codes_in rows.now channels frames.now }
{
    if has_bypass(rows) {
        put_bits(frames, codes);
    }
}

/// Whether parameters are written: with a restart, or where they give anything.
fn is_written(
    restarts: bool,
    state: &State,
    frames: u16,
    channels: &[Option<ChannelParams>],
) -> bool
    ensures { result ≡ (restarts || (not (state.now.block_size == frames) || list_any is_some channels.now)) }
{
    restarts || state.block_size != frames || has_given(channels)
}

/// Fills parameters.
fn fill_params(
    profile: &Profile,
    substream: u8,
    restarts: bool,
    state: &State,
    frames: u16,
    channels: ArrayVec<Option<ChannelParams>, 8>,
    out: &mut Params,
)
    requires { profile.now.depth ≤ 24 }
    ensures { let empty = params_of substream profile.now restarts state.now frames [] in
        out.new ≡ record empty { channels = channels } }
{
    out.presence = None;
    out.block_size = size_with(state, frames);
    put_rows(profile, substream, restarts, &mut out.matrices);
    take_away(&mut out.shifts);
    put_steps(profile, substream, restarts, &mut out.steps);
    out.channels = channels;
}

/// Puts the parameters of a block, where they are written, in place of those in `out`, and in force.
fn put_params(
    profile: &Profile,
    substream: u8,
    restarts: bool,
    frames: u16,
    channels: ArrayVec<Option<ChannelParams>, 8>,
    state: &mut State,
    out: &mut Option<Params>,
)
    requires depth { profile.now.depth ≤ 24 }
    requires state { IsState state.old }
    requires params { let empty = params_of substream profile.now restarts state.old frames [] in
        Allowed (params_layout state.old) (record empty { channels = channels }) }
    ensures given { let empty = params_of substream profile.now restarts state.old frames [] in
        out.new ≡ params_with restarts (record empty { channels = channels }) }
    ensures state { let empty = params_of substream profile.now restarts state.old frames [] in
        state.new ≡ behind_params (params_with restarts (record empty { channels = channels })) state.old }
{
    if !is_written(restarts, state, frames, &channels) {
        return take_away(out);
    }
    let params = out.get_or_insert_default();
    fill_params(
        profile, substream, restarts, state, frames, channels, params,
    );
    apply(state, params);
}

/// The parameters that are written of a block, in place of those in `out`, and its codes. The parameters are put in force.
fn send_given(
    profile: &Profile,
    substream: u8,
    restarts: bool,
    frames: &[CodedFrame],
    state: &mut State,
    pasts: &mut [Predictor<8, 4>; 8],
    codes: &mut [FrameCode],
    out: &mut Option<Params>,
)
    requires sendable { IsSendable substream profile.now restarts state.old frames.now }
    requires codes { codes.old ≡ codes_in [] [] frames.now }
    ensures given { let before : Force = record { state = state.old; pasts = pasts.old } in
        out.new ≡ given_in substream profile.now restarts before frames.now }
    ensures state { let before : Force = record { state = state.old; pasts = pasts.old } in
        state.new ≡ behind_params (given_in substream profile.now restarts before frames.now) state.old }
    ensures codes { let before : Force = record { state = state.old; pasts = pasts.old } in
        codes.new ≡ codes_in state.new.rows.items (sent_in substream profile.now restarts before frames.now) frames.now }
    ensures pasts { let before : Force = record { state = state.old; pasts = pasts.old } in
        pasts.new ≡ pasts_with substream pasts.old (sent_in substream profile.now restarts before frames.now) }
{
    let steps = steps(profile.mix, profile.depth, substream);
    let mut channels: ArrayVec<Option<ChannelParams>, 8> = ArrayVec::new();
    send_channels(
        substream,
        state,
        &steps,
        !restarts,
        frames,
        pasts,
        &mut channels,
        codes,
    );
    let count = frames.len() as u16;
    put_params(profile, substream, restarts, count, channels, state, out);
    put_bypass(&state.rows, frames, codes);
}

/// Fills the head and the codes of a block. What its restart, if it has one, puts in force is in force already.
#[tactic(auto, unfolding(crate::specs::Blocks::block_sent))]
pub(crate) fn fill_block(
    profile: &Profile,
    substream: u8,
    restart: Option<Restart>,
    frames: &[CodedFrame],
    state: &mut State,
    pasts: &mut [Predictor<8, 4>; 8],
    codes: &mut [FrameCode],
    head: &mut BlockHead,
)
    requires sendable { IsSendable substream profile.now (is_some restart) state.old frames.now }
    requires codes { codes.old ≡ codes_in [] [] frames.now }
    ensures state { let before : Force = record { state = state.old; pasts = pasts.old } in
        let block = block_sent substream profile.now restart before frames.now in
        state.new ≡ block.behind.state }
    ensures pasts { let before : Force = record { state = state.old; pasts = pasts.old } in
        let block = block_sent substream profile.now restart before frames.now in
        pasts.new ≡ block.behind.pasts }
    ensures codes { let before : Force = record { state = state.old; pasts = pasts.old } in
        let block = block_sent substream profile.now restart before frames.now in
        codes.new ≡ block.codes }
    ensures head { let before : Force = record { state = state.old; pasts = pasts.old } in
        let block = block_sent substream profile.now restart before frames.now in
        head.new ≡ block.head }
{
    let restarts = restart.is_some();
    head.restart = restart;
    head.frames = frames.len() as u16;
    let params = &mut head.params;
    send_given(
        profile, substream, restarts, frames, state, pasts, codes, params,
    );
}

/// Puts a block behind those of a segment. What its restart, if it has one, puts in force is in force already.
pub(crate) fn send_block(
    profile: &Profile,
    substream: u8,
    restart: Option<Restart>,
    frames: &[CodedFrame],
    state: &mut State,
    pasts: &mut [Predictor<8, 4>; 8],
    segment: &mut Segment,
)
    requires sendable { IsSendable substream profile.now (is_some restart) state.old frames.now }
    requires blocks { array_vec_len segment.old.blocks < 20 }
    requires room { array_vec_len segment.old.codes + length frames.now ≤ 160 }
    ensures state { let before : Force = record { state = state.old; pasts = pasts.old } in
        let block = block_sent substream profile.now restart before frames.now in
        state.new ≡ block.behind.state }
    ensures pasts { let before : Force = record { state = state.old; pasts = pasts.old } in
        let block = block_sent substream profile.now restart before frames.now in
        pasts.new ≡ block.behind.pasts }
    ensures segment { let before : Force = record { state = state.old; pasts = pasts.old } in
        let block = block_sent substream profile.now restart before frames.now in
        segment.new ≡ with_block block segment.old }
{
    let start = segment.codes.len();
    push_frames(frames.len(), &mut segment.codes);
    let at = segment.blocks.len();
    segment.blocks.push(BlockHead::default());
    let codes = &mut segment.codes.as_mut_slice()[start..];
    let head = &mut segment.blocks.as_mut_slice()[at];
    fill_block(
        profile, substream, restart, frames, state, pasts, codes, head,
    );
}
