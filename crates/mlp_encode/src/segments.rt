//! The segment of a substream in a unit.
ghost use Rattle.std.specs.Prelude.{◌≡◌, ◌≤◌, ◌<◌, ◌++◌, ◌∷◌, ◌+◌, [], Some, None, is_some, true, false, map, take, drop, length, IfSome};
ghost use Rattle.std.specs.Option.{IsSomeAnd};
ghost use Rattle.arrayvec.specs.ArrayVec.{array_vec_len};
ghost use Rattle.mlp_layout.specs.Allowed.{Allowed};
ghost use Rattle.mlp_params.specs.RestartHeader.{restart as restart_layout};
ghost use Rattle.mlp_params.specs.InForce.{in_force};
ghost use Rattle.mlp_predict.specs.Prediction.{zeros};
ghost use Rattle.mlp_fold.specs.Substreams.{first_channel, last_channel};
ghost use Rattle.mlp_encode.specs.Numbers.{coded_channels};
ghost use Rattle.mlp_encode.specs.Blocks.{Force, restart_sent, later_sent, segment_sent, empty};
ghost use Rattle.mlp_encode.specs.Lawful.{SendsSegment, IsInForce, IsRestartOf, IsSentSegment};

use crate::blocks::{fill_block, renew_frames, send_block};
use crate::numbers::FIRST_FRAMES;
use arrayvec::ArrayVec;
use mlp_fold::{CodedFrame, Profile, first_channel, last_channel};
use mlp_params::State;
use mlp_predict::Predictor;
use mlp_syntax::{BlockHead, Restart, Segment};

/// The pasts of a substream's channels become zeros.
fn reset_pasts(substream: u8, pasts: &mut [Predictor<8, 4>; 8])
    requires { substream ≤ 2 }
    ensures { pasts.new
        ≡ take (first_channel substream) pasts.old ++ map (λ c. zeros 8 4) (coded_channels substream)
        ++ drop (last_channel substream + 1) pasts.old }
{
    let first = usize::from(first_channel(substream));
    let end = usize::from(last_channel(substream)) + 1;
    for channel in first..end {
        pasts[channel].reset();
    }
}

/// Puts a restart in force.
fn begin(profile: &Profile, frames: u16, header: &Restart, state: &mut Option<State>)
    requires header { Allowed (restart_layout profile.now.kind) header.now }
    requires least { 8 ≤ frames }
    requires most { frames ≤ 160 }
    ensures { state.new ≡ Some (in_force profile.now.kind frames header.now []) }
{
    match state {
        None => *state = Some(State::at_restart(profile.kind, frames, header)),
        Some(state) => state.put_restart(profile.kind, frames, header),
    }
}

/// A segment with a restart.
fn send_restarted(
    profile: &Profile,
    substream: u8,
    restart: Restart,
    frames: &[CodedFrame],
    state: &mut Option<State>,
    pasts: &mut [Predictor<8, 4>; 8],
    segment: &mut Segment,
)
    requires sends { SendsSegment profile.now substream (Some restart) state.old frames.now }
    requires least { 40 ≤ length frames.now }
    requires most { length frames.now ≤ 160 }
    requires empty { segment.old ≡ empty segment.old.terminator }
    ensures { let sent = restart_sent substream profile.now restart pasts.old frames.now segment.old.terminator in
        IsSentSegment sent segment.new state.new pasts.new }
{
    begin(profile, frames.len() as u16, &restart, state);
    reset_pasts(substream, pasts);
    let Some(state) = state else {
        return;
    };
    let first = &frames[..FIRST_FRAMES];
    let later = &frames[FIRST_FRAMES..];
    send_block(
        profile,
        substream,
        Some(restart),
        first,
        state,
        pasts,
        segment,
    );
    send_block(profile, substream, None, later, state, pasts, segment);
}

/// Leaves one head, whatever it says.
fn leave_one(heads: &mut ArrayVec<BlockHead, 20>)
    ensures { array_vec_len heads.new ≡ 1 }
{
    heads.truncate(1);
    if heads.is_empty() {
        heads.push(BlockHead::default());
    }
}

/// A segment against what is in force. Its one block takes the place of those that are there.
fn send_later(
    profile: &Profile,
    substream: u8,
    frames: &[CodedFrame],
    state: &mut Option<State>,
    pasts: &mut [Predictor<8, 4>; 8],
    segment: &mut Segment,
)
    requires sends { SendsSegment profile.now substream None state.old frames.now }
    requires most { length frames.now ≤ 160 }
    requires padding { segment.old.padding ≡ 0 }
    requires checked { segment.old.checked ≡ true }
    ensures { IfSome state.old (λ s. let before : Force = record { state = s; pasts = pasts.old } in
        let sent = later_sent substream profile.now before frames.now segment.old.terminator in
        IsSentSegment sent segment.new state.new pasts.new) }
{
    let Some(state) = state else {
        return;
    };
    renew_frames(frames.len(), &mut segment.codes);
    leave_one(&mut segment.blocks);
    let codes = segment.codes.as_mut_slice();
    let head = &mut segment.blocks.as_mut_slice()[0];
    fill_block(profile, substream, None, frames, state, pasts, codes, head);
}

/// Puts what is sent of a substream in a unit into `segment`. Behind it `state` is in force, and `pasts` are the latest
/// outputs and differences of all channels.
pub fn send_segment(
    profile: &Profile,
    substream: u8,
    restart: Option<Restart>,
    frames: &[CodedFrame],
    terminator: Option<u16>,
    state: &mut Option<State>,
    pasts: &mut [Predictor<8, 4>; 8],
    segment: &mut Segment,
)
    requires { SendsSegment profile.now substream restart state.old frames.now }
    ensures { let sent = segment_sent substream profile.now restart state.old pasts.old frames.now terminator in
        IsSomeAnd sent (λ s. IsSentSegment s segment.new state.new pasts.new) }
{
    segment.padding = 0;
    segment.terminator = terminator;
    segment.checked = true;
    match restart {
        Some(restart) => {
            segment.blocks.clear();
            segment.codes.clear();
            send_restarted(profile, substream, restart, frames, state, pasts, segment)
        }
        None => send_later(profile, substream, frames, state, pasts, segment),
    }
}
