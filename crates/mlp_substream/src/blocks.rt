//! Reading the blocks of a segment.
ghost use Rattle.std.specs.Prelude.{◌≡◌, ◌+◌, ◌≤◌, ◌<◌, ◌++◌, [], ◌∷◌, List, Ok, Err, IfOk, IfErr, IsErr, OnOk, IfSome, MatchResult, Option, true, length, take};
ghost use Rattle.arrayvec.specs.ArrayVec.{array_vec_len};
ghost use Rattle.mlp_syntax.specs.declared.segment.FrameCode.{FrameCode};
ghost use Rattle.mlp_syntax.specs.declared.fault.Field.TheVariants.{BlockOverrun};
ghost use Rattle.mlp_params.specs.States.{IsState};
ghost use Rattle.mlp_residual.specs.Frames.{frames_of, GivesBehind};
ghost use Rattle.mlp_substream.specs.Blocks.{against, steps_fit_in, after_head, block, force_after, Block, IsPlace, context_of, first_context, ForceFits};
ghost use Rattle.mlp_substream.specs.Segment.{heads_of, codes_of, most_blocks, blocks_from};

use crate::heads::read_head;
use crate::known::{Known, Place};
use arrayvec::ArrayVec;
use mlp_bits::BitReader;
use mlp_layout::{broken, flag};
use mlp_params::State;
use mlp_residual::{read_frames_behind, steps_fit};
use mlp_syntax::{BlockHead, Broken, Field, FrameCode, Segment};

/// Whether each channel that the substream codes has at least as many low bits as its step.
fn have_steps_fit(state: &Option<State>) -> bool
    ensures { result ≡ steps_fit_in state.now }
{
    match state {
        None => true,
        Some(state) => steps_fit(state),
    }
}

/// So many frames, by what is in force, in place of those behind the first ones.
#[tactic(auto, unfolding(mlp_layout::specs::Layout::never, crate::specs::Blocks::against))]
fn read_codes(
    state: &Option<State>,
    first: usize,
    count: u16,
    r: &mut BitReader,
    codes: &mut ArrayVec<FrameCode, 160>,
) -> Result<(), Broken>
    requires state { IfSome state.now (λ s. IsState s) }
    requires steps { steps_fit_in state.now ≡ true }
    requires first { first ≤ array_vec_len codes.old }
    requires room { first + count ≤ 160 }
    ensures enough { OnOk result (first + count ≤ length codes.new.items) }
    ensures read { GivesBehind (take first codes.old.items) (take (first + count) codes.new.items)
        r.old r.new result ((against state.now (λ s. frames_of s count)).read r.old.all r.old.place) }
{
    match state {
        None => Err(broken(Field::RestartMissing, r.place())),
        Some(state) => read_frames_behind(state, first, count, r, codes),
    }
}

/// A block behind so many frames. What its head gives is put in force,
/// and its frames stand in place of those behind them.
fn read_block(
    place: &Place,
    known: &Known,
    due: bool,
    first: usize,
    state: &mut Option<State>,
    r: &mut BitReader,
    head: &mut BlockHead,
    codes: &mut ArrayVec<FrameCode, 160>,
) -> Result<(), Broken>
    requires place { IsPlace place.now }
    requires state { ForceFits place.now state.old }
    requires first { first ≤ length codes.old.items }
    requires few { first ≤ place.now.unit_frames }
    ensures read { MatchResult result
        (λ _. (fs : List FrameCode)
        × ((block place.now known.now (context_of state.old first due)).read r.old.all r.old.place
        ≡ Ok (record { head = head.new; frames = fs }, r.new.place))
        × (take (first + head.new.frames) codes.new.items ≡ take first codes.old.items ++ fs))
        (λ e. (block place.now known.now (context_of state.old first due)).read r.old.all r.old.place ≡ Err e) }
    ensures moved { OnOk result ((r.new.all ≡ r.old.all) × (r.old.place ≤ r.new.place)) }
    ensures force { OnOk result (state.new ≡ after_head place.now state.old head.new) }
    ensures state { OnOk result (ForceFits place.now state.new) }
    ensures count { OnOk result ((first + head.new.frames ≤ length codes.new.items)
        × (8 ≤ head.new.frames) × (first + head.new.frames ≤ place.now.unit_frames)) }
{
    read_head(place, known, due, state, r, head)?;
    let at = r.place();
    if !have_steps_fit(state) {
        return Err(broken(Field::StepTooLarge, at));
    }
    if first + usize::from(head.frames) > usize::from(place.unit_frames) {
        return Err(broken(Field::BlockOverrun, at));
    }
    read_codes(state, first, head.frames, r, codes)?;
    Ok(())
}

/// A block whose head stands behind the first `count` and whose frames stand behind the `first` ones, in place of those
/// that are there; and how many frames there are with it.
fn read_block_behind(
    place: &Place,
    known: &Known,
    due: bool,
    count: usize,
    first: usize,
    state: &mut Option<State>,
    r: &mut BitReader,
    out: &mut Segment,
) -> Result<usize, Broken>
    requires place { IsPlace place.now }
    requires state { ForceFits place.now state.old }
    requires room { count < 20 }
    requires heads { count ≤ length out.old.blocks.items }
    requires first { first ≤ length out.old.codes.items }
    requires few { first ≤ place.now.unit_frames }
    ensures read { MatchResult result
        (λ frames. (h : BlockHead) × (fs : List FrameCode)
        × ((block place.now known.now (context_of state.old first due)).read r.old.all r.old.place
        ≡ Ok (record { head = h; frames = fs }, r.new.place))
        × (take (count + 1) out.new.blocks.items ≡ take count out.old.blocks.items ++ h ∷ [])
        × (take frames out.new.codes.items ≡ take first out.old.codes.items ++ fs)
        × (state.new ≡ after_head place.now state.old h)
        × (frames ≡ first + h.frames)
        × (8 ≤ h.frames))
        (λ e. (block place.now known.now (context_of state.old first due)).read r.old.all r.old.place ≡ Err e) }
    ensures heads { OnOk result (count + 1 ≤ length out.new.blocks.items) }
    ensures frames { IfOk result (λ frames. frames ≤ length out.new.codes.items) }
    ensures few { IfOk result (λ frames. frames ≤ place.now.unit_frames) }
    ensures rest { out.new ≡ record out.old { blocks = out.new.blocks; codes = out.new.codes } }
    ensures moved { OnOk result ((r.new.all ≡ r.old.all) × (r.old.place ≤ r.new.place)) }
    ensures state { OnOk result (ForceFits place.now state.new) }
{
    if count == out.blocks.len() {
        out.blocks.push(BlockHead::default());
    }
    let head = &mut out.blocks[count];
    read_block(place, known, due, first, state, r, head, &mut out.codes)?;
    Ok(first + usize::from(head.frames))
}

/// The fault of a block for which no frames are left.
fn read_beyond(
    place: &Place,
    known: &Known,
    due: bool,
    first: usize,
    state: &mut Option<State>,
    r: &mut BitReader,
    codes: &mut ArrayVec<FrameCode, 160>,
) -> Result<(), Broken>
    requires place { IsPlace place.now }
    requires state { ForceFits place.now state.old }
    requires first { first ≤ length codes.old.items }
    requires few { first ≤ place.now.unit_frames }
    requires full { place.now.unit_frames < first + 8 }
    ensures read { IfErr result
        (λ e. (block place.now known.now (context_of state.old first due)).read r.old.all r.old.place ≡ Err e) }
    ensures fails { IsErr result }
{
    let mut head = BlockHead::default();
    read_block(place, known, due, first, state, r, &mut head, codes)
}

/// The blocks up to the last one. Their heads and frames stand in place of those that are there.
pub fn read_blocks(
    place: &Place,
    known: &Known,
    state: &mut Option<State>,
    r: &mut BitReader,
    out: &mut Segment,
) -> Result<(), Broken>
    requires place { IsPlace place.now }
    requires state { ForceFits place.now state.old }
    ensures read { MatchResult result
        (λ _. (bs : List Block)
        × ((blocks_from place.now known.now most_blocks (first_context place.now state.old)).read
        r.old.all r.old.place ≡ Ok (bs, r.new.place))
        × (out.new
        ≡ record out.old { blocks = record { items = heads_of bs }; codes = record { items = codes_of bs } })
        × (state.new ≡ force_after place.now state.old (heads_of bs)))
        (λ e. (blocks_from place.now known.now most_blocks (first_context place.now state.old)).read
        r.old.all r.old.place ≡ Err e) }
    ensures moved { OnOk result ((r.new.all ≡ r.old.all) × (r.old.place ≤ r.new.place)) }
    ensures state { OnOk result (ForceFits place.now state.new) }
{
    let mut due = place.major;
    let mut frames = 0;
    for count in 0..20usize {
        frames = read_block_behind(place, known, due, count, frames, state, r, out)?;
        let last = flag(r)?;
        if last {
            out.blocks.truncate(count + 1);
            out.codes.truncate(frames);
            return Ok(());
        }
        due = false;
    }
    read_beyond(place, known, due, frames, state, r, &mut out.codes)
}
