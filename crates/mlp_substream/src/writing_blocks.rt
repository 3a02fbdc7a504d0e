//! Writing the blocks of a segment.
//!
//! Each call appends the text of its value, and answers `Full` exactly where the bits would pass 65,520; then the
//! writer has its old bits and perhaps a part of the new ones, and isn't used again.
ghost use Rattle.std.specs.Prelude.{◌≡◌, ◌++◌, ℕ, Bool, true, length, IfSome, OnOk};
ghost use Rattle.mlp_layout.specs.Combined.{flag};
ghost use Rattle.mlp_layout.specs.Writing.{Writes};
ghost use Rattle.mlp_layout.specs.Allowed.{Allowed};
ghost use Rattle.mlp_params.specs.States.{IsState};
ghost use Rattle.mlp_residual.specs.Frames.{frames_of};
ghost use Rattle.mlp_substream.specs.Blocks.{against, steps_fit_in, after_head, force_after, block as block_layout, IsPlace, context_of, first_context, ForceFits};
ghost use Rattle.mlp_substream.specs.Segment.{nested, most_blocks, unknown, blocks_from};

use crate::known::Place;
use crate::writing_heads::write_head;
use mlp_bits::{BitWriter, Full};
use mlp_layout::{put_all, put_flag};
use mlp_params::State;
use mlp_residual::write_frames;
use mlp_syntax::{BlockHead, FrameCode};

/// The frames of a block, by what is in force.
#[tactic(auto, unfolding(mlp_layout::specs::Layout::never, crate::specs::Blocks::against))]
fn write_codes(state: &Option<State>, frames: &[FrameCode], w: &mut BitWriter) -> Result<(), Full>
    requires state { IfSome state.now (λ s. IsState s) }
    requires steps { steps_fit_in state.now ≡ true }
    requires frames { (against state.now (λ s. frames_of s (length frames.now))).Fits frames.now }
    ensures { Writes w.old w.new result
        ((against state.now (λ s. frames_of s (length frames.now))).spelling frames.now) }
{
    match state {
        None => put_all(&[], w),
        Some(state) => write_frames(state, frames, w),
    }
}

/// A block. What its head gives is put in force.
fn write_block(
    place: &Place,
    state: &mut Option<State>,
    head: &BlockHead,
    frames: &[FrameCode],
    w: &mut BitWriter,
) -> Result<(), Full>
    requires place { IsPlace place.now }
    requires state { ForceFits place.now state.old }
    requires block { (so_far : ℕ) × (due : Bool)
        × Allowed (block_layout place.now unknown (context_of state.old so_far due))
        (record { head = head.now; frames = frames.now }) }
    ensures text { (so_far : ℕ) (due : Bool)
        → Writes w.old w.new result ((block_layout place.now unknown (context_of state.old so_far due)).spelling
        (record { head = head.now; frames = frames.now })) }
    ensures force { OnOk result (state.new ≡ after_head place.now state.old head.now) }
    ensures state { OnOk result (ForceFits place.now state.new) }
{
    write_head(place, state, head, w)?;
    write_codes(state, frames, w)
}

/// A block, and the bit that tells whether it is the last.
fn write_marked(
    place: &Place,
    state: &mut Option<State>,
    head: &BlockHead,
    frames: &[FrameCode],
    last: bool,
    w: &mut BitWriter,
) -> Result<(), Full>
    requires place { IsPlace place.now }
    requires state { ForceFits place.now state.old }
    requires block { (so_far : ℕ) × (due : Bool)
        × Allowed (block_layout place.now unknown (context_of state.old so_far due))
        (record { head = head.now; frames = frames.now }) }
    ensures text { (so_far : ℕ) (due : Bool)
        → Writes w.old w.new result ((block_layout place.now unknown (context_of state.old so_far due)).spelling
        (record { head = head.now; frames = frames.now }) ++ flag.spelling last) }
    ensures force { OnOk result (state.new ≡ after_head place.now state.old head.now) }
    ensures state { OnOk result (ForceFits place.now state.new) }
{
    write_block(place, state, head, frames, w)?;
    put_flag(last, w)
}

/// The blocks up to the last one. The frames of all of them stand one after the other.
pub fn write_blocks(
    place: &Place,
    state: &mut Option<State>,
    heads: &[BlockHead],
    codes: &[FrameCode],
    w: &mut BitWriter,
) -> Result<(), Full>
    requires place { IsPlace place.now }
    requires state { ForceFits place.now state.old }
    requires blocks { Allowed (blocks_from place.now unknown most_blocks (first_context place.now state.old))
        (nested heads.now codes.now) }
    ensures text { Writes w.old w.new result
        ((blocks_from place.now unknown most_blocks (first_context place.now state.old)).spelling
        (nested heads.now codes.now)) }
    ensures force { OnOk result (state.new ≡ force_after place.now state.old heads.now) }
    ensures state { OnOk result (ForceFits place.now state.new) }
{
    let _place = w.place();
    let mut start = 0;
    for i in 0..heads.len() {
        let head = &heads[i];
        let end = start + usize::from(head.frames);
        let last = i + 1 == heads.len();
        write_marked(place, state, head, &codes[start..end], last, w)?;
        start = end;
    }
    Ok(())
}
