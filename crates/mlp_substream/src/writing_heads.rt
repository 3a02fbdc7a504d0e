//! Writing the head of a block, and putting in force what it gives.
//! Source: the MLP substream syntax as publicly documented.
//!
//! Each call appends the text of its value, and answers `Full` exactly where the bits would pass 65,520; then the
//! writer has its old bits and perhaps a part of the new ones, and isn't used again.
ghost use Rattle.std.specs.Prelude.{◌≡◌, Bool, is_some, IfSome, OnOk};
ghost use Rattle.mlp_syntax.specs.declared.major.Kind.{Kind};
ghost use Rattle.mlp_layout.specs.Combined.{present};
ghost use Rattle.mlp_layout.specs.Writing.{Writes};
ghost use Rattle.mlp_layout.specs.Allowed.{Allowed};
ghost use Rattle.mlp_params.specs.Parameters.{params};
ghost use Rattle.mlp_params.specs.States.{IsState};
ghost use Rattle.mlp_substream.specs.Restarts.{flags, judged_restart};
ghost use Rattle.mlp_substream.specs.Blocks.{after_head, against, head as head_layout, IsPlace, ForceFits};
ghost use Rattle.mlp_substream.specs.Segment.{unknown};

use crate::heads::{apply_if, restart_at};
use crate::known::Place;
use mlp_bits::{BitWriter, Full};
use mlp_layout::{put_all, put_flag};
use mlp_params::{State, write_params, write_restart};
use mlp_syntax::{BlockHead, Params, Restart};

/// The parameter flag, and behind one that is set the restart flag. Without parameters there is no restart.
#[tactic(auto, unfolding(mlp_layout::specs::Layout::made, mlp_layout::specs::Combined::chosen))]
fn write_flags(given: bool, restarts: bool, w: &mut BitWriter) -> Result<(), Full>
    ensures { (due : Bool) → let f : Bool × Bool = (given, restarts) in
        Writes w.old w.new result ((flags due).spelling f) }
{
    put_flag(given, w)?;
    if given {
        put_flag(restarts, w)
    } else {
        put_all(&[], w)
    }
}

/// A restart header where there is one.
#[tactic(auto, unfolding(mlp_layout::specs::Layout::seen, mlp_layout::specs::Layout::made, mlp_layout::specs::Layout::ruled, mlp_layout::specs::Combined::chosen, mlp_layout::specs::Combined::present, mlp_layout::specs::Combined::under, crate::specs::Restarts::judged_restart))]
fn write_restart_if(header: &Option<Restart>, w: &mut BitWriter) -> Result<(), Full>
    requires { (format : Kind) × (present (is_some header.now) (judged_restart unknown format)).Fits header.now }
    ensures { (format : Kind) → Writes w.old w.new result
        ((present (is_some header.now) (judged_restart unknown format)).spelling header.now) }
{
    match header {
        None => put_all(&[], w),
        Some(header) => write_restart(header, w),
    }
}

/// Parameters where there are some, against what is in force.
#[tactic(auto, using(mlp_layout::proofs::Fitting::some_allowed), unfolding(mlp_layout::specs::Layout::seen, mlp_layout::specs::Layout::made, mlp_layout::specs::Layout::never, mlp_layout::specs::Combined::chosen, mlp_layout::specs::Combined::present, crate::specs::Blocks::against))]
fn write_params_if(
    state: &Option<State>,
    given: &Option<Params>,
    w: &mut BitWriter,
) -> Result<(), Full>
    requires state { IfSome state.now (λ s. IsState s) }
    requires given { Allowed (present (is_some given.now) (against state.now params)) given.now }
    ensures { Writes w.old w.new result ((present (is_some given.now) (against state.now params)).spelling given.now) }
{
    match given {
        None => put_all(&[], w),
        Some(given) => match state {
            None => put_all(&[], w),
            Some(state) => write_params(state, given, w),
        },
    }
}

/// Writes the head of a block. What it gives is put in force.
pub fn write_head(
    place: &Place,
    state: &mut Option<State>,
    head: &BlockHead,
    w: &mut BitWriter,
) -> Result<(), Full>
    requires place { IsPlace place.now }
    requires state { ForceFits place.now state.old }
    requires head { (due : Bool) × Allowed (head_layout place.now unknown due state.old) head.now }
    ensures text { (due : Bool)
        → Writes w.old w.new result ((head_layout place.now unknown due state.old).spelling head.now) }
    ensures force { OnOk result (state.new ≡ after_head place.now state.old head.now) }
    ensures state { OnOk result (ForceFits place.now state.new) }
{
    write_flags(head.params.is_some(), head.restart.is_some(), w)?;
    write_restart_if(&head.restart, w)?;
    restart_at(place, &head.restart, state);
    write_params_if(state, &head.params, w)?;
    apply_if(place, &head.params, state);
    Ok(())
}
