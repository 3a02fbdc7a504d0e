//! Reading the head of a block, and putting in force what it gives.
//! Source: the MLP substream syntax as publicly documented.
ghost use Rattle.std.specs.Prelude.{◌≡◌, IfOk, IfSome, OnOk, option_map};
ghost use Rattle.mlp_layout.specs.Reading.{Gives};
ghost use Rattle.mlp_layout.specs.Combined.{present};
ghost use Rattle.mlp_layout.specs.Allowed.{Allowed};
ghost use Rattle.mlp_params.specs.RestartHeader.{restart};
ghost use Rattle.mlp_params.specs.Parameters.{params};
ghost use Rattle.mlp_params.specs.States.{IsState};
ghost use Rattle.mlp_substream.specs.Restarts.{judged_restart};
ghost use Rattle.mlp_substream.specs.Playable.{HeadFits};
ghost use Rattle.mlp_substream.specs.Blocks.{restarted, given, after_head, against, block_size_in, head, IsPlace, ForceFits};

use crate::known::{Known, Place};
use crate::restarts::{read_flags, read_judged};
use mlp_bits::BitReader;
use mlp_layout::broken;
use mlp_params::{State, apply, read_params_into};
use mlp_syntax::{BlockHead, Broken, Field, Kind, Params, Restart};

/// A restart header where the flags say so.
#[tactic(auto, unfolding(mlp_layout::specs::Layout::seen, mlp_layout::specs::Layout::made, mlp_layout::specs::Combined::chosen, mlp_layout::specs::Combined::present))]
fn read_restart_if(
    there: bool,
    known: &Known,
    format: Kind,
    r: &mut BitReader,
) -> Result<Option<Restart>, Broken>
    ensures read { Gives (λ x. x) r.old r.new result
        ((present there (judged_restart known.now format)).read r.old.all r.old.place) }
    ensures allowed { IfOk result (λ o. IfSome o (λ h. Allowed (restart format) h)) }
{
    if !there {
        return Ok(None);
    }
    let header = read_judged(known, format, r)?;
    Ok(Some(header))
}

/// Puts in force what a restart gives.
pub fn restart_at(place: &Place, header: &Option<Restart>, state: &mut Option<State>)
    requires place { IsPlace place.now }
    requires header { IfSome header.now (λ h. Allowed (restart place.now.format) h) }
    requires state { ForceFits place.now state.old }
    ensures value { state.new ≡ restarted place.now state.old header.now }
    ensures state { ForceFits place.now state.new }
{
    let Some(header) = header else {
        return;
    };
    match state {
        None => *state = Some(State::at_restart(place.format, place.unit_frames, header)),
        Some(state) => state.put_restart(place.format, place.unit_frames, header),
    }
}

/// Parameters where the flags say so, against what is in force.
#[tactic(auto, unfolding(mlp_layout::specs::Layout::seen, mlp_layout::specs::Layout::made, mlp_layout::specs::Layout::never, mlp_layout::specs::Combined::chosen, mlp_layout::specs::Combined::present, crate::specs::Blocks::against))]
fn read_params_if(
    there: bool,
    state: &Option<State>,
    r: &mut BitReader,
    out: &mut Option<Params>,
) -> Result<(), Broken>
    requires { IfSome state.now (λ s. IsState s) }
    ensures read { Gives (λ _. out.new) r.old r.new result
        ((present there (against state.now params)).read r.old.all r.old.place) }
    ensures allowed { OnOk result (IfSome out.new (λ p. IfSome state.now (λ s. Allowed (params s) p))) }
{
    if !there {
        // Where there are none, nothing of their size is written.
        if out.is_some() {
            *out = None;
        }
        return Ok(());
    }
    let Some(state) = state else {
        return Err(broken(Field::RestartMissing, r.place()));
    };
    read_params_into(state, r, out.get_or_insert_default())
}

/// Puts parameters in force.
pub fn apply_if(place: &Place, written: &Option<Params>, state: &mut Option<State>)
    requires written { IfSome written.now (λ p. IfSome state.old (λ s. Allowed (params s) p)) }
    requires state { ForceFits place.now state.old }
    ensures value { state.new ≡ option_map (given written.now) state.old }
    ensures state { ForceFits place.now state.new }
{
    if let (Some(params), Some(state)) = (written, state) {
        apply(state, params);
    }
}

fn block_size(state: &Option<State>) -> u16
    ensures { result ≡ block_size_in state.now }
{
    match state {
        None => 0,
        Some(state) => state.block_size,
    }
}

/// The head of a block. What it gives is put in force.
#[tactic(auto, unfolding(mlp_layout::specs::Layout::part, mlp_layout::specs::Layout::made, crate::specs::Blocks::behind_flags, crate::specs::Blocks::head))]
pub fn read_head(
    place: &Place,
    known: &Known,
    due: bool,
    state: &mut Option<State>,
    r: &mut BitReader,
    out: &mut BlockHead,
) -> Result<(), Broken>
    requires place { IsPlace place.now }
    requires state { ForceFits place.now state.old }
    ensures read { Gives (λ _. out.new) r.old r.new result
        ((head place.now known.now due state.old).read r.old.all r.old.place) }
    ensures force { OnOk result (state.new ≡ after_head place.now state.old out.new) }
    ensures frames { OnOk result (out.new.frames ≡ block_size_in state.new) }
    ensures state { OnOk result (ForceFits place.now state.new) }
{
    let (given, restarts) = read_flags(due, r)?;
    out.restart = read_restart_if(restarts, known, place.format, r)?;
    restart_at(place, &out.restart, state);
    read_params_if(given, state, r, &mut out.params)?;
    apply_if(place, &out.params, state);
    out.frames = block_size(state);
    Ok(())
}

/// Puts in force what the head of a block gives: its restart, and then its parameters.
pub fn put_head(place: &Place, head: &BlockHead, state: &mut Option<State>)
    requires place { IsPlace place.now }
    requires state { ForceFits place.now state.old }
    requires head { HeadFits place.now state.old head.now }
    ensures value { state.new ≡ after_head place.now state.old head.now }
    ensures state { ForceFits place.now state.new }
{
    restart_at(place, &head.restart, state);
    apply_if(place, &head.params, state);
}
