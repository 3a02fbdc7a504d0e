//! The loop.
ghost use Rattle.std.specs.Prelude.{◌≡◌, ◌<◌, ◌≤◌, ◌≢◌, [], false, IsTrue, IsFalse, length, Ok, Err, IfOk, IfErr, OnOk};
ghost use Rattle.mlp_io.specs.Causes.{IsCause};
ghost use Rattle.mlp_stream.specs.Moves.{Move};
ghost use Rattle.mlp_stream.specs.Sides.{side};
ghost use Rattle.mlp_io.specs.Limit.{limit};
ghost use Rattle.mlp_stream.specs.Sizes.{most_of_unit};
ghost use Rattle.mlp_stream.specs.Held.{is_ended, Refills};
ghost use Rattle.mlp_stream.specs.Gathers.{Gathers};
ghost use Rattle.mlp_stream.specs.Pumped.{Pumped, IsInputStop, IsUnitStop, IsLastStop, is_read_fault, is_write_fault};

use crate::gather::{Gathered, flush, gather, put};
use crate::session::Session;
use crate::stop::Stop;
use crate::window::{Rest, Window};
use mlp_io::{Sink, Source};
use mlp_syntax::UnitBytes;

/// Whether the limit cuts the next unit off.
fn is_cut<N: Session>(session: &N, window: &Window) -> bool
    requires { 0 < length window.now.bytes }
    ensures cut { let next = N.step session.now false window.now.bytes in
        IsTrue result → (window.now.rest ≡ Rest.Over) × (next ≡ Move.Waits) }
    ensures whole { let next = N.step session.now false window.now.bytes in
        IsFalse result → window.now.rest ≡ Rest.Over → next ≢ Move.Waits }
{
    window.rest() == Rest::Over && session.waits(window.bytes())
}

/// Takes the next unit of a window that has bytes, and replaces `out` by what comes of it.
fn next_unit<N: Session>(
    session: &mut N,
    window: &Window,
    out: &mut UnitBytes,
) -> Result<usize, Stop>
    requires some { 0 < length window.now.bytes }
    requires room { N.count session.old < limit }
    requires enough { window.now.rest ≡ Rest.More → most_of_unit ≤ length window.now.bytes }
    ensures ok { let next = N.step session.old (is_ended window.now.rest) window.now.bytes in
        IfOk result (λ n. next ≡ Move.Takes n out.new.items session.new) }
    ensures err { let next = N.step session.old (is_ended window.now.rest) window.now.bytes in
        IfErr result (λ stop. IsUnitStop next window.now.rest stop) }
{
    if is_cut(session, window) {
        return Err(Stop::TooLong);
    }
    match session.unit(window.bytes(), out) {
        Ok(used) => Ok(used),
        Err(refusal) => Err(Stop::Refused(refusal)),
    }
}

/// Ends the session at the end of the input.
fn last_word<N: Session>(session: &N, rest: Rest, out: &mut UnitBytes) -> Result<(), Stop>
    ensures ok { OnOk result ((rest ≢ Rest.Over) × (N.last session.now ≡ Ok out.new.items)) }
    ensures err { IfErr result (λ stop. IsLastStop (N.last session.now) rest stop) }
{
    if rest == Rest::Over {
        return Err(Stop::TooLong);
    }
    match session.end(out) {
        Ok(()) => Ok(()),
        Err(refusal) => Err(Stop::Refused(refusal)),
    }
}

/// Takes more of the input where the window is short of a unit, and writes before that what was gathered.
fn take_more<S: Source, K: Sink>(
    window: &mut Window,
    input: &mut S,
    gathered: &mut Gathered,
    output: &mut K,
) -> Result<(), Stop>
    ensures filled { OnOk result (Refills window.old window.new (side S.left input.old input.new)) }
    ensures flushed { let written = side K.written output.old output.new in
        OnOk result (Gathers written gathered.old [] gathered.new) }
    ensures err { let read = side S.left input.old input.new in
        let written = side K.written output.old output.new in
        IfErr result (λ stop. IsInputStop window.old read written gathered.old stop) }
    ensures read { IsCause (is_read_fault result) (S.faults input.old) (S.faults input.new) }
    ensures write { IsCause (is_write_fault result) (K.faults output.old) (K.faults output.new) }
{
    if !window.is_short() {
        return Ok(());
    }
    flush(gathered, output)?;
    window.refill(input)
}

/// Runs a session over the rest of an input, of which `taken` bytes were taken before. They count towards the limit of
/// 2^40.
///
/// What comes out is gathered, and written before more of the input is taken.
///
/// # Errors
///
/// [`Stop::Refused`] with the session's refusal; [`Stop::ReadFault`] and [`Stop::WriteFault`] where a read or a write
/// fails; [`Stop::TooLong`] where the input passes the limit and up to there the session refuses nothing.
pub fn pump<S: Source, K: Sink, N: Session>(
    session: &mut N,
    taken: u64,
    input: &mut S,
    output: &mut K,
) -> Result<(), Stop>
    requires new { N.count session.old ≡ 0 }
    requires within { taken ≤ limit }
    ensures pumped { let read = side S.left input.old input.new in
        let written = side K.written output.old output.new in
        Pumped N.step N.last taken session.old session.new read written result }
    ensures read { IsCause (is_read_fault result) (S.faults input.old) (S.faults input.new) }
    ensures write { IsCause (is_write_fault result) (K.faults output.old) (K.faults output.new) }
{
    let mut window = Window::new(taken);
    let mut gathered = Gathered::new();
    let mut out = UnitBytes::new();
    'units: loop {
        take_more(&mut window, input, &mut gathered, output)?;
        if window.bytes().is_empty() {
            flush(&mut gathered, output)?;
            last_word(session, window.rest(), &mut out)?;
            return put(output, out.as_slice());
        }
        match next_unit(session, &window, &mut out) {
            Ok(used) => {
                gather(&mut gathered, &out, output)?;
                window.skip(used);
            }
            Err(stop) => {
                flush(&mut gathered, output)?;
                return Err(stop);
            }
        }
    }
}
