//! The command `recover`.
ghost use Rattle.std.specs.Prelude.{◌≡◌, ◌+◌, ◌≤◌, ℕ, List, length};
ghost use Rattle.std.specs.Io.KnownBytes.{Consumes};
ghost use Rattle.mlp_io.specs.Causes.{IsCause};
ghost use Rattle.mlp_io.specs.Limit.{limit};
ghost use Rattle.mlp_stream.specs.Sides.{side};
ghost use Rattle.mlp_answers.specs.Failures.{is_read_failure, is_write_failure};
ghost use Rattle.mlp_editing.specs.Mended.{Tells, Mended};

use crate::copier::Copier;
use crate::pieces::put_spans;
use mlp_answers::{Failure, failure_by};
use mlp_io::{LIMIT, Sink, Source};
use mlp_recover::recover;
use mlp_stream::{GrowingSink, Stop, pump};
use std::alloc::Global;

/// Writes what is recovered of bytes.
fn put_recovered<K: Sink>(alloc: Global, k: u8, bytes: &[u8], output: &mut K) -> Result<(), Failure>
    requires exists { k ≤ 2 }
    requires few { length bytes.now ≤ limit }
    ensures tells { Tells k bytes.now (side K.written output.old output.new) result }
    ensures write { IsCause (is_write_failure result) (K.faults output.old) (K.faults output.new) }
{
    match recover(alloc, k, bytes) {
        Ok(spans) => match put_spans(k, bytes, &spans, output) {
            Ok(()) => Ok(()),
            Err(stop) => Err(Failure::Stopped(stop)),
        },
        Err(_) => Err(Failure::OutOfMemory),
    }
}

/// Recovers what is intact of an input for presentation `k`, 0 to 2: a line for each kept interval, with its samples of 24 bits
/// behind it, and a line for each range of bytes that is lost. All bytes of the input are held in memory; nothing is written
/// before its end was seen.
///
/// # Errors
///
/// [`Failure::OutOfMemory`] where there is no memory for the input or the spans; nothing is then written.
/// [`Failure::Stopped`] with [`Stop::ReadFault`] or [`Stop::WriteFault`] where a read or a write fails, and with
/// [`Stop::TooLong`] where the input has more than 2^40 bytes. Damaged bytes are no error. It is never [`Failure::Usage`].
pub fn recover_input<S: Source, K: Sink>(
    alloc: Global,
    k: u8,
    input: &mut S,
    output: &mut K,
) -> Result<(), Failure>
    requires { k ≤ 2 }
    ensures mended { let read = side S.left input.old input.new in
        let written = side K.written output.old output.new in
        Mended k read written result }
    ensures few { let read = side S.left input.old input.new in
        (taken : List ℕ) × Consumes read.before read.behind taken × (length taken ≤ limit + 1) }
    ensures read { IsCause (is_read_failure result) (S.faults input.old) (S.faults input.new) }
    ensures write { IsCause (is_write_failure result) (K.faults output.old) (K.faults output.new) }
{
    let mut session = Copier::open();
    let mut copy = GrowingSink::new(alloc);
    match pump(&mut session, 0, input, &mut copy) {
        Ok(()) => {
            let bytes = copy.bytes();
            if bytes.len() as u64 > LIMIT {
                return Err(Failure::Stopped(Stop::TooLong));
            }
            put_recovered(alloc, k, bytes, output)
        }
        Err(stop) => Err(failure_by(stop)),
    }
}
