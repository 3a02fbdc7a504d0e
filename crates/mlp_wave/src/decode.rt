//! The command `decode-wav`.
ghost use Rattle.std.specs.Prelude.{◌≡◌, ◌⊎◌, ◌+◌, ◌≤◌, ℕ, List, length};
ghost use Rattle.std.specs.Io.KnownBytes.{Consumes};
ghost use Rattle.mlp_io.specs.Causes.{IsCause};
ghost use Rattle.mlp_io.specs.Limit.{limit};
ghost use Rattle.mlp_stream.specs.Sides.{side};
ghost use Rattle.mlp_answers.specs.Failures.{is_read_failure, is_write_failure};
ghost use Rattle.mlp_wave.specs.Saved.{Saved};

use crate::save::save;
use mlp_answers::{Failure, failure_by};
use mlp_io::{Sink, Source};
use mlp_sessions::Decode;
use mlp_stream::{GrowingSink, pump};
use std::alloc::Global;

/// Decodes a presentation from 0 to 2 into a WAVE file of samples of 16 or 24 bits. All samples are held in memory; nothing
/// is written before the whole input was read and accepted.
///
/// # Errors
///
/// [`Failure::OutOfMemory`] where there is no memory for the samples. [`Failure::Stopped`] with what stops the decoding, with
/// [`Stop::TooLong`] also where a WAVE header can't state how many bytes the samples have, and with [`Stop::WriteFault`]
/// where the file can't be written. It is never [`Failure::Usage`].
pub fn decode_wave<S: Source, K: Sink>(
    alloc: Global,
    presentation: u8,
    bits: u8,
    input: &mut S,
    output: &mut K,
) -> Result<(), Failure>
    requires exists { presentation ≤ 2 }
    requires bits { (bits ≡ 16) ⊎ (bits ≡ 24) }
    ensures saved { let read = side S.left input.old input.new in
        let written = side K.written output.old output.new in
        Saved presentation bits read written result }
    ensures few { let read = side S.left input.old input.new in
        (taken : List ℕ) × Consumes read.before read.behind taken × (length taken ≤ limit + 1) }
    ensures read { IsCause (is_read_failure result) (S.faults input.old) (S.faults input.new) }
    ensures write { IsCause (is_write_failure result) (K.faults output.old) (K.faults output.new) }
{
    let mut session = Decode::open(presentation, bits);
    let mut samples = GrowingSink::new(alloc);
    match pump(&mut session, 0, input, &mut samples) {
        Ok(()) => {
            let (channels, rate) = (session.channels(), session.rate());
            match save(channels, rate, bits, samples.bytes(), output) {
                Ok(()) => Ok(()),
                Err(stop) => Err(Failure::Stopped(stop)),
            }
        }
        Err(stop) => Err(failure_by(stop)),
    }
}
