//! The command `encode-raw`.
ghost use Rattle.std.specs.Prelude.{◌≡◌, ◌+◌, ◌≤◌, ℕ, List, length};
ghost use Rattle.std.specs.Io.KnownBytes.{Consumes};
ghost use Rattle.mlp_io.specs.Causes.{IsCause};
ghost use Rattle.mlp_io.specs.Limit.{limit};
ghost use Rattle.mlp_stream.specs.Sides.{side};
ghost use Rattle.mlp_answers.specs.Failures.{is_read_failure, is_write_failure};
ghost use Rattle.mlp_encoding.specs.Encodes.{EncodesRaw};

use crate::encode::Encode;
use mlp_answers::{Failure, end_of};
use mlp_fold::Profile;
use mlp_io::{Sink, Source};
use mlp_stream::{Refusal, Stop, pump};
use mlp_syntax::PcmFault;
use std::alloc::Global;

/// A fault of the PCM.
pub fn refused(fault: PcmFault) -> Failure
    ensures { result ≡ Failure.Stopped (Stop.Refused (Refusal.Pcm fault)) }
{
    Failure::Stopped(Stop::Refused(Refusal::Pcm(fault)))
}

/// Encodes raw PCM of a profile. It takes all its memory before it reads; nothing is read where the profile can't be
/// encoded.
///
/// # Errors
///
/// [`Failure::OutOfMemory`] where there is no memory; nothing is read then. [`Failure::Stopped`] with what stops the
/// work: a refusal of the profile, of the PCM or of a unit that has no place, a fault of either side, or an input that
/// is too long. It is never [`Failure::Usage`].
pub fn encode_raw<S: Source, K: Sink>(
    alloc: Global,
    profile: Profile,
    input: &mut S,
    output: &mut K,
) -> Result<(), Failure>
    ensures encodes { let read = side S.left input.old input.new in
        let written = side K.written output.old output.new in
        EncodesRaw profile read written result }
    ensures few { let read = side S.left input.old input.new in
        (taken : List ℕ) × Consumes read.before read.behind taken × (length taken ≤ limit + 1) }
    ensures read { IsCause (is_read_failure result) (S.faults input.old) (S.faults input.new) }
    ensures write { IsCause (is_write_failure result) (K.faults output.old) (K.faults output.new) }
{
    match profile.check() {
        Ok(()) => {}
        Err(fault) => return Err(refused(PcmFault::Profile(fault))),
    }
    match Encode::open(alloc, profile, None) {
        Ok(mut session) => end_of(pump(&mut session, 0, input, output)),
        Err(_) => Err(Failure::OutOfMemory),
    }
}
