//! The command `encode-wav`.
ghost use Rattle.std.specs.Prelude.{◌≡◌, ◌+◌, ◌≤◌, ℕ, List, length, Some, OnOk};
ghost use Rattle.mlp_fold.specs.Profile.{checked};
ghost use Rattle.mlp_pcm.specs.WaveScan.{format_of};
ghost use Rattle.std.specs.Io.KnownBytes.{Consumes};
ghost use Rattle.mlp_io.specs.Causes.{IsCause};
ghost use Rattle.mlp_io.specs.Limit.{limit};
ghost use Rattle.mlp_stream.specs.Sides.{side};
ghost use Rattle.mlp_answers.specs.Failures.{is_read_failure, is_write_failure};
ghost use Rattle.mlp_encoding.specs.Encoding.{encoding};
ghost use Rattle.mlp_encoding.specs.Wave.{profile_in, header_failure, EncodesWave};

use crate::encode::Encode;
use crate::raw::refused;
use mlp_answers::{Failure, end_of};
use mlp_fold::{Mix, Profile};
use mlp_io::{Sink, Source};
use mlp_pcm::{WaveInfo, WaveRefusal, read_wave_header};
use mlp_stream::{Stop, pump};
use mlp_syntax::{Kind, PcmFault, ProfileFault};
use std::alloc::Global;

/// Why the header of a file stops the work.
fn header_failure(refusal: WaveRefusal) -> Failure
    ensures { result ≡ header_failure refusal }
{
    match refusal {
        WaveRefusal::Read => Failure::Stopped(Stop::ReadFault),
        WaveRefusal::Header(field) => refused(PcmFault::WaveHeader(field)),
        WaveRefusal::TooLong => Failure::Stopped(Stop::TooLong),
    }
}

/// Makes the session one for the data behind a header.
///
/// # Errors
///
/// The fault of a profile that can't be encoded.
fn begin(kind: Kind, mix: Mix, info: &WaveInfo, session: &mut Encode) -> Result<(), ProfileFault>
    ensures value { result ≡ checked (profile_in kind mix (format_of info.now)) }
    ensures is { OnOk result (session.new ≡ encoding (profile_in kind mix (format_of info.now)) (Some info.now.size)) }
{
    if info.channels > 255 {
        return Err(ProfileFault::Channels);
    }
    let profile = Profile {
        kind,
        rate: info.rate,
        channels: info.channels as u8,
        depth: info.depth,
        mix,
    };
    session.reset(profile, Some(u64::from(info.size)))
}

/// Encodes the data of a WAVE file. It takes all its memory before it reads.
///
/// # Errors
///
/// [`Failure::OutOfMemory`] where there is no memory; nothing is read then. [`Failure::Stopped`] with what stops the
/// work: a refusal of the header, of its profile, of the PCM or of a unit that has no place, a fault of either side, or
/// an input that is too long. It is never [`Failure::Usage`].
pub fn encode_wave<S: Source, K: Sink>(
    alloc: Global,
    kind: Kind,
    mix: Mix,
    input: &mut S,
    output: &mut K,
) -> Result<(), Failure>
    ensures encodes { let read = side S.left input.old input.new in
        let written = side K.written output.old output.new in
        EncodesWave kind mix read written result }
    ensures few { let read = side S.left input.old input.new in
        (taken : List ℕ) × Consumes read.before read.behind taken × (length taken ≤ limit + 1) }
    ensures read { IsCause (is_read_failure result) (S.faults input.old) (S.faults input.new) }
    ensures write { IsCause (is_write_failure result) (K.faults output.old) (K.faults output.new) }
{
    // the header tells the profile
    let any = Profile {
        kind,
        rate: 48000,
        channels: 2,
        depth: 16,
        mix: Mix::Split,
    };
    let Ok(mut session) = Encode::open(alloc, any, None) else {
        return Err(Failure::OutOfMemory);
    };
    let info = match read_wave_header(input) {
        Ok(info) => info,
        Err(refusal) => return Err(header_failure(refusal)),
    };
    match begin(kind, mix, &info, &mut session) {
        Ok(()) => {}
        Err(fault) => return Err(refused(PcmFault::Profile(fault))),
    }
    if info.size == 0 {
        return Err(refused(PcmFault::Empty));
    }
    end_of(pump(&mut session, info.taken, input, output))
}
