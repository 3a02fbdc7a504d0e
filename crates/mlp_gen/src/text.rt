//! The command.
ghost use Rattle.std.specs.Prelude.{◌≡◌, ◌≤◌, Err, Ok};
ghost use Rattle.mlp_io.specs.Causes.{IsCause};
ghost use Rattle.mlp_stream.specs.Sides.{side};
ghost use Rattle.mlp_answers.specs.Failures.{is_write_failure};
ghost use Rattle.mlp_gen.specs.Generated.{open_failure, Makes, Generates};

use crate::making::make_report;
use crate::player::open_players;
use crate::report::put_report;
use mlp_answers::{Failure, end_of};
use mlp_encode::{Encoder, OpenRefusal};
use mlp_fold::{Profile, substreams};
use mlp_io::Sink;
use mlp_stream::{Refusal, Stop, put};
use mlp_syntax::{PcmFault, UnitBytes};
use std::alloc::Global;

fn failure_of(refusal: OpenRefusal) -> Failure
    ensures { result ≡ open_failure refusal }
{
    match refusal {
        OpenRefusal::Memory => Failure::OutOfMemory,
        OpenRefusal::BadProfile(fault) => {
            Failure::Stopped(Stop::Refused(Refusal::Pcm(PcmFault::Profile(fault))))
        }
    }
}

/// Replaces `out` by the lines.
fn make_text(
    alloc: Global,
    profile: Profile,
    seed: u32,
    units: u64,
    out: &mut UnitBytes,
) -> Result<(), Failure>
    requires { (1 ≤ units) × (units ≤ 100000) }
    ensures { Makes profile seed units out.new.items result }
{
    let mut encoder = match Encoder::open(alloc, profile) {
        Ok(encoder) => encoder,
        Err(refusal) => return Err(failure_of(refusal)),
    };
    let mut players = match open_players(alloc, substreams(profile.channels)) {
        Ok(players) => players,
        Err(_) => return Err(Failure::OutOfMemory),
    };
    match make_report(&profile, seed, units, &mut encoder, &mut players) {
        Ok(report) => {
            put_report(&report, out);
            Ok(())
        }
        Err(room) => Err(Failure::Stopped(Stop::Refused(Refusal::NoRoom(room)))),
    }
}

/// Makes so many access units of PCM by a seed, encodes them, decodes and extracts each presentation of the stream, and
/// writes what came of it. All memory that it needs it takes before the first unit.
///
/// # Errors
///
/// [`Failure::OutOfMemory`] where there is none, and [`Failure::Stopped`] with the fault of a profile that can't be encoded,
/// with the first unit that has no schedule, or with [`Stop::WriteFault`] where the lines can't be written. Nothing is written
/// before the last of these. It is never [`Failure::Usage`].
#[tactic(auto, using(crate::proofs::Ends::wrote, crate::proofs::Ends::wrote_cause, crate::proofs::Ends::none_written, crate::proofs::Ends::none_cause))]
pub fn generate<K: Sink>(
    alloc: Global,
    profile: Profile,
    seed: u32,
    units: u64,
    output: &mut K,
) -> Result<(), Failure>
    requires { (1 ≤ units) × (units ≤ 100000) }
    ensures generates { let written = side K.written output.old output.new in
        Generates profile seed units written result }
    ensures cause { IsCause (is_write_failure result) (K.faults output.old) (K.faults output.new) }
{
    let mut text = UnitBytes::new();
    match make_text(alloc, profile, seed, units, &mut text) {
        Ok(()) => end_of(put(output, &text)),
        Err(failure) => Err(failure),
    }
}
