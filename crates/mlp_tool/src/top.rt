//! The top call.
ghost use Rattle.std.specs.Prelude.{◌≡◌, ◌==◌, ◌≤◌, ◌⊎◌, map, string_bytes};
ghost use Rattle.mlp_io.specs.Causes.{IsCause};
ghost use Rattle.mlp_stream.specs.Sides.{side};
ghost use Rattle.mlp_stream.specs.Pumped.{is_read_fault, is_write_fault};
ghost use Rattle.mlp_answers.specs.Works.{Works};
ghost use Rattle.mlp_check.specs.Runs.{Checks};
ghost use Rattle.mlp_cut.specs.Cutting.{cutting};
ghost use Rattle.mlp_extract.specs.Extracting.{extracting};
ghost use Rattle.mlp_retime.specs.Runs.{Retimes};
ghost use Rattle.mlp_sessions.specs.Listing.{listing};
ghost use Rattle.mlp_sessions.specs.Playing.{playing};
ghost use Rattle.mlp_tool.specs.Words.{presentation_in, IsKnown};
ghost use Rattle.mlp_tool.specs.Lines.{status_of};
ghost use Rattle.mlp_tool.specs.Run.{Does, TakesFew, Told, Ran};

use crate::line::{line_of, status_of};
use crate::words::{Command, plain};
use mlp_answers::{Failure, end_of};
use mlp_check::Check;
use mlp_cut::Cutter;
use mlp_editing::recover_input;
use mlp_encoding::{encode_raw, encode_wave};
use mlp_extract::Extractor;
use mlp_gen::generate;
use mlp_io::{Sink, Source, put_all};
use mlp_retime::Retimer;
use mlp_sessions::{Decode, List};
use mlp_stream::{Stop, pump};
use mlp_wave::decode_wave;
use std::alloc::Global;

/// Decodes a presentation from 0 to 2 into samples of 16 or 24 bits.
fn decode<S: Source, K: Sink>(
    presentation: u8,
    bits: u8,
    input: &mut S,
    output: &mut K,
) -> Result<(), Stop>
    requires exists { presentation ≤ 2 }
    requires bits { (bits ≡ 16) ⊎ (bits ≡ 24) }
    ensures works { let read = side S.left input.old input.new in
        let written = side K.written output.old output.new in
        Works (playing presentation bits) read written result }
    ensures few { TakesFew (side S.left input.old input.new) }
    ensures read { IsCause (is_read_fault result) (S.faults input.old) (S.faults input.new) }
    ensures write { IsCause (is_write_fault result) (K.faults output.old) (K.faults output.new) }
{
    let mut session = Decode::open(presentation, bits);
    pump(&mut session, 0, input, output)
}

/// Extracts a presentation from 0 to 2.
fn extract<S: Source, K: Sink>(presentation: u8, input: &mut S, output: &mut K) -> Result<(), Stop>
    requires exists { presentation ≤ 2 }
    ensures works { let read = side S.left input.old input.new in
        let written = side K.written output.old output.new in
        Works (extracting presentation) read written result }
    ensures few { TakesFew (side S.left input.old input.new) }
    ensures read { IsCause (is_read_fault result) (S.faults input.old) (S.faults input.new) }
    ensures write { IsCause (is_write_fault result) (K.faults output.old) (K.faults output.new) }
{
    let mut session = Extractor::open(presentation);
    pump(&mut session, 0, input, output)
}

/// Lists the access units.
fn list<S: Source, K: Sink>(input: &mut S, output: &mut K) -> Result<(), Stop>
    ensures works { let read = side S.left input.old input.new in
        let written = side K.written output.old output.new in
        Works listing read written result }
    ensures few { TakesFew (side S.left input.old input.new) }
    ensures read { IsCause (is_read_fault result) (S.faults input.old) (S.faults input.new) }
    ensures write { IsCause (is_write_fault result) (K.faults output.old) (K.faults output.new) }
{
    let mut session = List::open();
    pump(&mut session, 0, input, output)
}

/// Cuts the stream: `count` access units from the one of number `first` on.
fn cut<S: Source, K: Sink>(
    first: u64,
    count: u64,
    input: &mut S,
    output: &mut K,
) -> Result<(), Stop>
    ensures works { let read = side S.left input.old input.new in
        let written = side K.written output.old output.new in
        Works (cutting first count) read written result }
    ensures few { TakesFew (side S.left input.old input.new) }
    ensures read { IsCause (is_read_fault result) (S.faults input.old) (S.faults input.new) }
    ensures write { IsCause (is_write_fault result) (K.faults output.old) (K.faults output.new) }
{
    let mut session = Cutter::open(first, count);
    pump(&mut session, 0, input, output)
}

/// Checks the stream of a presentation from 0 to 2.
fn check<S: Source, K: Sink>(
    alloc: Global,
    presentation: u8,
    input: &mut S,
    output: &mut K,
) -> Result<(), Failure>
    requires exists { presentation ≤ 2 }
    ensures checks { let read = side S.left input.old input.new in
        let written = side K.written output.old output.new in
        Checks presentation read written result }
    ensures few { TakesFew (side S.left input.old input.new) }
    ensures read { IsCause (status_of result == 5) (S.faults input.old) (S.faults input.new) }
    ensures write { IsCause (status_of result == 6) (K.faults output.old) (K.faults output.new) }
{
    match Check::open(alloc, presentation) {
        Err(_) => Err(Failure::OutOfMemory),
        Ok(mut session) => end_of(pump(&mut session, 0, input, output)),
    }
}

/// Retimes the stream.
fn retime<S: Source, K: Sink>(alloc: Global, input: &mut S, output: &mut K) -> Result<(), Failure>
    ensures retimes { let read = side S.left input.old input.new in
        let written = side K.written output.old output.new in
        Retimes read written result }
    ensures few { TakesFew (side S.left input.old input.new) }
    ensures read { IsCause (status_of result == 5) (S.faults input.old) (S.faults input.new) }
    ensures write { IsCause (status_of result == 6) (K.faults output.old) (K.faults output.new) }
{
    match Retimer::open(alloc) {
        Err(_) => Err(Failure::OutOfMemory),
        Ok(mut session) => end_of(pump(&mut session, 0, input, output)),
    }
}

/// Does what a command says, where there is one.
fn work<S: Source, K: Sink>(
    alloc: Global,
    command: &Option<Command>,
    input: &mut S,
    output: &mut K,
) -> Result<(), Failure>
    requires { IsKnown command.now }
    ensures does { let read = side S.left input.old input.new in
        let written = side K.written output.old output.new in
        Does command.now read written result }
    ensures few { TakesFew (side S.left input.old input.new) }
    ensures read { IsCause (status_of result == 5) (S.faults input.old) (S.faults input.new) }
    ensures write { IsCause (status_of result == 6) (K.faults output.old) (K.faults output.new) }
{
    match command {
        None => Err(Failure::Usage),
        Some(Command::DecodeRaw { presentation, bits }) => {
            end_of(decode(*presentation, *bits, input, output))
        }
        Some(Command::DecodeWav { presentation, bits }) => {
            decode_wave(alloc, *presentation, *bits, input, output)
        }
        Some(Command::Extract { presentation }) => { end_of(extract(*presentation, input, output)) }
        Some(Command::List) => end_of(list(input, output)),
        Some(Command::Check { presentation }) => check(alloc, *presentation, input, output),
        Some(Command::Cut { first, count }) => end_of(cut(*first, *count, input, output)),
        Some(Command::Recover { presentation }) => {
            recover_input(alloc, *presentation, input, output)
        }
        Some(Command::Retime) => retime(alloc, input, output),
        Some(Command::EncodeRaw { profile }) => encode_raw(alloc, *profile, input, output),
        Some(Command::EncodeWav { kind, mix }) => encode_wave(alloc, *kind, *mix, input, output),
        Some(
            Command::Gen {
                profile,
                units,
                seed,
            },
        ) => { generate(alloc, *profile, *seed, *units, output) }
    }
}

/// Tells a line, as far as that goes.
fn tell<E: Sink>(errors: &mut E, line: &[u8])
    ensures { let told = side E.written errors.old errors.new in
        Told line.now (E.faults errors.old) (E.faults errors.new) told }
{
    let _ = put_all(errors, line);
}

fn presentation_in(command: &Option<Command>) -> u8
    ensures { result ≡ presentation_in command.now }
{
    match command {
        None | Some(Command::List | Command::Cut { .. } | Command::Retime) => 0,
        Some(Command::EncodeRaw { .. } | Command::EncodeWav { .. } | Command::Gen { .. }) => 0,
        Some(Command::DecodeRaw { presentation, .. }) => *presentation,
        Some(Command::DecodeWav { presentation, .. }) => *presentation,
        Some(Command::Extract { presentation }) => *presentation,
        Some(Command::Check { presentation }) => *presentation,
        Some(Command::Recover { presentation }) => *presentation,
    }
}

/// Runs the words over an input and an output, tells the line of the end to `errors`, and answers its status.
///
/// `check`, `retime`, `encode-raw` and `encode-wav` take memory from `alloc` before they read, `decode-wav` for the samples,
/// `recover` for the input and `gen` before it makes a unit; no other command does. `gen` reads nothing, and a run takes at
/// most one byte more than 2^40 from the input.
///
/// # Errors
///
/// | status | the run |
/// |---|---|
/// | 0 | did its work |
/// | 1 | met bytes that break a rule of the stream's format |
/// | 2 | has words of no plain form |
/// | 3 | met PCM, or a header or profile of it, that can't be encoded |
/// | 4 | met an access unit that has no schedule |
/// | 5 | met a read that failed |
/// | 6 | met a write that failed |
/// | 7 | found no memory for its work |
/// | 8 | met a stream that hasn't the presentation |
/// | 9 | met more than 2^40 bytes, or more samples than a WAVE file can state |
/// | 10 | met a sample with a low byte that 16 bits don't hold |
/// | 11 | met a stream that can't be cut there |
pub fn run<S: Source, K: Sink, E: Sink>(
    alloc: Global,
    words: &[String],
    input: &mut S,
    output: &mut K,
    errors: &mut E,
) -> u8
    ensures ran { let read = side S.left input.old input.new in
        let written = side K.written output.old output.new in
        let told = side E.written errors.old errors.new in
        Ran (map string_bytes words.now) read written told (E.faults errors.old) (E.faults errors.new) result }
    ensures read { IsCause (result == 5) (S.faults input.old) (S.faults input.new) }
    ensures write { IsCause (result == 6) (K.faults output.old) (K.faults output.new) }
{
    let command = plain(words);
    let end = work(alloc, &command, input, output);
    let line = line_of(presentation_in(&command), &end);
    tell(errors, line.as_slice());
    status_of(&end)
}
