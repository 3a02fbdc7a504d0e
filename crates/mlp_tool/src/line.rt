//! The line that a run tells at its end, and its status.
ghost use Rattle.std.specs.Prelude.{◌≡◌, ◌+◌, ◌≤◌, ◌++◌, [], length, codes, decimal};
ghost use Rattle.mlp_syntax.specs.Field.{name_of};
ghost use Rattle.mlp_tool.specs.Lines.{refusal_status, stop_status, status_of, wave_name, profile_name, pcm_name, fault_line, no_room_line, missing_line, refusal_line, stop_line, line_of};

use arrayvec::ArrayVec;
use mlp_answers::Failure;
use mlp_sessions::{put_number, put_text};
use mlp_stream::{Refusal, Stop};
use mlp_syntax::{Fault, Field, PcmFault, ProfileFault, WaveField};

/// Room for a line.
pub type Line = ArrayVec<u8, 128>;

fn name(field: Field) -> &'static [u8]
    ensures text { result.now ≡ name_of field }
    ensures short { length result.now ≤ 15 }
{
    field.name().as_bytes()
}

fn wave_name(field: WaveField) -> &'static [u8]
    ensures text { result.now ≡ wave_name field }
    ensures short { length result.now ≤ 10 }
{
    match field {
        WaveField::Riff => b"Riff",
        WaveField::Chunk => b"Chunk",
        WaveField::FmtMissing => b"FmtMissing",
        WaveField::FmtSize => b"FmtSize",
        WaveField::Tag => b"Tag",
        WaveField::Align => b"Align",
        WaveField::Bits => b"Bits",
    }
}

fn profile_name(fault: ProfileFault) -> &'static [u8]
    ensures text { result.now ≡ profile_name fault }
    ensures short { length result.now ≤ 8 }
{
    match fault {
        ProfileFault::Channels => b"Channels",
        ProfileFault::Rate => b"Rate",
        ProfileFault::Depth => b"Depth",
        ProfileFault::MixShape => b"MixShape",
    }
}

fn push_fault(line: &mut Line, fault: &Fault)
    requires { line.old.items ≡ [] }
    ensures { line.new.items ≡ fault_line fault.now }
{
    put_text(line, b"bad stream: unit ");
    put_number(line, fault.unit);
    put_text(line, b", substream ");
    put_number(line, u64::from(fault.substream));
    put_text(line, b", ");
    put_text(line, name(fault.field));
    put_text(line, b", bit ");
    put_number(line, u64::from(fault.bit));
    put_text(line, b"\n");
}

fn push_pcm_name(line: &mut Line, fault: &PcmFault)
    requires { length line.old.items ≤ 20 }
    ensures text { line.new.items ≡ line.old.items ++ pcm_name fault.now }
    ensures short { length line.new.items ≤ 60 }
{
    match fault {
        PcmFault::WaveHeader(field) => {
            put_text(line, b"WaveHeader ");
            put_text(line, wave_name(*field));
        }
        PcmFault::Profile(fault) => put_text(line, profile_name(*fault)),
        PcmFault::Empty => put_text(line, b"Empty"),
        PcmFault::PadBits { frame } => {
            put_text(line, b"PadBits ");
            put_number(line, *frame);
        }
        PcmFault::PartialFrame => put_text(line, b"PartialFrame"),
        PcmFault::PartialUnit => put_text(line, b"PartialUnit"),
    }
}

fn push_pcm(line: &mut Line, fault: &PcmFault)
    requires { line.old.items ≡ [] }
    ensures { line.new.items ≡ codes "pcm refused: " ++ pcm_name fault.now ++ codes "\n" }
{
    put_text(line, b"pcm refused: ");
    push_pcm_name(line, fault);
    put_text(line, b"\n");
}

fn push_missing(line: &mut Line, wanted: u8, have: u8)
    requires { line.old.items ≡ [] }
    ensures { line.new.items ≡ missing_line wanted have }
{
    put_text(line, b"no presentation: ");
    put_number(line, u64::from(wanted));
    put_text(line, b" of ");
    put_number(line, u64::from(have));
    put_text(line, b"\n");
}

fn push_no_room(line: &mut Line, unit: u64, bytes: u32)
    requires { line.old.items ≡ [] }
    ensures { line.new.items ≡ no_room_line unit bytes }
{
    put_text(line, b"no schedule: unit ");
    put_number(line, unit);
    put_text(line, b", ");
    put_number(line, u64::from(bytes));
    put_text(line, b" bytes\n");
}

/// Puts a number between two texts.
fn push_between(line: &mut Line, before: &[u8], number: u64, behind: &[u8])
    requires empty { line.old.items ≡ [] }
    requires first { length before.now ≤ 40 }
    requires second { length behind.now ≤ 40 }
    ensures { line.new.items ≡ before.now ++ decimal number ++ behind.now }
{
    put_text(line, before);
    put_number(line, number);
    put_text(line, behind);
}

fn push_refusal(line: &mut Line, presentation: u8, refusal: &Refusal)
    requires { line.old.items ≡ [] }
    ensures { line.new.items ≡ refusal_line presentation refusal.now }
{
    match refusal {
        Refusal::Fault(fault) => push_fault(line, fault),
        Refusal::Pcm(fault) => push_pcm(line, fault),
        Refusal::NoRoom(unit) => push_no_room(line, unit.unit, unit.bytes),
        Refusal::NoPresentation { have } => push_missing(line, presentation, *have),
        Refusal::LowBits { frame } => push_between(line, b"low bits: frame ", *frame, b"\n"),
        Refusal::NoRestart { unit } => {
            push_between(line, b"no cut: unit ", *unit, b" has no restart\n")
        }
        Refusal::NotThere { units } => push_between(line, b"no cut: ", *units, b" units\n"),
    }
}

fn refusal_status(refusal: &Refusal) -> u8
    ensures { result ≡ refusal_status refusal.now }
{
    match refusal {
        Refusal::Fault(_) => 1,
        Refusal::Pcm(_) => 3,
        Refusal::NoRoom(_) => 4,
        Refusal::NoPresentation { .. } => 8,
        Refusal::LowBits { .. } => 10,
        Refusal::NoRestart { .. } | Refusal::NotThere { .. } => 11,
    }
}

fn stop_status(stop: &Stop) -> u8
    ensures { result ≡ stop_status stop.now }
{
    match stop {
        Stop::Refused(refusal) => refusal_status(refusal),
        Stop::ReadFault => 5,
        Stop::WriteFault => 6,
        Stop::TooLong => 9,
    }
}

/// The status of an end.
pub fn status_of(end: &Result<(), Failure>) -> u8
    ensures { result ≡ status_of end.now }
{
    match end {
        Ok(()) => 0,
        Err(Failure::Usage) => 2,
        Err(Failure::OutOfMemory) => 7,
        Err(Failure::Stopped(stop)) => stop_status(stop),
    }
}

fn push_stop(line: &mut Line, presentation: u8, stop: &Stop)
    requires { line.old.items ≡ [] }
    ensures { line.new.items ≡ stop_line presentation stop.now }
{
    match stop {
        Stop::Refused(refusal) => push_refusal(line, presentation, refusal),
        Stop::ReadFault => put_text(line, b"read fault\n"),
        Stop::WriteFault => put_text(line, b"write fault\n"),
        Stop::TooLong => put_text(line, b"too long\n"),
    }
}

/// The line of an end, for a presentation, with its line feed.
pub fn line_of(presentation: u8, end: &Result<(), Failure>) -> Line
    ensures { result.items ≡ line_of presentation end.now }
{
    let mut line = Line::new();
    match end {
        Ok(()) => {}
        Err(Failure::Usage) => put_text(&mut line, b"usage\n"),
        Err(Failure::OutOfMemory) => put_text(&mut line, b"out of memory\n"),
        Err(Failure::Stopped(stop)) => push_stop(&mut line, presentation, stop),
    }
    line
}
