//! What `gen` tells.
ghost use Rattle.std.specs.Prelude.{◌≡◌, ◌+◌, ◌≤◌, ◌++◌, [], drop, length, decimal};
ghost use Rattle.mlp_gen.specs.Report.{line, channels_text, frames_text, presentation_line, extract_line, presentation_lines, extract_lines, report_text};

use arrayvec::ArrayVec;
use mlp_fold::channels_of;
use mlp_sessions::{put_number, put_text};
use mlp_syntax::UnitBytes;

/// What a presentation shows of a stream, and what is extracted for it.
#[derive(Clone, Copy, Debug, Default, PartialEq, Eq)]
pub struct Shown {
    /// The number of its frames.
    pub frames: u64,
    /// The sum of the bytes of its samples, three bytes each, modulo 2^32.
    pub sum: u32,
    /// The number of bytes that are extracted for it.
    pub extracted: u64,
}

/// What was made by a seed.
#[derive(Drop)]
pub struct Report {
    /// The number of bytes of the PCM.
    pub pcm: u64,
    /// The number of bytes of the stream.
    pub stream: u64,
    /// The presentations, from the first on.
    pub shown: ArrayVec<Shown, 3>,
    /// The number of access units.
    pub units: u64,
}

/// Puts a line of a name and a number behind the bytes.
fn put_line(out: &mut UnitBytes, name: &[u8], number: u64)
    requires name { length name.now ≤ 100 }
    requires room { length out.old.items ≤ 4000 }
    ensures text { out.new.items ≡ out.old.items ++ line name.now number }
    ensures short { length out.new.items ≤ length out.old.items + 122 }
{
    put_text(out, name);
    put_text(out, b" ");
    put_number(out, number);
    put_text(out, b"\n");
}

/// Puts which presentation it is and how many channels it has.
fn put_channels(out: &mut UnitBytes, presentation: u8, channels: u8)
    requires { length out.old.items ≤ 4000 }
    ensures text { out.new.items ≡ out.old.items ++ channels_text presentation channels }
    ensures short { length out.new.items ≤ length out.old.items + 70 }
{
    put_text(out, b"presentation ");
    put_number(out, u64::from(presentation));
    put_text(out, b" channels ");
    put_number(out, u64::from(channels));
}

/// Puts what its frames are.
fn put_frames(out: &mut UnitBytes, shown: &Shown)
    requires { length out.old.items ≤ 4100 }
    ensures text { out.new.items ≡ out.old.items ++ frames_text shown.now }
    ensures short { length out.new.items ≤ length out.old.items + 70 }
{
    put_text(out, b" frames ");
    put_number(out, shown.frames);
    put_text(out, b" sum ");
    put_number(out, u64::from(shown.sum));
    put_text(out, b"\n");
}

fn put_presentation(out: &mut UnitBytes, presentation: u8, shown: &Shown)
    requires { length out.old.items ≤ 4000 }
    ensures text { out.new.items ≡ out.old.items ++ presentation_line presentation shown.now }
    ensures short { length out.new.items ≤ length out.old.items + 200 }
{
    put_channels(out, presentation, channels_of(presentation));
    put_frames(out, shown);
}

fn put_extract(out: &mut UnitBytes, presentation: u8, shown: &Shown)
    requires { length out.old.items ≤ 4000 }
    ensures text { out.new.items ≡ out.old.items ++ extract_line presentation shown.now }
    ensures short { length out.new.items ≤ length out.old.items + 200 }
{
    put_text(out, b"extract ");
    put_number(out, u64::from(presentation));
    put_text(out, b" bytes ");
    put_number(out, shown.extracted);
    put_text(out, b"\n");
}

/// Puts a line for each presentation.
fn put_presentations(out: &mut UnitBytes, shown: &[Shown])
    requires few { length shown.now ≤ 3 }
    requires room { length out.old.items ≤ 2000 }
    ensures text { out.new.items ≡ out.old.items ++ presentation_lines 0 shown.now }
    ensures short { length out.new.items ≤ length out.old.items + 600 }
{
    for k in 0..shown.len() {
        put_presentation(out, k as u8, &shown[k]);
    }
}

fn put_extracts(out: &mut UnitBytes, shown: &[Shown])
    requires few { length shown.now ≤ 3 }
    requires room { length out.old.items ≤ 2000 }
    ensures text { out.new.items ≡ out.old.items ++ extract_lines 0 shown.now }
    ensures short { length out.new.items ≤ length out.old.items + 600 }
{
    for k in 0..shown.len() {
        put_extract(out, k as u8, &shown[k]);
    }
}

/// Replaces `out` by the lines of a report.
pub fn put_report(report: &Report, out: &mut UnitBytes)
    ensures { out.new.items ≡ report_text report.now }
{
    out.clear();
    put_line(out, b"pcm", report.pcm);
    put_line(out, b"stream", report.stream);
    put_presentations(out, &report.shown);
    put_extracts(out, &report.shown);
    put_line(out, b"units", report.units);
}
