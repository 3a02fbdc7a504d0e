//! What is said of a stream that was checked.
ghost use Rattle.std.specs.Prelude.{◌≡◌, ◌+◌, ◌≤◌, ◌++◌, [], length, decimal};
ghost use Rattle.mlp_check.specs.Report.{line, timing_name, report_text};

use mlp_sessions::{put_number, put_text};
use mlp_syntax::UnitBytes;

/// What a stream holds for a presentation.
#[derive(Clone, Copy, Debug, PartialEq, Eq)]
pub struct Report {
    /// The access units.
    pub units: u64,
    /// The frames that they give.
    pub frames: u64,
    /// The output channels of a frame.
    pub channels: u8,
    /// The sampling rate in hertz.
    pub rate: u32,
    /// The access units with a major sync.
    pub restarts: u64,
    /// Whether the stream keeps its timing.
    pub timed: bool,
}

/// Puts a line of a number behind the bytes.
fn put_count(out: &mut UnitBytes, name: &[u8], number: u64)
    requires name { length name.now ≤ 100 }
    requires room { length out.old.items ≤ 2000 }
    ensures text { out.new.items ≡ out.old.items ++ line name.now (decimal number) }
    ensures short { length out.new.items ≤ length out.old.items + 122 }
{
    put_text(out, name);
    put_text(out, b" ");
    put_number(out, number);
    put_text(out, b"\n");
}

fn timing_name(timed: bool) -> &'static [u8]
    ensures text { result.now ≡ timing_name timed }
    ensures short { length result.now ≤ 3 }
{
    if timed { b"yes" } else { b"no" }
}

/// Replaces `out` by the six lines of a report.
pub fn put_report(report: &Report, out: &mut UnitBytes)
    ensures { out.new.items ≡ report_text report.now }
{
    out.clear();
    put_count(out, b"units", report.units);
    put_count(out, b"frames", report.frames);
    put_count(out, b"channels", u64::from(report.channels));
    put_count(out, b"rate", u64::from(report.rate));
    put_count(out, b"restarts", report.restarts);
    put_text(out, b"timing ");
    put_text(out, timing_name(report.timed));
    put_text(out, b"\n");
}
