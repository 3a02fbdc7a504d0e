//! The lines of what is recovered.
ghost use Rattle.std.specs.Prelude.{◌≡◌, ◌+◌, ◌*◌, ◌^◌, ◌<◌, min};
ghost use Rattle.mlp_editing.specs.Told.{lost_line, kept_line};

use arrayvec::ArrayVec;
use mlp_recover::Span;
use mlp_sessions::{put_number, put_text};

/// A line with its line feed.
pub type Line = ArrayVec<u8, 256>;

/// The line of bytes that are lost.
pub fn lost_line(span: &Span) -> Line
    ensures { result.items ≡ lost_line span.now.first span.now.past }
{
    let mut line = Line::new();
    put_text(&mut line, b"lost ");
    put_number(&mut line, span.first);
    put_text(&mut line, b" ");
    put_number(&mut line, span.past);
    put_text(&mut line, b"\n");
    line
}

/// How many bytes the samples of a kept span have: three for each of at most 8 channels.
pub fn sample_bytes(span: &Span) -> u64
    requires { span.now.frames < 2 ^ 46 }
    ensures { result ≡ span.now.frames * (3 * min span.now.channels 8) }
{
    span.frames * (3 * u64::from(span.channels.min(8)))
}

/// The line of a kept span, whose samples have so many bytes.
pub fn kept_line(span: &Span, bytes: u64) -> Line
    ensures { result.items ≡ kept_line span.now bytes }
{
    let mut line = Line::new();
    put_text(&mut line, b"kept ");
    put_number(&mut line, span.first);
    put_text(&mut line, b" ");
    put_number(&mut line, span.past);
    put_text(&mut line, b" units ");
    put_number(&mut line, span.units);
    put_text(&mut line, b" channels ");
    put_number(&mut line, u64::from(span.channels));
    put_text(&mut line, b" rate ");
    put_number(&mut line, u64::from(span.rate));
    put_text(&mut line, b" bytes ");
    put_number(&mut line, bytes);
    put_text(&mut line, b"\n");
    line
}
