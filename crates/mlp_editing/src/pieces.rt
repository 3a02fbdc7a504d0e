//! Writing what is told of the pieces of damaged bytes.
ghost use Rattle.std.specs.Prelude.{◌≡◌, ◌≤◌, ◌<◌, ◌^◌, ℕ, List, All, length};
ghost use Rattle.mlp_io.specs.Causes.{IsCause};
ghost use Rattle.mlp_io.specs.Limit.{limit};
ghost use Rattle.mlp_stream.specs.Sides.{side};
ghost use Rattle.mlp_stream.specs.Pumped.{is_write_fault};
ghost use Rattle.mlp_bits.specs.Bits.{bits_of};
ghost use Rattle.mlp_layout.specs.Streams.{Stream};
ghost use Rattle.mlp_contents.specs.Units.{Unit_of, start, whole};
ghost use Rattle.mlp_decoded.specs.Decoded.{decoded};
ghost use Rattle.mlp_recover.specs.Recovered.{Piece};
ghost use Rattle.mlp_recover.specs.Spans.{HasFewFrames};
ghost use Rattle.mlp_editing.specs.Told.{told, all_told, Puts, IsSpan, AreSpansOf};

use crate::lines::{kept_line, lost_line, sample_bytes};
use mlp_io::{Sink, put_all};
use mlp_recover::{Span, Spans};
use mlp_sessions::Decode;
use mlp_stream::{SliceSource, Stop, pump};

/// Writes all of the bytes.
fn put<K: Sink>(output: &mut K, bytes: &[u8]) -> Result<(), Stop>
    ensures puts { Puts (side K.written output.old output.new) bytes.now result }
    ensures cause { IsCause (is_write_fault result) (K.faults output.old) (K.faults output.new) }
{
    match put_all(output, bytes) {
        Ok(()) => Ok(()),
        Err(_) => Err(Stop::WriteFault),
    }
}

/// Writes the samples of presentation `k` of bytes that are a stream, in 24 bits. The session begins anew.
fn put_samples<K: Sink>(
    session: &mut Decode,
    k: u8,
    bytes: &[u8],
    output: &mut K,
) -> Result<(), Stop>
    requires exists { k ≤ 2 }
    requires few { length bytes.now ≤ limit }
    requires stream { (us : List Unit_of) × Stream (whole k) (start k) k (bits_of bytes.now) us }
    ensures puts { (us : List Unit_of) → Stream (whole k) (start k) k (bits_of bytes.now) us
        → Puts (side K.written output.old output.new) (decoded k 24 us) result }
    ensures cause { IsCause (is_write_fault result) (K.faults output.old) (K.faults output.new) }
{
    session.reset(k, 24);
    let mut input = SliceSource::new(bytes);
    pump(session, 0, &mut input, output)
}

/// Writes what is told of a kept span: its line and its samples.
fn put_kept<K: Sink>(
    session: &mut Decode,
    k: u8,
    bytes: &[u8],
    span: &Span,
    output: &mut K,
) -> Result<(), Stop>
    requires exists { k ≤ 2 }
    requires few { length bytes.now ≤ limit }
    requires frames { HasFewFrames span.now }
    requires piece { (us : List Unit_of) × IsSpan k bytes.now span.now (Piece.Kept span.now.first span.now.past us) }
    ensures puts { (us : List Unit_of) → IsSpan k bytes.now span.now (Piece.Kept span.now.first span.now.past us)
        → Puts (side K.written output.old output.new) (told k (Piece.Kept span.now.first span.now.past us)) result }
    ensures cause { IsCause (is_write_fault result) (K.faults output.old) (K.faults output.new) }
{
    let line = kept_line(span, sample_bytes(span));
    match put(output, line.as_slice()) {
        Ok(()) => {
            let kept = &bytes[span.first as usize..span.past as usize];
            put_samples(session, k, kept, output)
        }
        Err(stop) => Err(stop),
    }
}

/// Writes what is told of a span.
fn put_span<K: Sink>(
    session: &mut Decode,
    k: u8,
    bytes: &[u8],
    span: &Span,
    output: &mut K,
) -> Result<(), Stop>
    requires exists { k ≤ 2 }
    requires few { length bytes.now ≤ limit }
    requires frames { HasFewFrames span.now }
    requires piece { (p : Piece) × IsSpan k bytes.now span.now p }
    ensures puts { (p : Piece) → IsSpan k bytes.now span.now p
        → Puts (side K.written output.old output.new) (told k p) result }
    ensures cause { IsCause (is_write_fault result) (K.faults output.old) (K.faults output.new) }
{
    let kept = span.kept;
    if kept {
        return put_kept(session, k, bytes, span, output);
    }
    put(output, lost_line(span).as_slice())
}

/// Writes what is told of all spans.
pub fn put_spans<K: Sink>(k: u8, bytes: &[u8], spans: &Spans, output: &mut K) -> Result<(), Stop>
    requires exists { k ≤ 2 }
    requires few { length bytes.now ≤ limit }
    requires frames { All HasFewFrames spans.now }
    requires pieces { (ps : List Piece) × AreSpansOf k bytes.now spans.now ps }
    ensures puts { (ps : List Piece) → AreSpansOf k bytes.now spans.now ps
        → Puts (side K.written output.old output.new) (all_told k ps) result }
    ensures cause { IsCause (is_write_fault result) (K.faults output.old) (K.faults output.new) }
{
    let mut session = Decode::open(k, 24);
    for i in 0..spans.len() {
        let span = spans.at(i);
        if let Err(stop) = put_span(&mut session, k, bytes, &span, output) {
            return Err(stop);
        }
    }
    Ok(())
}
