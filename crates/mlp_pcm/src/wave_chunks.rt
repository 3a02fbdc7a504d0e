//! The chunks of a WAVE file, up to its data.
ghost use Rattle.std.specs.Prelude.{◌≡◌, ◌+◌, ◌^◌, ◌≤◌, ◌<◌, length, IfOk, IfErr, false, nat_eq, codes, suc};
ghost use Rattle.mlp_io.specs.Limit.{limit};
ghost use Rattle.mlp_io.specs.Causes.{IsCause};
ghost use Rattle.mlp_syntax.specs.declared.refusal.WaveField.TheVariants.{Chunk};
ghost use Rattle.mlp_pcm.specs.WaveHeader.{padded};
ghost use Rattle.mlp_pcm.specs.WaveBytes.{TakesBehind, Stops, is_read_fault};
ghost use Rattle.mlp_pcm.specs.WaveScan.{chunk, chunks, IsTurn, Ends, ContentSays, ChunksSay, place_of};
ghost use Rattle.std.specs.List.{starts_with};

use crate::wave_bytes::{WaveRefusal, skip, take};
use crate::wave_format::{Format, judge};
use byteorder::{ByteOrder, LittleEndian};
use mlp_io::Source;
use mlp_syntax::WaveField;

/// What a chunk was.
#[derive(Clone, Copy, Debug, PartialEq, Eq)]
pub enum Turn {
    /// The data chunk's head, with the size that it states.
    Data {
        format: Format,
        size: u32,
        taken: u64,
    },
    /// Another chunk, or the format's.
    Passed {
        format: Option<Format>,
        taken: u64,
    },
}

/// Takes a chunk's content: its first bytes into the buffer.
fn content<S: Source>(
    source: &mut S,
    taken: u64,
    size: u64,
    buf: &mut [u8],
) -> Result<u64, WaveRefusal>
    requires taken { taken ≤ limit }
    requires size { size ≤ 2 ^ 33 }
    requires buf { (length buf.old ≤ 40) × (length buf.old ≤ size) }
    ensures ok { IfOk result (TakesBehind (S.left source.old) (S.left source.new) taken buf.new size) }
    ensures err { IfErr result (Stops (S.left source.old) (S.left source.new) taken size Chunk) }
    ensures cause { IsCause (is_read_fault result) (S.faults source.old) (S.faults source.new) }
{
    let count = buf.len() as u64;
    match take(source, taken, buf, WaveField::Chunk) {
        Ok(at) => skip(source, at, size - count),
        Err(refusal) => Err(refusal),
    }
}

/// Takes a chunk behind its head.
fn passed<S: Source>(
    source: &mut S,
    seen: Option<Format>,
    head: &[u8],
    taken: u64,
) -> Result<Turn, WaveRefusal>
    requires taken { taken ≤ limit }
    requires head { length head.now ≡ 8 }
    requires other { starts_with nat_eq head.now (codes "data") ≡ false }
    ensures ok { IfOk result
        (IsTurn (S.left source.old) (S.left source.new) taken (λ n xs. chunk (chunks n) seen head.now xs)) }
    ensures err { IfErr result (Ends (S.left source.old) (S.left source.new) taken (ContentSays seen head.now)) }
    ensures cause { IsCause (is_read_fault result) (S.faults source.old) (S.faults source.new) }
{
    let size = LittleEndian::read_u32(&head[4..]);
    let whole = u64::from(size) + u64::from(size % 2);
    let mut buf = [0; 40];
    let count = whole.min(40) as usize;
    let first = &mut buf[..count];
    let at = match content(source, taken, whole, first) {
        Ok(at) => at,
        Err(refusal) => return Err(refusal),
    };
    if seen.is_some() {
        return Ok(Turn::Passed {
            format: seen,
            taken: at,
        });
    }
    if !head.starts_with(b"fmt ") {
        return Ok(Turn::Passed {
            format: seen,
            taken: at,
        });
    }
    match judge(size, first) {
        Ok(format) => Ok(Turn::Passed {
            format: Some(format),
            taken: at,
        }),
        Err(field) => Err(WaveRefusal::Header(field)),
    }
}

/// Takes the next chunk: its head, and its content unless it is the data.
pub fn next_chunk<S: Source>(
    source: &mut S,
    seen: Option<Format>,
    taken: u64,
) -> Result<Turn, WaveRefusal>
    requires taken { taken ≤ limit }
    ensures ok { IfOk result (IsTurn (S.left source.old) (S.left source.new) taken (λ n xs. chunks (suc n) seen xs)) }
    ensures err { IfErr result (Ends (S.left source.old) (S.left source.new) taken (ChunksSay seen)) }
    ensures further { IfOk result (λ turn. taken < place_of turn) }
    ensures cause { IsCause (is_read_fault result) (S.faults source.old) (S.faults source.new) }
{
    let mut head = [0; 8];
    let at = match take(source, taken, &mut head, WaveField::Chunk) {
        Ok(at) => at,
        Err(refusal) => return Err(refusal),
    };
    if !head.starts_with(b"data") {
        return passed(source, seen, &head, at);
    }
    match seen {
        Some(format) => {
            let size = LittleEndian::read_u32(&head[4..]);
            Ok(Turn::Data {
                format,
                size,
                taken: at,
            })
        }
        None => Err(WaveRefusal::Header(WaveField::FmtMissing)),
    }
}
