//! The header of a WAVE file, read from any source.
ghost use Rattle.std.specs.Prelude.{IfOk, IfErr, OnOk};
ghost use Rattle.mlp_io.specs.Causes.{IsCause};
ghost use Rattle.mlp_pcm.specs.WaveBytes.{is_read_fault};
ghost use Rattle.mlp_pcm.specs.WaveScan.{TakesRiff, Ends, HeaderSays, AllChunksSay, Says, Chunked, Began};

use crate::samples::behind;
use crate::wave_bytes::{WaveRefusal, take};
use crate::wave_chunks::{Turn, next_chunk};
use mlp_io::Source;
use mlp_syntax::WaveField;

/// What the header of a WAVE file says.
#[derive(Clone, Copy, Debug, PartialEq, Eq)]
pub struct WaveInfo {
    pub channels: u16,
    /// Samples a second.
    pub rate: u32,
    /// The bits of a sample that count: 16, 20 or 24, or 0 for all others.
    pub depth: u8,
    /// The bytes of a sample.
    pub width: u8,
    /// The number of data bytes that the header states.
    pub size: u32,
    /// The number of bytes of the header.
    pub taken: u64,
}

/// Takes the first 12 bytes.
fn take_riff<S: Source>(source: &mut S) -> Result<(), WaveRefusal>
    ensures ok { OnOk result (TakesRiff (S.left source.old) (S.left source.new)) }
    ensures err { IfErr result (Ends (S.left source.old) (S.left source.new) 0 HeaderSays) }
    ensures cause { IsCause (is_read_fault result) (S.faults source.old) (S.faults source.new) }
{
    let mut riff = [0; 12];
    match take(source, 0, &mut riff, WaveField::Riff) {
        Ok(_) => {}
        Err(refusal) => return Err(refusal),
    }
    if !riff.starts_with(b"RIFF") {
        return Err(WaveRefusal::Header(WaveField::Riff));
    }
    if !behind(&riff, 8).starts_with(b"WAVE") {
        return Err(WaveRefusal::Header(WaveField::Riff));
    }
    Ok(())
}

/// Takes the chunks up to the data.
fn take_chunks<S: Source>(source: &mut S) -> Result<WaveInfo, WaveRefusal>
    ensures ok { IfOk result (Chunked (S.left source.old) (S.left source.new)) }
    ensures err { IfErr result (Ends (S.left source.old) (S.left source.new) 12 AllChunksSay) }
    ensures cause { IsCause (is_read_fault result) (S.faults source.old) (S.faults source.new) }
{
    let mut seen = None;
    let mut at = 12;
    loop {
        match next_chunk(source, seen, at) {
            Ok(Turn::Passed { format, taken }) => {
                seen = format;
                at = taken;
            }
            Ok(
                Turn::Data {
                    format,
                    size,
                    taken,
                },
            ) => {
                return Ok(WaveInfo {
                    channels: format.channels,
                    rate: format.rate,
                    depth: format.depth,
                    width: format.width,
                    size,
                    taken,
                });
            }
            Err(refusal) => return Err(refusal),
        }
    }
}

/// Takes the header up to the first data byte.
///
/// # Errors
///
/// `Read` only where the source's count of faults rose, and that count stays at every other answer: the bytes taken
/// were then consumed, and are a header that isn't finished. `Header` with the first field that is wrong. `TooLong`
/// where the header has more than 2^40 bytes.
pub fn read_wave_header<S: Source>(source: &mut S) -> Result<WaveInfo, WaveRefusal>
    ensures ok { IfOk result (Began (S.left source.old) (S.left source.new)) }
    ensures err { IfErr result (Ends (S.left source.old) (S.left source.new) 0 Says) }
    ensures cause { IsCause (is_read_fault result) (S.faults source.old) (S.faults source.new) }
{
    match take_riff(source) {
        Ok(()) => take_chunks(source),
        Err(refusal) => Err(refusal),
    }
}
