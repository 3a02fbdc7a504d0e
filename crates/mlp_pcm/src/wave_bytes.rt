//! Bytes of a header, taken from a source up to a limit.
ghost use Rattle.std.specs.Prelude.{◌≡◌, ◌+◌, ◌^◌, ◌≤◌, ◌<◌, length, IfOk, IfErr};
ghost use Rattle.mlp_io.specs.Limit.{limit};
ghost use Rattle.mlp_io.specs.Causes.{IsCause};
ghost use Rattle.mlp_pcm.specs.WaveBytes.{Takes, TakesCount, Stops, is_read_fault, the_refusal};
ghost use Rattle.mlp_syntax.specs.declared.refusal.WaveField.TheVariants.{Chunk};

use mlp_io::{LIMIT, Source, fill};
use mlp_syntax::WaveField;

/// Why a header can't be read.
#[derive(Clone, Copy, Debug, PartialEq, Eq)]
pub enum WaveRefusal {
    /// The source failed.
    Read,
    /// This part of the header is wrong.
    Header(WaveField),
    /// The header has more than 2^40 bytes.
    TooLong,
}

/// Fills the buffer, which there is room for.
fn take_within<S: Source>(
    source: &mut S,
    taken: u64,
    buf: &mut [u8],
    short: WaveField,
) -> Result<u64, WaveRefusal>
    requires room { taken + length buf.old ≤ limit }
    ensures ok { IfOk result (Takes (S.left source.old) (S.left source.new) taken buf.new) }
    ensures err { IfErr result (Stops (S.left source.old) (S.left source.new) taken (length buf.old) short) }
    ensures cause { IsCause (is_read_fault result) (S.faults source.old) (S.faults source.new) }
{
    let size = buf.len();
    match fill(source, buf) {
        Ok(count) => {
            if count < size {
                return Err(WaveRefusal::Header(short));
            }
            Ok(taken + size as u64)
        }
        Err(_) => Err(WaveRefusal::Read),
    }
}

/// Reads up to the limit and one byte more, where the buffer would go past it.
fn take_past<S: Source>(source: &mut S, taken: u64, buf: &mut [u8], short: WaveField) -> WaveRefusal
    requires taken { taken ≤ limit }
    requires room { limit < taken + length buf.old }
    ensures stops { Stops (S.left source.old) (S.left source.new) taken (length buf.old) short result }
    ensures cause { IsCause (is_read_fault (the_refusal result)) (S.faults source.old) (S.faults source.new) }
{
    let room = (LIMIT - taken) as usize;
    match fill(source, &mut buf[..room + 1]) {
        Ok(count) => {
            if count <= room {
                return WaveRefusal::Header(short);
            }
            WaveRefusal::TooLong
        }
        Err(_) => WaveRefusal::Read,
    }
}

/// Fills the buffer. The number of bytes taken is then that before and its length.
pub fn take<S: Source>(
    source: &mut S,
    taken: u64,
    buf: &mut [u8],
    short: WaveField,
) -> Result<u64, WaveRefusal>
    requires taken { taken ≤ limit }
    requires small { length buf.old ≤ 1024 }
    ensures ok { IfOk result (Takes (S.left source.old) (S.left source.new) taken buf.new) }
    ensures err { IfErr result (Stops (S.left source.old) (S.left source.new) taken (length buf.old) short) }
    ensures cause { IsCause (is_read_fault result) (S.faults source.old) (S.faults source.new) }
{
    if taken + buf.len() as u64 <= LIMIT {
        return take_within(source, taken, buf, short);
    }
    Err(take_past(source, taken, buf, short))
}

/// Passes over at most 512 bytes.
fn skip_some<S: Source>(source: &mut S, taken: u64, count: usize) -> Result<u64, WaveRefusal>
    requires taken { taken ≤ limit }
    requires count { count ≤ 512 }
    ensures ok { IfOk result (TakesCount (S.left source.old) (S.left source.new) taken count) }
    ensures err { IfErr result (Stops (S.left source.old) (S.left source.new) taken count Chunk) }
    ensures cause { IsCause (is_read_fault result) (S.faults source.old) (S.faults source.new) }
{
    let mut buf = [0; 512];
    take(source, taken, &mut buf[..count], WaveField::Chunk)
}

/// Passes over bytes.
pub fn skip<S: Source>(source: &mut S, taken: u64, count: u64) -> Result<u64, WaveRefusal>
    requires taken { taken ≤ limit }
    requires count { count ≤ 2 ^ 33 }
    ensures ok { IfOk result (TakesCount (S.left source.old) (S.left source.new) taken count) }
    ensures err { IfErr result (Stops (S.left source.old) (S.left source.new) taken count Chunk) }
    ensures cause { IsCause (is_read_fault result) (S.faults source.old) (S.faults source.new) }
{
    let mut left = count;
    let mut at = taken;
    while left > 0 {
        let piece = left.min(512);
        match skip_some(source, at, piece as usize) {
            Ok(next) => at = next,
            Err(refusal) => return Err(refusal),
        }
        left -= piece;
    }
    Ok(at)
}
