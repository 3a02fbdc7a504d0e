//! What the `fmt ` chunk of a WAVE file says.
ghost use Rattle.std.specs.Prelude.{◌≡◌, ◌+◌, ◌≤◌, false, min, length};
ghost use Rattle.mlp_pcm.specs.WaveHeader.{padded, extensible};
ghost use Rattle.mlp_pcm.specs.WaveFormat.{judged, depth_of, bits_of, number_at, too_small, pcm, wrong_bits, aligned, described};

use crate::samples::behind;
use byteorder::{ByteOrder, LittleEndian};
use mlp_syntax::WaveField;

/// The samples that a `fmt ` chunk describes.
#[derive(Clone, Copy, Debug, PartialEq, Eq)]
pub struct Format {
    pub channels: u16,
    pub rate: u32,
    pub depth: u8,
    pub width: u8,
}

/// The identifier of PCM in an extensible format.
const PCM: [u8; 16] = [
    0x01, 0x00, 0x00, 0x00, 0x00, 0x00, 0x10, 0x00, 0x80, 0x00, 0x00, 0xAA, 0x00, 0x38, 0x9B, 0x71,
];

/// The depth where samples of these bits have so many bytes, or 0 where there are no such samples.
fn depth(width: u16, bits: u16) -> u8
    ensures { result ≡ depth_of width bits }
{
    match (width, bits) {
        (2, 16) => 16,
        (3, 20) => 20,
        (3, 24) => 24,
        _ => 0,
    }
}

/// Whether the size is below that of such a chunk.
#[tactic(auto, unfolding(crate::specs::WaveFormat::too_small))]
fn is_too_small(size: u32, content: &[u8]) -> bool
    requires { length content.now ≡ min (padded size) 40 }
    ensures is { result ≡ too_small size content.now }
    ensures long { result ≡ false → 16 ≤ length content.now }
    ensures longer { result ≡ false → number_at 2 0 content.now ≡ extensible → 40 ≤ length content.now }
{
    if size < 16 {
        return true;
    }
    LittleEndian::read_u16(content) == 0xFFFE && size < 40
}

/// Whether the samples are PCM.
#[tactic(auto, unfolding(crate::specs::WaveFormat::pcm))]
fn is_pcm(content: &[u8]) -> bool
    requires length { 16 ≤ length content.now }
    requires extensible { number_at 2 0 content.now ≡ extensible → 40 ≤ length content.now }
    ensures { result ≡ pcm content.now }
{
    let tag = LittleEndian::read_u16(content);
    if tag == 1 {
        return true;
    }
    if tag != 0xFFFE {
        return false;
    }
    behind(content, 24).starts_with(&PCM)
}

/// The bits of a sample that count.
#[tactic(auto, unfolding(crate::specs::WaveFormat::bits_of))]
fn bits_that_count(content: &[u8]) -> u16
    requires length { 16 ≤ length content.now }
    requires extensible { number_at 2 0 content.now ≡ extensible → 40 ≤ length content.now }
    ensures { result ≡ bits_of content.now }
{
    if LittleEndian::read_u16(content) == 0xFFFE {
        let valid = LittleEndian::read_u16(&content[18..]);
        if valid != 0 {
            return valid;
        }
    }
    LittleEndian::read_u16(&content[14..])
}

/// Whether a sample has no bits, or more than 32.
#[tactic(auto, unfolding(crate::specs::WaveFormat::wrong_bits))]
fn has_wrong_bits(content: &[u8]) -> bool
    requires { 16 ≤ length content.now }
    ensures is { result ≡ wrong_bits content.now }
    ensures most { result ≡ false → number_at 2 14 content.now ≤ 32 }
{
    let bits = LittleEndian::read_u16(&content[14..]);
    bits == 0 || bits > 32
}

/// Whether the block align is that of the channels and bits.
#[tactic(auto, unfolding(crate::specs::WaveFormat::aligned))]
fn is_aligned(content: &[u8]) -> bool
    requires { 16 ≤ length content.now }
    ensures { result ≡ aligned content.now }
{
    let align = u64::from(LittleEndian::read_u16(&content[12..]));
    let channels = u64::from(LittleEndian::read_u16(&content[2..]));
    let width = u64::from(LittleEndian::read_u16(&content[14..]).div_ceil(8));
    align == channels * width
}

/// The samples that a chunk describes.
#[tactic(auto, unfolding(crate::specs::WaveFormat::described))]
fn describe(content: &[u8]) -> Format
    requires length { 16 ≤ length content.now }
    requires extensible { number_at 2 0 content.now ≡ extensible → 40 ≤ length content.now }
    requires bits { number_at 2 14 content.now ≤ 32 }
    ensures { result ≡ described content.now }
{
    let width = LittleEndian::read_u16(&content[14..]).div_ceil(8);
    Format {
        channels: LittleEndian::read_u16(&content[2..]),
        rate: LittleEndian::read_u32(&content[4..]),
        depth: depth(width, bits_that_count(content)),
        width: width as u8,
    }
}

/// Reads a `fmt ` chunk of a size by its first bytes.
#[tactic(auto, unfolding(crate::specs::WaveFormat::judged))]
pub fn judge(size: u32, content: &[u8]) -> Result<Format, WaveField>
    requires { length content.now ≡ min (padded size) 40 }
    ensures { result ≡ judged size content.now }
{
    if is_too_small(size, content) {
        return Err(WaveField::FmtSize);
    }
    if !is_pcm(content) {
        return Err(WaveField::Tag);
    }
    if has_wrong_bits(content) {
        return Err(WaveField::Bits);
    }
    if !is_aligned(content) {
        return Err(WaveField::Align);
    }
    Ok(describe(content))
}
