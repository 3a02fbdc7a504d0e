//! Raw PCM: frames one after the other, channels in order, samples little-endian and signed.
ghost use Rattle.std.specs.Prelude.{◌≡◌, ◌⊎◌, ◌++◌, ◌∷◌, ◌+◌, ◌*◌, ◌%◌, ◌/◌, ◌^◌, ◌≤◌, ◌<◌, ◌&&◌, ◌==◌, not, take, drop, length, IfErr, OnOk, OnErr, IsTrue, []};
ghost use Rattle.std.specs.List.{list_all, flat_map};
ghost use Rattle.arrayvec.specs.ArrayVec.{array_vec_len};
ghost use Rattle.mlp_pcm.specs.Samples.{sample_in, row_in, is_clear, are_clear, IsFirstFailing, AreUnpacked, AreUnpackedTo, IsForm, sample_bytes, packed, is_packable, Packs};

use arrayvec::ArrayVec;
use byteorder::{ByteOrder, LittleEndian};
use mlp_syntax::{Frames, UnitBytes};

/// The sample in the first bytes, as one of 24 bits.
#[inline(always)]
#[tactic(auto, unfolding(crate::specs::Samples::sample_in))]
fn sample(bytes: &[u8], width: u8) -> i32
    requires bytes { width ≤ length bytes.now }
    requires width { (width ≡ 2) ⊎ (width ≡ 3) }
    ensures { result ≡ sample_in width bytes.now }
{
    if width == 2 {
        i32::from(LittleEndian::read_i16(bytes)) * 256
    } else {
        i32::from(LittleEndian::read_i16(&bytes[1..])) * 256 + i32::from(bytes[0])
    }
}

/// The bytes behind the first ones.
pub(crate) fn behind(bytes: &[u8], size: usize) -> &[u8]
    requires { size ≤ length bytes.now }
    ensures { result.now ≡ drop size bytes.now }
{
    &bytes[size..]
}

/// The samples of a frame, and 0 in the other places.
#[inline(always)]
fn row(bytes: &[u8], width: u8, channels: u8) -> [i32; 8]
    requires bytes { channels * width ≤ length bytes.now }
    requires width { (width ≡ 2) ⊎ (width ≡ 3) }
    requires channels { channels ≤ 8 }
    ensures { result ≡ row_in width channels bytes.now }
{
    let mut row = [0; 8];
    let mut rest = bytes;
    for channel in 0..channels as usize {
        row[channel] = sample(rest, width);
        rest = behind(rest, width as usize);
    }
    row
}

/// Whether a sample's low bits are 0 that its depth doesn't have.
#[tactic(auto, unfolding(crate::specs::Samples::is_clear))]
fn clear(sample: i32, depth: u8) -> bool
    requires { depth ≤ 24 }
    ensures { result ≡ is_clear depth sample }
{
    i64::from(sample).cast_unsigned() % (1 << (24 - depth)) == 0
}

/// Whether that holds of all samples.
#[inline(always)]
fn all_clear(samples: &[i32], depth: u8) -> bool
    requires { depth ≤ 24 }
    ensures { result ≡ are_clear depth samples.now }
{
    samples.iter().all(|sample| clear(*sample, depth))
}

/// Makes so many rows.
#[inline(never)]
fn resize(count: usize, rows: &mut ArrayVec<[i32; 8], 160>)
    requires { count ≤ 160 }
    ensures { array_vec_len rows.new ≡ count }
{
    rows.truncate(count);
    while rows.len() < count {
        rows.push([0; 8]);
    }
}

/// Puts a row over the one at a place.
#[inline(always)]
fn put_row(row: [i32; 8], place: usize, rows: &mut ArrayVec<[i32; 8], 160>)
    requires { place < array_vec_len rows.old }
    ensures front { take (place + 1) rows.new.items ≡ take place rows.old.items ++ row ∷ [] }
    ensures length { array_vec_len rows.new ≡ array_vec_len rows.old }
{
    let there = rows.as_mut_slice();
    there[place] = row;
}

/// Replaces the rows of `out` by the frames of these bytes,
/// up to the first that has a sample whose low bits aren't 0.
#[inline(always)]
#[tactic(auto, unfolding(crate::specs::Samples::pieces))]
fn unpack_frames(
    bytes: &[u8],
    width: u8,
    depth: u8,
    channels: u8,
    out: &mut Frames,
) -> Result<(), u32>
    requires form { IsForm width depth }
    requires channels { (1 ≤ channels) × (channels ≤ 8) }
    requires few { length bytes.now / (channels * width) ≤ 160 }
    ensures channels { out.new.channels ≡ out.old.channels }
    ensures ok { OnOk result (AreUnpacked width depth channels bytes.now out.new.rows.items) }
    ensures err { IfErr result (AreUnpackedTo width depth channels bytes.now out.new.rows.items) }
{
    let size = channels as usize * width as usize;
    let count = bytes.len() / size;
    resize(count, &mut out.rows);
    let mut rest = bytes;
    for frame in 0..count {
        let row = row(rest, width, channels);
        if !all_clear(&row, depth) {
            out.rows.truncate(frame);
            return Err(frame as u32);
        }
        put_row(row, frame, &mut out.rows);
        rest = behind(rest, size);
    }
    Ok(())
}

/// The same, with a loop of its own for each number of channels.
#[inline(always)]
fn unpack_channels(
    bytes: &[u8],
    width: u8,
    depth: u8,
    channels: u8,
    out: &mut Frames,
) -> Result<(), u32>
    requires form { IsForm width depth }
    requires channels { (1 ≤ channels) × (channels ≤ 8) }
    requires few { length bytes.now / (channels * width) ≤ 160 }
    ensures channels { out.new.channels ≡ out.old.channels }
    ensures ok { OnOk result (AreUnpacked width depth channels bytes.now out.new.rows.items) }
    ensures err { IfErr result (AreUnpackedTo width depth channels bytes.now out.new.rows.items) }
{
    match channels {
        1 => unpack_frames(bytes, width, depth, 1, out),
        2 => unpack_frames(bytes, width, depth, 2, out),
        3 => unpack_frames(bytes, width, depth, 3, out),
        4 => unpack_frames(bytes, width, depth, 4, out),
        5 => unpack_frames(bytes, width, depth, 5, out),
        6 => unpack_frames(bytes, width, depth, 6, out),
        7 => unpack_frames(bytes, width, depth, 7, out),
        _ => unpack_frames(bytes, width, depth, 8, out),
    }
}

/// Replaces `out` by the frames of these bytes, which have whole frames of 1 to 8 channels, at most 160. A sample has 2
/// bytes at depth 16, and 3 bytes at depths 20 and 24.
///
/// # Errors
///
/// The number of the first frame that has a sample whose low bits, which its depth doesn't have, are not 0. `out` then
/// has the frames before it.
pub fn unpack(bytes: &[u8], width: u8, depth: u8, channels: u8, out: &mut Frames) -> Result<(), u32>
    requires form { IsForm width depth }
    requires channels { (1 ≤ channels) × (channels ≤ 8) }
    requires whole { length bytes.now % (channels * width) ≡ 0 }
    requires few { length bytes.now / (channels * width) ≤ 160 }
    ensures channels { out.new.channels ≡ channels }
    ensures ok { OnOk result (AreUnpacked width depth channels bytes.now out.new.rows.items) }
    ensures err { IfErr result (AreUnpackedTo width depth channels bytes.now out.new.rows.items) }
{
    out.channels = channels;
    match (width, depth) {
        (2, _) => unpack_channels(bytes, 2, 16, channels, out),
        (_, 20) => unpack_channels(bytes, 3, 20, channels, out),
        _ => unpack_channels(bytes, 3, 24, channels, out),
    }
}

/// Writes a sample's bytes from a place on, and says where they end.
#[inline]
#[tactic(auto, unfolding(crate::specs::Samples::sample_bytes))]
fn put_sample(sample: i32, bits: u8, place: usize, out: &mut [u8]) -> usize
    requires { place + 3 ≤ length out.old }
    ensures bytes { take result out.new ≡ take place out.old ++ sample_bytes bits sample }
    ensures most { (place ≤ result) × (result ≤ place + 3) }
    ensures length { length out.new ≡ length out.old }
{
    let mut piece = [0; 3];
    LittleEndian::write_i24(&mut piece, sample);
    if bits == 16 {
        out[place] = piece[1];
        out[place + 1] = piece[2];
        return place + 2;
    }
    out[place..place + 3].copy_from_slice(&piece);
    place + 3
}

/// Writes the bytes of all samples from a place on, and says where they end, and whether their low bits are 0.
#[inline]
fn put_samples(samples: &[i32], bits: u8, place: usize, out: &mut [u8]) -> (usize, bool)
    requires bits { bits ≤ 24 }
    requires room { place + 3 * length samples.now ≤ length out.old }
    ensures bytes { take result.0 out.new ≡ take place out.old ++ flat_map (sample_bytes bits) samples.now }
    ensures clear { result.1 ≡ are_clear bits samples.now }
    ensures most { result.0 ≤ place + 3 * length samples.now }
    ensures length { length out.new ≡ length out.old }
{
    let mut end = place;
    let mut all_clear = true;
    for sample in samples {
        end = put_sample(*sample, bits, end, out);
        all_clear &= clear(*sample, bits);
    }
    (end, all_clear)
}

/// Puts the bytes of these frames into `out`, which has none, or leaves it where a frame has a sample whose low byte
/// isn't 0. They are gathered in `bytes`.
#[inline]
#[tactic(auto, using(crate::proofs::Pieces::one_more_fits))]
fn pack_frames<const N: usize>(
    frames: &[[i32; 8]],
    channels: u8,
    bits: u8,
    bytes: &mut [u8],
    out: &mut ArrayVec<u8, N>,
) -> Result<(), u32>
    requires bits { (bits ≡ 16) ⊎ (bits ≡ 24) }
    requires channels { channels ≤ 8 }
    requires few { length frames.now ≤ 160 }
    requires room { length frames.now * (3 * channels) ≤ length bytes.old }
    requires most { length bytes.old ≤ N }
    requires empty { out.old.items ≡ [] }
    ensures ok { OnOk result (out.new.items ≡ packed bits channels frames.now) }
    ensures clear { OnOk result (IsTrue (list_all (is_packable bits channels) frames.now)) }
    ensures first { IfErr result (IsFirstFailing (is_packable bits channels) frames.now) }
    ensures none { OnErr result (out.new.items ≡ []) }
{
    let mut end = 0;
    for index in 0..frames.len() {
        let samples = &frames[index][..channels as usize];
        let (next, all_clear) = put_samples(samples, bits, end, bytes);
        if !all_clear {
            return Err(index as u32);
        }
        end = next;
    }
    // There is room for all of them.
    let _ = out.try_extend_from_slice(&bytes[..end]);
    Ok(())
}

/// The same of two channels. Short arrays are cheaper to clear.
#[inline]
fn pack_pairs<const N: usize>(
    frames: &[[i32; 8]],
    bits: u8,
    out: &mut ArrayVec<u8, N>,
) -> Result<(), u32>
    requires bits { (bits ≡ 16) ⊎ (bits ≡ 24) }
    requires few { length frames.now ≤ 160 }
    requires room { 3840 ≤ N }
    requires empty { out.old.items ≡ [] }
    ensures { Packs bits 2 frames.now out.new.items result }
{
    if frames.len() <= 40 {
        return pack_frames(frames, 2, bits, &mut [0; 240], out);
    }
    pack_frames(frames, 2, bits, &mut [0; 960], out)
}

/// The same, with a loop of its own for two channels.
#[inline]
#[tactic(auto, using(crate::proofs::Pieces::all_fit))]
fn pack_channels<const N: usize>(
    frames: &[[i32; 8]],
    channels: u8,
    bits: u8,
    out: &mut ArrayVec<u8, N>,
) -> Result<(), u32>
    requires bits { (bits ≡ 16) ⊎ (bits ≡ 24) }
    requires channels { channels ≤ 8 }
    requires few { length frames.now ≤ 160 }
    requires room { 3840 ≤ N }
    requires empty { out.old.items ≡ [] }
    ensures { Packs bits channels frames.now out.new.items result }
{
    if channels == 2 {
        return pack_pairs(frames, bits, out);
    }
    if frames.len() <= 80 {
        return pack_frames(frames, channels, bits, &mut [0; 1920], out);
    }
    pack_frames(frames, channels, bits, &mut [0; 3840], out)
}

/// The same, with loops of their own for both numbers of bits.
#[inline]
fn pack_bits<const N: usize>(
    frames: &[[i32; 8]],
    channels: u8,
    bits: u8,
    out: &mut ArrayVec<u8, N>,
) -> Result<(), u32>
    requires bits { (bits ≡ 16) ⊎ (bits ≡ 24) }
    requires channels { channels ≤ 8 }
    requires few { length frames.now ≤ 160 }
    requires room { 3840 ≤ N }
    ensures { Packs bits channels frames.now out.new.items result }
{
    out.clear();
    if bits == 16 {
        return pack_channels(frames, channels, 16, out);
    }
    pack_channels(frames, channels, 24, out)
}

/// Replaces `out` by the bytes of these frames: 3 bytes a sample, or the upper 2 where `bits` is 16.
///
/// # Errors
///
/// The number of the first frame that has a sample whose low byte isn't 0, where `bits` is 16. `out` is then empty.
pub fn pack(frames: &Frames, bits: u8, out: &mut ArrayVec<u8, 3840>) -> Result<(), u32>
    requires bits { (bits ≡ 16) ⊎ (bits ≡ 24) }
    requires channels { frames.now.channels ≤ 8 }
    ensures { Packs bits frames.now.channels frames.now.rows.items out.new.items result }
{
    pack_bits(frames.rows.as_slice(), frames.channels, bits, out)
}

/// The same of the first `channels` samples of each frame of a unit, into the bytes of a unit: 160 frames of 8 channels
/// are at most 3840 bytes.
///
/// # Errors
///
/// The number of the first frame that has a sample whose low byte isn't 0, where `bits` is 16. `out` is then empty.
pub fn pack_unit(
    frames: &[[i32; 8]],
    channels: u8,
    bits: u8,
    out: &mut UnitBytes,
) -> Result<(), u32>
    requires bits { (bits ≡ 16) ⊎ (bits ≡ 24) }
    requires channels { channels ≤ 8 }
    requires few { length frames.now ≤ 160 }
    ensures { Packs bits channels frames.now out.new.items result }
{
    pack_bits(frames, channels, bits, out)
}
