//! Reading the frames of a block.
ghost use Rattle.std.specs.Prelude.{◌≡◌, ◌+◌, ◌*◌, ◌≤◌, ◌<◌, ◌^◌, [], Ok, All, IfOk, OnOk, Err, MatchResult, length, map, take, drop, slice_index_or, false, if◌then◌else◌};
ghost use Rattle.arrayvec.specs.ArrayVec.{array_vec_len};
ghost use Rattle.mlp_syntax.specs.declared.segment.FrameCode.{FrameCode};
ghost use Rattle.mlp_layout.specs.Layout.{Layout, made, part};
ghost use Rattle.mlp_layout.specs.Combined.{flag, chosen, series};
ghost use Rattle.mlp_layout.specs.Reading.{Gives};
ghost use Rattle.mlp_books.specs.Books.{symbol_in};
ghost use Rattle.mlp_residual.specs.Lookups.{AreLookups};
ghost use Rattle.mlp_residual.specs.Frames.{bypass_bits, code, codes_in, frame, coded_frames, IsCoded, GivesBehind};

use crate::ahead::{Lookups, codes_near_end, lookups_of};
use crate::runs::frames_ahead;
use arrayvec::ArrayVec;
use mlp_bits::BitReader;
use mlp_books::symbol_in;
use mlp_layout::{flag, number};
use mlp_syntax::{Broken, Code, FrameCode};

/// How a channel is coded.
#[derive(Clone, Copy, Debug, Default, PartialEq, Eq)]
pub struct ChannelCode {
    /// The codebook, 0 to 3; 0 is none.
    pub book: u8,
    /// The number of low bits behind a symbol: those in force above the quantisation step, at most 31.
    pub low: u8,
}

/// How the frames of a block are coded. It is all of the parameters in force that their bits depend on.
#[derive(Clone, Debug, Default, PartialEq, Eq, Drop)]
pub struct Coding {
    /// Which matrices have a bypass bit.
    pub bypass: ArrayVec<bool, 8>,
    /// The channels from the least to the greatest.
    pub channels: ArrayVec<ChannelCode, 8>,
}

/// A bit where there is one, else 0.
#[tactic(auto, unfolding(mlp_layout::specs::Layout::made, mlp_layout::specs::Combined::chosen))]
fn bit_if(there: bool, r: &mut BitReader) -> Result<bool, Broken>
    ensures { Gives (λ b. b) r.old r.new result ((chosen there flag (made false)).read r.old.all r.old.place) }
{
    if !there {
        return Ok(false);
    }
    flag(r)
}

/// With the bit of a matrix, behind those of the matrices before it.
fn with_bit(bypass: u8, i: u32, bit: bool) -> u8
    requires place { i < 8 }
    requires small { bypass < 2 ^ i }
    ensures value { result ≡ bypass + (if bit then 2 ^ i else 0) }
    ensures small { result < 2 ^ (i + 1) }
{
    if bit { bypass + (1 << i) } else { bypass }
}

/// The bypass bits of the matrices that have one.
fn read_bypass(rows: &[bool], r: &mut BitReader) -> Result<u8, Broken>
    requires { length rows.now ≤ 8 }
    ensures { Gives (λ n. n) r.old r.new result ((bypass_bits rows.now).read r.old.all r.old.place) }
{
    let mut bypass = 0;
    for i in 0..rows.len() {
        let bit = bit_if(rows[i], r)?;
        bypass = with_bit(bypass, i as u32, bit);
    }
    Ok(bypass)
}

/// The code of a channel.
#[inline]
#[tactic(auto, unfolding(mlp_layout::specs::Layout::part, mlp_layout::specs::Layout::made, crate::specs::Frames::code))]
fn read_code(channel: ChannelCode, r: &mut BitReader) -> Result<Code, Broken>
    requires { IsCoded channel }
    ensures { Gives (λ x. x) r.old r.new result ((code channel).read r.old.all r.old.place) }
{
    let symbol = symbol_in(channel.book, r)?;
    let low = number(u32::from(channel.low), r)?;
    Ok(Code { symbol, low })
}

/// The codes of the channels, field by field.
fn codes_by_fields(
    channels: &[ChannelCode],
    r: &mut BitReader,
    codes: &mut [Code],
) -> Result<(), Broken>
    requires coded { All IsCoded channels.now }
    requires same { length codes.old ≡ length channels.now }
    ensures { Gives (λ _. codes.new) r.old r.new result ((codes_in channels.now).read r.old.all r.old.place) }
{
    for i in 0..channels.len() {
        codes[i] = read_code(channels[i], r)?;
    }
    Ok(())
}

/// The codes of the channels, from words unless the bits that are left may not be enough.
#[inline]
fn read_codes(
    channels: &[ChannelCode],
    lookups: &Lookups,
    r: &mut BitReader,
    codes: &mut [Code],
) -> Result<(), Broken>
    requires coded { All IsCoded channels.now }
    requires lookups { AreLookups channels.now lookups.now }
    requires same { length codes.old ≡ length channels.now }
    ensures { Gives (λ _. codes.new) r.old r.new result ((codes_in channels.now).read r.old.all r.old.place) }
{
    let place = r.place();
    let bytes = r.bytes();
    if bytes.len() < 8 {
        return codes_by_fields(channels, r, codes);
    }
    if place as usize + lookups.most as usize >= bytes.len() * 8 {
        return codes_by_fields(channels, r, codes);
    }
    let end = codes_near_end(&lookups.channels, bytes, place, codes)?;
    r.skip(end - place);
    Ok(())
}

/// Makes room for so many codes, whatever they are.
fn make_room(count: usize, codes: &mut ArrayVec<Code, 8>)
    requires { count ≤ 8 }
    ensures { length codes.new.items ≡ count }
{
    codes.truncate(count);
    for _ in codes.len()..count {
        codes.push(Code { symbol: 0, low: 0 });
    }
}

/// Makes room for so many codes in each frame.
#[cold]
#[inline(never)]
fn make_room_in_all(count: usize, frames: &mut [FrameCode])
    requires { count ≤ 8 }
    ensures { All (λ frame. array_vec_len frame.codes ≡ count) frames.new }
{
    for i in 0..frames.len() {
        make_room(count, &mut frames[i].codes);
    }
}

/// Makes room for so many codes in each frame, unless there is in the first: frames that were read together have as
/// many.
fn make_room_by_first(count: usize, frames: &mut [FrameCode])
    requires { count ≤ 8 }
    ensures { (other : FrameCode) → 0 < length frames.new →
        array_vec_len (slice_index_or frames.new 0 other).codes ≡ count }
{
    if let Some(first) = frames.first() {
        if first.codes.len() != count {
            make_room_in_all(count, frames);
        }
    }
}

/// One frame, in place of another.
#[tactic(auto, unfolding(mlp_layout::specs::Layout::part, mlp_layout::specs::Layout::made, crate::specs::Frames::frame))]
fn read_frame(
    coding: &Coding,
    lookups: &Lookups,
    r: &mut BitReader,
    out: &mut FrameCode,
) -> Result<(), Broken>
    requires coded { All IsCoded coding.now.channels.items }
    requires lookups { AreLookups coding.now.channels.items lookups.now }
    ensures { Gives (λ _. out.new) r.old r.new result ((frame coding.now).read r.old.all r.old.place) }
{
    if out.codes.len() != coding.channels.len() {
        make_room(coding.channels.len(), &mut out.codes);
    }
    out.bypass = read_bypass(&coding.bypass, r)?;
    read_codes(&coding.channels, lookups, r, out.codes.as_mut_slice())
}

/// Some of the frames, at least one, in place of others: how many.
fn read_some(
    coding: &Coding,
    lookups: &Lookups,
    r: &mut BitReader,
    out: &mut [FrameCode],
) -> Result<usize, Broken>
    requires coded { All IsCoded coding.now.channels.items }
    requires lookups { AreLookups coding.now.channels.items lookups.now }
    requires some { 0 < length out.old }
    ensures some { IfOk result (λ n. (0 < n) × (n ≤ length out.old)) }
    ensures moved { OnOk result ((r.new.all ≡ r.old.all) × (r.old.place ≤ r.new.place)) }
    ensures read { MatchResult result
        (λ n. (coded_frames coding.now n).read r.old.all r.old.place ≡ Ok (take n out.new, r.new.place))
        (λ e. (coded_frames coding.now (length out.old)).read r.old.all r.old.place ≡ Err e) }
{
    let place = r.place();
    let (count, end) = frames_ahead(coding, lookups, r.bytes(), place, out)?;
    if count > 0 {
        r.skip(end - place);
        return Ok(count);
    }
    read_frame(coding, lookups, r, &mut out[0])?;
    Ok(1)
}

/// The frames, in place of as many others.
fn read_over(coding: &Coding, r: &mut BitReader, out: &mut [FrameCode]) -> Result<(), Broken>
    requires coded { All IsCoded coding.now.channels.items }
    ensures { Gives (λ _. out.new) r.old r.new result
        ((coded_frames coding.now (length out.old)).read r.old.all r.old.place) }
{
    let lookups = lookups_of(&coding.channels);
    make_room_by_first(coding.channels.len(), out);
    let mut done = 0;
    while done < out.len() {
        done += read_some(coding, &lookups, r, &mut out[done..])?;
    }
    Ok(())
}

/// Appends blank frames until there are so many.
fn fill_up(count: usize, out: &mut ArrayVec<FrameCode, 160>)
    requires { count ≤ 160 }
    ensures kept { take (length out.old.items) out.new.items ≡ out.old.items }
    ensures enough { count ≤ length out.new.items }
    ensures rest { drop count out.new.items ≡ drop count out.old.items }
{
    while out.len() < count {
        out.push(FrameCode::default());
    }
}

/// Reads so many frames behind the first `first` of those in `out`, in place of others or appended to them.
///
/// # Errors
///
/// `Code` or `SegmentShort` at the first place that has a fault; what stands behind the first `first` is of no use
/// then.
pub fn read_coded(
    coding: &Coding,
    first: usize,
    frames: u16,
    r: &mut BitReader,
    out: &mut ArrayVec<FrameCode, 160>,
) -> Result<(), Broken>
    requires coded { All IsCoded coding.now.channels.items }
    requires first { first ≤ array_vec_len out.old }
    requires room { first + frames ≤ 160 }
    ensures enough { first + frames ≤ array_vec_len out.new }
    ensures rest { drop (first + frames) out.new.items ≡ drop (first + frames) out.old.items }
    ensures read { GivesBehind (take first out.old.items) (take (first + frames) out.new.items) r.old r.new result
        ((coded_frames coding.now frames).read r.old.all r.old.place) }
{
    let end = first + usize::from(frames);
    fill_up(end, out);
    read_over(coding, r, &mut out.as_mut_slice()[first..end])
}
