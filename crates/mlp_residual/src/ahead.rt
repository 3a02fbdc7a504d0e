//! Reading codes whose bits are all there, several from one word.
ghost use Rattle.std.specs.Prelude.{◌≡◌, true, ℕ, ◌+◌, ◌*◌, ◌-◌, ◌/◌, ◌<◌, ◌≤◌, [], Ok, Err, All, Bool, List, IfOk, MatchOption, MatchResult, length, map};
ghost use Rattle.mlp_bits.specs.Bits.{bits_of};
ghost use Rattle.mlp_layout.specs.Reading.{broken};
ghost use Rattle.mlp_books.specs.Books.{longest_in};
ghost use Rattle.mlp_syntax.specs.declared.fault.Field.TheVariants as rule;
ghost use Rattle.mlp_residual.specs.Lookups.{channel_of, most_of, most_in, bits_for, codes_looked_up, IsLookup, IsWindow, Planned, HasRoom, AreLookups};
ghost use Rattle.mlp_residual.specs.Frames.{code, IsCoded};

use crate::frames::ChannelCode;
use arrayvec::ArrayVec;
use mlp_bits::word_at;
use mlp_books::{NO_CODE, meanings};
use mlp_layout::broken;
use mlp_syntax::{Broken, Code, Field};

/// How the codes of a channel are looked up.
#[derive(Clone, Copy, Debug, Default, PartialEq, Eq)]
pub(crate) struct Lookup {
    /// Where what nine bits say of the channel's book begins.
    pub(crate) table_start: u32,
    /// The number of low bits.
    pub(crate) low: u32,
    /// Ones in the places of the low bits.
    pub(crate) mask: u32,
    /// Whether the window may have too few bits left for the code, and is taken anew.
    pub(crate) reload: bool,
}

/// How the codes of the channels of a frame are looked up.
#[derive(Clone, Debug, Default, PartialEq, Eq, Drop)]
pub(crate) struct Lookups {
    pub(crate) channels: ArrayVec<Lookup, 8>,
    /// How many bits the codes of a frame take at most.
    pub(crate) most: u32,
    /// How many bits there must be for a frame, so that no window passes the last of them.
    pub(crate) room: u32,
}

/// How many bits a code of a channel takes at most.
fn most_of(channel: ChannelCode) -> u32
    requires coded { IsCoded channel }
    ensures value { result ≡ longest_in channel.book + channel.low }
    ensures most { result ≤ 40 }
{
    if channel.book == 0 {
        u32::from(channel.low)
    } else {
        9 + u32::from(channel.low)
    }
}

/// How the codes of a channel are looked up, where so many bits of the window are left.
fn lookup_of(channel: ChannelCode, left: u32) -> Lookup
    requires coded { IsCoded channel }
    requires few { left ≤ 57 }
    ensures channel { channel_of result ≡ channel }
    ensures looked_up { IsLookup result }
    ensures enough { most_of result ≤ bits_for result left }
{
    let low = u32::from(channel.low);
    Lookup {
        table_start: 512 * u32::from(channel.book),
        low,
        mask: (1 << low) - 1,
        reload: left < most_of(channel),
    }
}

/// How many bits of the window are left behind a code, at least.
fn left_behind(channel: ChannelCode, lookup: Lookup, left: u32) -> u32
    requires coded { IsCoded channel }
    requires channel { channel_of lookup ≡ channel }
    requires few { left ≤ 57 }
    requires enough { most_of lookup ≤ bits_for lookup left }
    ensures value { result ≡ bits_for lookup left - most_of lookup }
    ensures few { result ≤ 57 }
{
    let here = if lookup.reload { 57 } else { left };
    here - most_of(channel)
}

/// How many bits there must be for a frame of at most so many, of which some windows are taken anew or none.
fn room_of(most: u32, reload: bool) -> u32
    requires { most ≤ 320 }
    ensures codes { most ≤ result }
    ensures first { 64 ≤ result }
    ensures others { reload ≡ true → most + 64 ≤ result }
    ensures small { result ≤ 384 }
{
    if reload { most + 64 } else { most.max(64) }
}

/// How the codes of the channels of a frame are looked up, from one window, or from several where one
/// may not be enough.
pub(crate) fn lookups_of(channels: &[ChannelCode]) -> Lookups
    requires coded { All IsCoded channels.now }
    requires count { length channels.now ≤ 8 }
    ensures { AreLookups channels.now result }
{
    let mut lookups = ArrayVec::new();
    let mut left = 57;
    let mut most = 0;
    let mut reload = false;
    for channel in channels {
        let lookup = lookup_of(*channel, left);
        left = left_behind(*channel, lookup, left);
        most += most_of(*channel);
        reload = reload || lookup.reload;
        lookups.push(lookup);
    }
    Lookups {
        channels: lookups,
        most,
        room: room_of(most, reload),
    }
}

/// The window from a place on, behind which there are eight bytes.
#[inline]
fn window_at(bytes: &[u8], place: u32) -> u64
    requires { place + 64 ≤ 8 * length bytes.now }
    ensures { IsWindow result 57 (bits_of bytes.now) place }
{
    word_at(bytes, place as usize / 8) << (place % 8)
}

/// The window from a place on, with all bits that are left where there are fewer.
#[inline]
fn window_near_end(bytes: &[u8], place: u32) -> u64
    requires place { place < 8 * length bytes.now }
    requires eight { 8 ≤ length bytes.now }
    ensures { (count : ℕ) → count ≤ 57 → place + count ≤ 8 * length bytes.now →
        IsWindow result count (bits_of bytes.now) place }
{
    let at = (place as usize / 8).min(bytes.len() - 8);
    word_at(bytes, at) << (place as usize - 8 * at)
}

/// The window for a code: the one that there is, or a new one.
#[inline]
fn window_for(lookup: Lookup, window: u64, bytes: &[u8], place: u32) -> u64
    requires { lookup.reload ≡ true → place + 64 ≤ 8 * length bytes.now }
    ensures { (left : ℕ) → IsWindow window left (bits_of bytes.now) place →
        IsWindow result (bits_for lookup left) (bits_of bytes.now) place }
{
    if lookup.reload {
        window_at(bytes, place)
    } else {
        window
    }
}

/// The code at the front of a window, the window behind it, and how many bits it takes. Where there is
/// none, nine bits are no code there.
#[inline]
fn code_ahead(lookup: Lookup, window: u64, out: &mut Code) -> Option<(u64, u32)>
    requires looked_up { IsLookup lookup }
    ensures read { (left place : ℕ) (all : List Bool) → IsWindow window left all place →
        most_of lookup ≤ left → place + most_of lookup ≤ length all → MatchOption result
        ((code (channel_of lookup)).read all place ≡ Err (broken rule.Code place))
        (λ x. ((code (channel_of lookup)).read all place ≡ Ok (out.new, place + x.1)) ×
        IsWindow x.0 (left - most_of lookup) all (place + x.1) × (x.1 ≤ most_of lookup)) }
{
    let nine = (window >> 55) as u32;
    let meaning = meanings()[(lookup.table_start + nine) as usize];
    if meaning == NO_CODE {
        return None;
    }
    let taken = u32::from(meaning % 256) + lookup.low;
    let behind = window.rotate_left(taken);
    out.symbol = (meaning / 256) as u8;
    out.low = (behind % (1 << 32)) as u32 & lookup.mask;
    Some((behind, taken))
}

/// The codes of the channels from a place on, and the place behind them.
#[inline]
pub(crate) fn codes_ahead(
    lookups: &[Lookup],
    room: u32,
    bytes: &[u8],
    place: u32,
    codes: &mut [Code],
) -> Result<u32, Broken>
    requires looked_up { All IsLookup lookups.now }
    requires planned { Planned 57 lookups.now }
    requires enough { HasRoom room lookups.now }
    requires same { length codes.old ≡ length lookups.now }
    requires room { place + room ≤ 8 * length bytes.now }
    requires short { length bytes.now ≤ 8190 }
    ensures read { MatchResult result
        (λ end. (codes_looked_up lookups.now).read (bits_of bytes.now) place ≡ Ok (codes.new, end))
        (λ e. (codes_looked_up lookups.now).read (bits_of bytes.now) place ≡ Err e) }
    ensures behind { IfOk result (λ end. (place ≤ end) × (end ≤ place + most_in lookups.now)) }
{
    let mut window = window_at(bytes, place);
    let mut end = place;
    for i in 0..lookups.len() {
        let lookup = lookups[i];
        window = window_for(lookup, window, bytes, end);
        match code_ahead(lookup, window, &mut codes[i]) {
            Some((behind, taken)) => {
                window = behind;
                end += taken;
            }
            None => return Err(broken(Field::Code, end)),
        }
    }
    Ok(end)
}

/// The same near the end of the bytes: each code has a window of its own.
pub(crate) fn codes_near_end(
    lookups: &[Lookup],
    bytes: &[u8],
    place: u32,
    codes: &mut [Code],
) -> Result<u32, Broken>
    requires looked_up { All IsLookup lookups.now }
    requires same { length codes.old ≡ length lookups.now }
    requires room { place + most_in lookups.now < 8 * length bytes.now }
    requires eight { 8 ≤ length bytes.now }
    requires short { length bytes.now ≤ 8190 }
    ensures read { MatchResult result
        (λ end. (codes_looked_up lookups.now).read (bits_of bytes.now) place ≡ Ok (codes.new, end))
        (λ e. (codes_looked_up lookups.now).read (bits_of bytes.now) place ≡ Err e) }
    ensures behind { IfOk result (λ end. (place ≤ end) × (end ≤ place + most_in lookups.now)) }
{
    let mut end = place;
    for i in 0..lookups.len() {
        let lookup = lookups[i];
        let window = window_near_end(bytes, end);
        match code_ahead(lookup, window, &mut codes[i]) {
            Some((_behind, taken)) => end += taken,
            None => return Err(broken(Field::Code, end)),
        }
    }
    Ok(end)
}
