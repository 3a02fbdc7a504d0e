//! Reading frames one after the other from words.
ghost use Rattle.std.specs.Prelude.{◌≡◌, ◌↔◌, ◌+◌, ◌*◌, ◌≤◌, Ok, Err, All, IfOk, MatchResult, false, length, take};
ghost use Rattle.mlp_bits.specs.Bits.{bits_of};
ghost use Rattle.mlp_residual.specs.Lookups.{AreLookups};
ghost use Rattle.mlp_residual.specs.Frames.{coded_frames};

use crate::ahead::{Lookup, Lookups, codes_ahead};
use crate::frames::Coding;
use mlp_syntax::{Broken, FrameCode};

/// Whether some matrix has a bypass bit.
fn has_bypass(rows: &[bool]) -> bool
    ensures { result ≡ false ↔ All (λ bypass. bypass ≡ false) rows.now }
{
    rows.iter().any(|bypass| *bypass)
}

/// The lookups of N channels in an array, which the loop over the frames keeps in registers.
#[inline]
fn lookups_by_value<const N: usize>(lookups: &Lookups) -> [Lookup; N]
    requires { length lookups.now.channels.items ≡ N }
    ensures { result ≡ lookups.now.channels.items }
{
    let mut channels = [Lookup::default(); N];
    channels.copy_from_slice(&lookups.channels[..N]);
    channels
}

/// The frames of N channels, without bypass bits, up to one that is near the end of the bytes or stands where another
/// number of codes stood: how many, and the place behind them.
#[inline(never)]
fn frames_of_channels<const N: usize>(
    coding: &Coding,
    lookups: &Lookups,
    bytes: &[u8],
    place: u32,
    out: &mut [FrameCode],
) -> Result<(usize, u32), Broken>
    requires bypass { All (λ bypass. bypass ≡ false) coding.now.bypass.items }
    requires lookups { AreLookups coding.now.channels.items lookups.now }
    requires few { N ≤ 8 }
    requires count { length lookups.now.channels.items ≡ N }
    requires short { length bytes.now ≤ 8190 }
    requires room { place + lookups.now.room ≤ 8 * length bytes.now }
    ensures count { IfOk result (λ x. x.0 ≤ length out.old) }
    ensures behind { IfOk result (λ x. (place ≤ x.1) × (x.1 ≤ 8 * length bytes.now)) }
    ensures read { MatchResult result
        (λ x. (coded_frames coding.now x.0).read (bits_of bytes.now) place ≡ Ok (take x.0 out.new, x.1))
        (λ e. (coded_frames coding.now (length out.old)).read (bits_of bytes.now) place ≡ Err e) }
{
    let channels = lookups_by_value::<N>(lookups);
    let last = bytes.len() as u32 * 8 - lookups.room;
    let mut end = place;
    for i in 0..out.len() {
        if end > last {
            return Ok((i, end));
        }
        if out[i].codes.len() != N {
            return Ok((i, end));
        }
        let frame = &mut out[i];
        frame.bypass = 0;
        end = codes_ahead(
            &channels,
            lookups.room,
            bytes,
            end,
            frame.codes.as_mut_slice(),
        )?;
    }
    Ok((out.len(), end))
}

/// Frames without bypass bits, as many as can be read from words: how many, and the place behind them.
///
/// Each number of channels has a loop of its own, in which the channels stand one after the other.
pub(crate) fn frames_ahead(
    coding: &Coding,
    lookups: &Lookups,
    bytes: &[u8],
    place: u32,
    out: &mut [FrameCode],
) -> Result<(usize, u32), Broken>
    requires lookups { AreLookups coding.now.channels.items lookups.now }
    requires small { lookups.now.room ≤ 384 }
    requires short { length bytes.now ≤ 8190 }
    requires within { place ≤ 8 * length bytes.now }
    ensures count { IfOk result (λ x. x.0 ≤ length out.old) }
    ensures behind { IfOk result (λ x. (place ≤ x.1) × (x.1 ≤ 8 * length bytes.now)) }
    ensures read { MatchResult result
        (λ x. (coded_frames coding.now x.0).read (bits_of bytes.now) place ≡ Ok (take x.0 out.new, x.1))
        (λ e. (coded_frames coding.now (length out.old)).read (bits_of bytes.now) place ≡ Err e) }
{
    if place + lookups.room > bytes.len() as u32 * 8 {
        return Ok((0, place));
    }
    if has_bypass(&coding.bypass) {
        return Ok((0, place));
    }
    match lookups.channels.len() {
        1 => frames_of_channels::<1>(coding, lookups, bytes, place, out),
        2 => frames_of_channels::<2>(coding, lookups, bytes, place, out),
        3 => frames_of_channels::<3>(coding, lookups, bytes, place, out),
        4 => frames_of_channels::<4>(coding, lookups, bytes, place, out),
        5 => frames_of_channels::<5>(coding, lookups, bytes, place, out),
        6 => frames_of_channels::<6>(coding, lookups, bytes, place, out),
        7 => frames_of_channels::<7>(coding, lookups, bytes, place, out),
        8 => frames_of_channels::<8>(coding, lookups, bytes, place, out),
        _ => Ok((0, place)),
    }
}
