//! The PCM of one access unit.
ghost use Rattle.std.specs.Prelude.{◌≡◌, ◌↔◌, false, ◌^◌, ◌<◌, ◌≤◌, length, Ok, Some, None, OnOk, IfErr, IsTrue};
ghost use Rattle.mlp_fold.specs.Profile.{checked};
ghost use Rattle.mlp_encoding.specs.Pcm.{full_size, frames_in, first_padded, data_in, is_seen};
ghost use Rattle.mlp_encoding.specs.Encoding.{is_open, cut_fault, fault_in, less};

use crate::sizes::{frame_size, full_size, sample_size, unit_frames};
use arrayvec::ArrayVec;
use mlp_fold::Profile;
use mlp_pcm::unpack;
use mlp_syntax::{Frames, Kind, PcmFault};

/// The bytes of data, of which so many are still to come, if a header told.
pub fn pcm_in(to_come: Option<u64>, next: &[u8]) -> &[u8]
    ensures { result.now ≡ data_in to_come next.now }
{
    match to_come {
        Some(size) if size < next.len() as u64 => &next[..size as usize],
        _ => next,
    }
}

/// Whether the data end with these bytes or within them, as a header told.
pub fn is_seen(to_come: Option<u64>, next: &[u8]) -> bool
    ensures { result ≡ is_seen to_come false next.now }
{
    match to_come {
        None => false,
        Some(size) => size <= next.len() as u64,
    }
}

/// The bytes that are to come behind so many.
pub fn less(size: usize, to_come: Option<u64>) -> Option<u64>
    ensures { result ≡ less size to_come }
{
    match to_come {
        None => None,
        Some(all) => Some(all.saturating_sub(size as u64)),
    }
}

/// Replaces `frames` by the whole frames of these bytes.
///
/// # Errors
///
/// The number of the first frame that has a sample whose low bits, which its depth doesn't have, are not 0.
fn unpack_part(profile: &Profile, part: &[u8], frames: &mut Frames) -> Result<(), u32>
    requires passes { checked profile.now ≡ Ok tt }
    requires most { length part.now ≤ full_size profile.now }
    ensures clear { OnOk result (first_padded profile.now part.now ≡ None) }
    ensures frames { OnOk result (frames.new.rows.items ≡ frames_in profile.now part.now) }
    ensures padded { IfErr result (λ frame. first_padded profile.now part.now ≡ Some frame) }
{
    let size = part.len() - part.len() % frame_size(profile);
    unpack(
        &part[..size],
        sample_size(profile.depth),
        profile.depth,
        profile.channels,
        frames,
    )
}

/// Whether no sample of these bytes has low bits that its depth doesn't have.
fn is_clear(profile: &Profile, part: &[u8]) -> bool
    requires passes { checked profile.now ≡ Ok tt }
    requires most { length part.now ≤ full_size profile.now }
    ensures { IsTrue result ↔ (first_padded profile.now part.now ≡ None) }
{
    let mut frames = Frames {
        channels: 0,
        rows: ArrayVec::new(),
    };
    unpack_part(profile, part, &mut frames).is_ok()
}

/// Whether the next unit depends on data behind these, which may come unless the end was seen.
pub fn is_open(profile: &Profile, seen: bool, pcm: &[u8]) -> bool
    requires { checked profile.now ≡ Ok tt }
    ensures { result ≡ is_open profile.now seen pcm.now }
{
    let full = full_size(profile);
    if seen || full < pcm.len() {
        return false;
    }
    pcm.len() < full || is_clear(profile, pcm)
}

/// A frame, or a unit of MLP, that the data cut off.
fn cut_fault(profile: &Profile, part: &[u8]) -> Option<PcmFault>
    requires { checked profile.now ≡ Ok tt }
    ensures { result ≡ cut_fault profile.now part.now }
{
    if part.len() % frame_size(profile) != 0 {
        return Some(PcmFault::PartialFrame);
    }
    match profile.kind {
        Kind::Fbb if part.len() < full_size(profile) => Some(PcmFault::PartialUnit),
        Kind::Fbb | Kind::Fba => None,
    }
}

/// Replaces `frames` by those of the unit of these bytes, before which so many units came, and which is the last one
/// where they are the last of the data.
///
/// # Errors
///
/// `PadBits`; and of the last unit `PartialFrame` and `PartialUnit`.
pub fn read_unit(
    profile: &Profile,
    units: u64,
    part: &[u8],
    last: bool,
    frames: &mut Frames,
) -> Result<(), PcmFault>
    requires passes { checked profile.now ≡ Ok tt }
    requires most { length part.now ≤ full_size profile.now }
    requires units { units < 2 ^ 40 }
    ensures ok { OnOk result (fault_in profile.now units part.now last ≡ None) }
    ensures frames { OnOk result (frames.new.rows.items ≡ frames_in profile.now part.now) }
    ensures err { IfErr result (λ fault. fault_in profile.now units part.now last ≡ Some fault) }
{
    match unpack_part(profile, part, frames) {
        Ok(()) => {}
        Err(frame) => {
            return Err(PcmFault::PadBits {
                frame: units * unit_frames(profile) + u64::from(frame),
            });
        }
    }
    if !last {
        return Ok(());
    }
    match cut_fault(profile, part) {
        Some(fault) => Err(fault),
        None => Ok(()),
    }
}
