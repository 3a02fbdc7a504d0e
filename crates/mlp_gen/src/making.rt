//! Making a stream by a seed.
ghost use Rattle.std.specs.Prelude.{◌≡◌, ◌≤◌, ◌*◌, Ok, MatchResult, map};
ghost use Rattle.std.specs.List.{range_with_len};
ghost use Rattle.mlp_fold.specs.Substreams.{substreams_of};
ghost use Rattle.mlp_fifo.specs.Pace.{unit_of};
ghost use Rattle.mlp_fold.specs.Profile.{checked};
ghost use Rattle.mlp_encode.specs.Left.{going};
ghost use Rattle.mlp_gen.specs.Player.{unplayed};
ghost use Rattle.mlp_gen.specs.Generated.{width_of, IsMade, IsReport, HasNoPlace};

use crate::generator::make_unit;
use crate::player::{Player, shown_of, take_unit};
use crate::report::Report;
use mlp_encode::Encoder;
use mlp_fifo::Pace;
use mlp_fold::Profile;
use mlp_syntax::{Frames, NoRoom, UnitBytes};

/// The number of frames of a unit: 40, 80 or 160.
fn unit_frames(profile: &Profile) -> u64
    requires { checked profile.now ≡ Ok tt }
    ensures is { result ≡ unit_of profile.now.rate }
    ensures most { result ≤ 160 }
{
    Pace::of(profile.kind, profile.rate).unit
}

/// The number of bytes of a frame of raw PCM.
fn frame_size(profile: &Profile) -> u64
    ensures is { result ≡ profile.now.channels * width_of profile.now.depth }
    ensures most { result ≤ 765 }
{
    if profile.depth == 16 {
        u64::from(profile.channels) * 2
    } else {
        u64::from(profile.channels) * 3
    }
}

/// The number of bytes of the raw PCM of so many units.
fn pcm_size(profile: &Profile, units: u64) -> u64
    requires profile { checked profile.now ≡ Ok tt }
    requires units { units ≤ 100000 }
    ensures { let p = profile.now in result ≡ units * unit_of p.rate * (p.channels * width_of p.depth) }
{
    let unit = unit_frames(profile);
    let frame = frame_size(profile);
    let frames = units * unit;
    frames * frame
}

/// Encodes the units that a seed gives, lets the players take each of them, and answers how many bytes they have.
///
/// # Errors
///
/// `NoRoom` exactly where the units have no schedule.
fn send_units(
    profile: &Profile,
    seed: u32,
    units: u64,
    encoder: &mut Encoder,
    players: &mut [Player],
) -> Result<u64, NoRoom>
    requires profile { checked profile.now ≡ Ok tt }
    requires units { (1 ≤ units) × (units ≤ 100000) }
    requires encoder { encoder.old ≡ Ok (going profile.now) }
    requires players { players.old ≡ map unplayed (range_with_len 0 (substreams_of profile.now.channels)) }
    ensures { MatchResult result
        (λ size. IsMade profile.now seed units size players.new)
        (HasNoPlace profile.now seed units) }
{
    let frames_in_unit = unit_frames(profile);
    let mut frames = Frames::default();
    let mut unit = UnitBytes::new();
    let mut first: u64 = 0;
    let mut state = seed;
    let mut size: u64 = 0;
    for number in 0..units {
        state = make_unit(profile, frames_in_unit, first, state, &mut frames);
        first += frames_in_unit;
        encoder.unit(&frames, number + 1 == units, &mut unit)?;
        take_unit(&unit, players);
        size += unit.len() as u64;
    }
    Ok(size)
}

/// Makes a stream by a seed with an encoder that has sent no unit, lets a new player of each presentation take it, and
/// tells what came of it.
///
/// # Errors
///
/// `NoRoom` exactly where the units have no schedule.
pub fn make_report(
    profile: &Profile,
    seed: u32,
    units: u64,
    encoder: &mut Encoder,
    players: &mut [Player],
) -> Result<Report, NoRoom>
    requires profile { checked profile.now ≡ Ok tt }
    requires units { (1 ≤ units) × (units ≤ 100000) }
    requires encoder { encoder.old ≡ Ok (going profile.now) }
    requires players { players.old ≡ map unplayed (range_with_len 0 (substreams_of profile.now.channels)) }
    ensures { MatchResult result (IsReport profile.now seed units) (HasNoPlace profile.now seed units) }
{
    let stream = send_units(profile, seed, units, encoder, players)?;
    Ok(Report {
        pcm: pcm_size(profile, units),
        stream,
        shown: shown_of(players),
        units,
    })
}
