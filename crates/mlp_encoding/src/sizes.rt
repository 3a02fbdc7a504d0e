//! The sizes of the PCM of a profile, in bytes.
ghost use Rattle.std.specs.Prelude.{◌≡◌, ◌<◌, ◌≤◌, Ok};
ghost use Rattle.mlp_fifo.specs.Pace.{unit_of};
ghost use Rattle.mlp_fold.specs.Profile.{checked};
ghost use Rattle.mlp_encoding.specs.Pcm.{sample_size, frame_size, full_size};

use mlp_fifo::Pace;
use mlp_fold::Profile;

/// The bytes of a sample of so many bits.
pub fn sample_size(depth: u8) -> u8
    ensures { result ≡ sample_size depth }
{
    if depth == 16 { 2 } else { 3 }
}

/// The bytes of a frame.
pub fn frame_size(profile: &Profile) -> usize
    ensures { result ≡ frame_size profile.now }
{
    usize::from(profile.channels) * usize::from(sample_size(profile.depth))
}

/// The frames of an access unit.
#[tactic(auto, unfolding(mlp_fifo::specs::Pace::pace_of))]
pub fn unit_frames(profile: &Profile) -> u64
    requires { checked profile.now ≡ Ok tt }
    ensures value { result ≡ unit_of profile.now.rate }
    ensures most { result ≤ 160 }
{
    Pace::of(profile.kind, profile.rate).unit
}

/// The bytes of the frames of an access unit.
pub fn full_size(profile: &Profile) -> usize
    requires { checked profile.now ≡ Ok tt }
    ensures value { result ≡ full_size profile.now }
    ensures some { 0 < result }
    ensures most { result ≤ 3840 }
{
    unit_frames(profile) as usize * frame_size(profile)
}
