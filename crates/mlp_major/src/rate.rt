//! The rate that a major sync tells.
ghost use Rattle.std.specs.Prelude.{◌≡◌, IsTrue};
ghost use Rattle.mlp_major.specs.MajorSync.{is_rate, rate_of, unit_frames, rate_in_hertz};

use crate::rules::rate_of;
use mlp_syntax::MajorSync;

/// How many frames each access unit holds: 40, 80 or 160.
pub fn frames_per_unit(major: &MajorSync) -> u16
    requires { IsTrue (is_rate (rate_of major.now.format)) }
    ensures { result ≡ unit_frames major.now }
{
    40 << (rate_of(&major.format) % 8)
}

/// The sampling rate in hertz.
pub fn sample_rate(major: &MajorSync) -> u32
    requires { IsTrue (is_rate (rate_of major.now.format)) }
    ensures { result ≡ rate_in_hertz major.now }
{
    let code = rate_of(&major.format);
    let base = if code < 8 { 48000 } else { 44100 };
    base << (code % 8)
}
