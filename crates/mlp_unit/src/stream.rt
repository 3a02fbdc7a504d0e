//! What the first major sync of a stream tells.
ghost use Rattle.std.specs.Option.{option_copied};
ghost use Rattle.std.specs.Prelude.{◌≡◌, ◌≤◌};
ghost use Rattle.mlp_unit.specs.AccessUnit.{in_force, stream_kind, stream_rate};
ghost use Rattle.mlp_unit.specs.Written.{FirstUsable};

use mlp_major::{kind_of, sample_rate};
use mlp_syntax::{Kind, MajorSync};

/// The stream's first major sync, which may be this unit's.
pub fn in_force<'a>(
    first: Option<&'a MajorSync>,
    major: &'a Option<MajorSync>,
) -> Option<&'a MajorSync>
    ensures { option_copied result ≡ in_force (option_copied first.entry) major.now }
{
    match (first, major) {
        (Some(first), _) => Some(first),
        (None, Some(here)) => Some(here),
        (None, None) => None,
    }
}

/// The kind of the stream with this first major sync. Where there is none yet it is TrueHD.
pub fn stream_kind(sync: Option<&MajorSync>) -> Kind
    ensures { result ≡ stream_kind (option_copied sync.entry) }
{
    match sync {
        None => Kind::Fba,
        Some(sync) => kind_of(&sync.format),
    }
}

/// The sampling rate in hertz of the stream with this first major sync, 44100 to 192000.
/// Where there is none yet it is 0.
pub fn stream_rate(sync: Option<&MajorSync>) -> u32
    requires { FirstUsable (option_copied sync) }
    ensures value { result ≡ stream_rate (option_copied sync.entry) }
    ensures most { result ≤ 192000 }
{
    match sync {
        None => 0,
        Some(sync) => sample_rate(sync),
    }
}
