//! Where the segments of a unit stand.
ghost use Rattle.std.specs.Option.{option_copied};
ghost use Rattle.std.specs.Prelude.{◌≡◌, IfSome};
ghost use Rattle.mlp_major.specs.MajorSync.{IsUsable};
ghost use Rattle.mlp_substream.specs.Blocks.{IsPlace};
ghost use Rattle.mlp_unit.specs.AccessUnit.{in_force};
ghost use Rattle.mlp_contents.specs.Units.{frames_in_unit, place_by};

use mlp_major::frames_per_unit;
use mlp_substream::Place;
use mlp_syntax::MajorSync;
use mlp_unit::{in_force, stream_kind};

fn frames_in_unit(sync: Option<&MajorSync>) -> u16
    requires { IfSome (option_copied sync) IsUsable }
    ensures { result ≡ frames_in_unit (option_copied sync.entry) }
{
    match sync {
        None => 40,
        Some(sync) => frames_per_unit(sync),
    }
}

/// The place of a unit's segments, by the stream's first major sync and the unit's own.
pub fn place_of(first: Option<&MajorSync>, major: &Option<MajorSync>) -> Place
    requires { IfSome (in_force (option_copied first) major.now) IsUsable }
    ensures value { result ≡ place_by (option_copied first.entry) major.now }
    ensures place { IsPlace result }
{
    let sync = in_force(first, major);
    Place {
        format: stream_kind(sync),
        unit_frames: frames_in_unit(sync),
        major: major.is_some(),
    }
}
