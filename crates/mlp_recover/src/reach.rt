//! How far the units of an interval reach.
ghost use Rattle.std.specs.Option.{option_copied};
ghost use Rattle.std.specs.Prelude.{◌≡◌, ◌+◌, ◌^◌, ◌≤◌, ◌<◌, List, ℕ, length, MatchOption};
ghost use Rattle.mlp_io.specs.Limit.{limit};
ghost use Rattle.mlp_contents.specs.Units.{Unit_of};
ghost use Rattle.mlp_recover.specs.Reading.{has_major, is_behind, NoFirst, IsRateOf, IsGrowing, ReadsOn};

use arrayvec::ArrayVec;
use mlp_major::sample_rate;
use mlp_outline::next_outer;
use mlp_present::Decoder;

/// The byte behind the units, and the numbers of units, frames and channels.
#[derive(Clone, Copy, Debug, PartialEq, Eq)]
pub struct Reach {
    pub past: usize,
    pub units: u64,
    pub frames: u64,
    pub channels: u8,
}

/// What came of one more unit.
#[derive(Clone, Copy, Debug, PartialEq, Eq)]
pub enum Reading {
    /// It belongs to the interval, which may go on.
    More,
    /// The interval ends here.
    Whole,
    /// No interval stands here.
    Broken,
}

/// The sampling rate in hertz that the first unit of a stream tells, if one stands at the front of the bytes.
pub fn first_rate(next: &[u8]) -> Option<u32>
    ensures { MatchOption result (NoFirst next.now) (IsRateOf next.now) }
{
    match next_outer(next, None) {
        Ok((_, outer)) => match &outer.major {
            Some(sync) => Some(sample_rate(sync)),
            None => None,
        },
        Err(_) => None,
    }
}

/// Whether the latest unit has a major sync.
fn has_major(decoder: &Decoder) -> bool
    ensures { result ≡ has_major decoder.now.latest }
{
    match decoder.last_outer() {
        Some(outer) => outer.major.is_some(),
        None => false,
    }
}

/// Whether the latest unit begins another interval behind so many units.
fn is_behind(units: u64, decoder: &Decoder) -> bool
    ensures { result ≡ is_behind units decoder.now.latest }
{
    units > 0 && has_major(decoder)
}

/// Reads one more unit of an interval.
pub fn read_on(
    decoder: &mut Decoder,
    rows: &mut ArrayVec<[i32; 8], 160>,
    bytes: &[u8],
    reach: &mut Reach,
) -> Reading
    requires within { reach.old.past < length bytes.now }
    requires units { reach.old.units < 2 ^ 40 }
    requires frames { reach.old.frames < 2 ^ 48 }
    requires count { decoder.old.units ≡ reach.old.units }
    ensures reads { (k first : ℕ) (us : List Unit_of) → IsGrowing k bytes.now first us decoder.old reach.old
        → ReadsOn k bytes.now first decoder.new reach.new result }
    ensures moves { result ≡ Reading.More → reach.old.past < reach.new.past }
{
    let Ok(size) = decoder.unit(&bytes[reach.past..], rows) else {
        return Reading::Broken;
    };
    if is_behind(reach.units, decoder) {
        return Reading::Whole;
    }
    *reach = Reach {
        past: reach.past + size,
        units: reach.units + 1,
        frames: reach.frames + rows.len() as u64,
        channels: decoder.channels(),
    };
    if decoder.ended() {
        return Reading::Whole;
    }
    if reach.past == bytes.len() {
        return Reading::Whole;
    }
    Reading::More
}
