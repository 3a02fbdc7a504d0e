//! One restart interval.
ghost use Rattle.std.specs.Prelude.{◌≡◌, ◌≤◌, ◌<◌, length, MatchOption};
ghost use Rattle.mlp_io.specs.Limit.{limit};
ghost use Rattle.mlp_recover.specs.Interval.{NoneAt};
ghost use Rattle.mlp_recover.specs.Reading.{IsKeptFrom};

use crate::reach::{Reach, Reading, first_rate, read_on};
use crate::span::Span;
use arrayvec::ArrayVec;
use mlp_present::Decoder;

/// The interval of presentation `k` that begins at byte `first`, if one does.
pub fn interval(
    decoder: &mut Decoder,
    rows: &mut ArrayVec<[i32; 8], 160>,
    k: u8,
    bytes: &[u8],
    first: usize,
) -> Option<Span>
    requires exists { k ≤ 2 }
    requires few { length bytes.now ≤ limit }
    requires within { first < length bytes.now }
    ensures { MatchOption result (NoneAt k bytes.now first) (IsKeptFrom k bytes.now first) }
{
    let Some(rate) = first_rate(&bytes[first..]) else {
        return None;
    };
    decoder.reset(k);
    let mut reach = Reach {
        past: first,
        units: 0,
        frames: 0,
        channels: 0,
    };
    'units: loop {
        match read_on(decoder, rows, bytes, &mut reach) {
            Reading::More => {}
            Reading::Broken => return None,
            Reading::Whole => break,
        }
    }
    Some(Span {
        first: first as u64,
        past: reach.past as u64,
        kept: true,
        units: reach.units,
        frames: reach.frames,
        channels: reach.channels,
        rate,
    })
}
