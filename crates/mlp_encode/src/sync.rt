//! The major sync and the restart headers of the streams that are written.
ghost use Rattle.std.specs.Prelude.{◌≡◌, ◌<◌, ◌≤◌, ◌+◌};
ghost use Rattle.std.specs.List.{range_with_len};
ghost use Rattle.mlp_fifo.specs.Pace.{IsRate};
ghost use Rattle.mlp_encode.specs.Sync.{arrangement, six_assignment, eight_assignment, format_of, sync_of, restart_of};

use crate::numbers::{noise_kind, rate_code, word_length_code};
use arrayvec::ArrayVec;
use mlp_fifo::peak;
use mlp_fold::{Profile, first_channel, last_channel, substreams};
use mlp_syntax::{FormatFba, FormatFbb, FormatInfo, Kind, MajorSync, Restart};

/// The channel arrangement of MLP.
fn arrangement(channels: u8) -> u8
    ensures { result ≡ arrangement channels }
{
    if channels == 2 { 1 } else { 12 }
}

/// The channel assignment of TrueHD's six-channel presentation.
fn six_assignment(channels: u8) -> u8
    ensures { result ≡ six_assignment channels }
{
    if channels == 2 { 1 } else { 15 }
}

/// The channel assignment of TrueHD's eight-channel presentation.
fn eight_assignment(channels: u8) -> u16
    ensures { result ≡ eight_assignment channels }
{
    if channels == 2 {
        1
    } else if channels == 6 {
        15
    } else {
        79
    }
}

fn format_of(kind: Kind, rate: u32, channels: u8, depth: u8) -> FormatInfo
    ensures { result ≡ format_of kind rate channels depth }
{
    match kind {
        Kind::Fbb => FormatInfo::Fbb(FormatFbb {
            quant1: word_length_code(depth),
            quant2: 15,
            rate1: rate_code(rate),
            rate2: 15,
            carried: 0,
            arrangement: arrangement(channels),
        }),
        Kind::Fba => FormatInfo::Fba(FormatFba {
            rate: rate_code(rate),
            carried: 0,
            mod2: 0,
            mod6: 0,
            assign6: six_assignment(channels),
            mod8: 0,
            assign8: eight_assignment(channels),
        }),
    }
}

/// The major sync of a stream of this profile.
pub fn sync_of(profile: &Profile) -> MajorSync
    requires { IsRate profile.now.rate }
    ensures { result ≡ sync_of profile.now }
{
    MajorSync {
        format: format_of(profile.kind, profile.rate, profile.channels, profile.depth),
        flags: 0,
        reserved: 0,
        variable: true,
        peak: peak(profile.kind, profile.rate) as u16,
        substreams: substreams(profile.channels),
        carried: 0,
        extended: 0,
        info: 0,
        meaning: 0,
        extension: ArrayVec::new(),
    }
}

/// The numbers from 0 to a last one.
fn numbers_to(last: u8) -> ArrayVec<u8, 8>
    requires { last < 8 }
    ensures { result.items ≡ range_with_len 0 (last + 1) }
{
    let mut numbers = ArrayVec::new();
    for i in 0..last + 1 {
        numbers.push(i);
    }
    numbers
}

/// A restart header of substream 0, 1 or 2, with its output timing and the lossless check of the interval that ends.
pub(crate) fn restart_of(substream: u8, timing: u16, check: u8) -> Restart
    requires { substream ≤ 2 }
    ensures { result ≡ restart_of substream timing check }
{
    let last = last_channel(substream);
    Restart {
        kind: noise_kind(substream),
        output_timing: timing,
        min: first_channel(substream),
        max: last,
        max_matrix: last,
        noise_shift: 0,
        seed: 0,
        carried_a: 0,
        data_check: false,
        lossless: check,
        carried_b: 0,
        assign: numbers_to(last),
    }
}
