//! The numbers of the streams that are written.
ghost use Rattle.std.specs.Prelude.{◌≡◌};
ghost use Rattle.mlp_encode.specs.Numbers.{has_sync, noise_kind, rate_code, word_length_code};

/// The frames of the first block of a unit with a major sync.
pub(crate) const FIRST_FRAMES: usize = 8;

/// Whether the unit of this number has a major sync.
pub(crate) fn has_sync(unit: u64) -> bool
    ensures { result ≡ has_sync unit }
{
    unit % 16 == 0
}

/// The noise kind of the restarts of a substream.
pub(crate) fn noise_kind(substream: u8) -> u8
    ensures { result ≡ noise_kind substream }
{
    if substream == 2 { 1 } else { 0 }
}

/// The code of a rate in hertz.
pub(crate) fn rate_code(rate: u32) -> u8
    ensures { result ≡ rate_code rate }
{
    if rate == 48000 {
        0
    } else if rate == 96000 {
        1
    } else if rate == 192000 {
        2
    } else if rate == 44100 {
        8
    } else if rate == 88200 {
        9
    } else {
        10
    }
}

/// The code of a word length in bits.
pub(crate) fn word_length_code(depth: u8) -> u8
    ensures { result ≡ word_length_code depth }
{
    if depth == 16 {
        0
    } else if depth == 20 {
        1
    } else {
        2
    }
}
