//! The substreams of a profile, and their channels.

ghost use Rattle.std.specs.Prelude.{◌≡◌};
ghost use Rattle.mlp_fold.specs.Mix.{channels_of};
ghost use Rattle.mlp_fold.specs.Substreams.{substreams_of, first_channel, last_channel};

/// The number of substreams, and of presentations, for 2, 6 or 8 channels.
pub fn substreams(channels: u8) -> u8
    ensures { result ≡ substreams_of channels }
{
    match channels {
        2 => 1,
        6 => 2,
        _ => 3,
    }
}

/// The number of channels of presentation `k`, which are those that the substreams up to `k` code.
pub fn channels_of(k: u8) -> u8
    ensures { result ≡ channels_of k }
{
    match k {
        0 => 2,
        1 => 6,
        _ => 8,
    }
}

/// The first channel that a substream codes.
pub fn first_channel(substream: u8) -> u8
    ensures { result ≡ first_channel substream }
{
    match substream {
        0 => 0,
        1 => 2,
        2 => 6,
        _ => 8,
    }
}

/// The last channel that a substream codes, which is its greatest matrix channel too.
pub fn last_channel(substream: u8) -> u8
    ensures { result ≡ last_channel substream }
{
    channels_of(substream) - 1
}
