//! What is refused besides a stream's own faults.

/// An allocation failed.
#[derive(Clone, Copy, Debug, PartialEq, Eq)]
pub struct Memory;

/// An access unit would pass 8190 bytes.
#[derive(Clone, Copy, Debug, PartialEq, Eq)]
pub struct UnitTooLong;

/// The access units up to this one have no schedule.
#[derive(Clone, Copy, Debug, PartialEq, Eq)]
pub struct NoRoom {
    /// The access unit, counted from 0.
    pub unit: u64,
    /// Its length.
    pub bytes: u32,
}

/// What an encoder can't encode: the first of these that isn't in the profile.
#[derive(Clone, Copy, Debug, PartialEq, Eq)]
pub enum ProfileFault {
    Channels,
    Rate,
    Depth,
    MixShape,
}

/// The part of a WAVE header that is wrong.
#[derive(Clone, Copy, Debug, PartialEq, Eq)]
pub enum WaveField {
    /// The first 12 bytes aren't those of a WAVE file.
    Riff,
    /// The input ends inside a chunk's head or inside the `fmt ` chunk.
    Chunk,
    /// `data` comes before `fmt `.
    FmtMissing,
    /// The `fmt ` chunk is too small.
    FmtSize,
    /// The samples aren't PCM.
    Tag,
    /// The block align isn't that of the channels and bits.
    Align,
    /// No bits per sample, or more than 32.
    Bits,
}

/// What is wrong with the PCM that an encoder is given.
#[derive(Clone, Copy, Debug, PartialEq, Eq)]
pub enum PcmFault {
    WaveHeader(WaveField),
    Profile(ProfileFault),
    /// There is no sample.
    Empty,
    /// A sample of this frame, counted from 0, has low bits that its depth doesn't have.
    PadBits { frame: u64 },
    /// The bytes end inside a frame.
    PartialFrame,
    /// The frames of an MLP stream end inside an access unit.
    PartialUnit,
}
