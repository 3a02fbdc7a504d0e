//! The major sync. Source: Dolby TrueHD (MLP) high-level bitstream description, "major_sync_info".
use arrayvec::ArrayVec;

/// The two kinds of streams, by the last byte of the format sync.
#[derive(Clone, Copy, Debug, PartialEq, Eq)]
pub enum Kind {
    /// MLP, format sync 0xF8726FBB.
    Fbb,
    /// Dolby TrueHD, format sync 0xF8726FBA.
    Fba,
}

/// The format info of MLP, 32 bits.
#[derive(Clone, Copy, Debug, PartialEq, Eq)]
pub struct FormatFbb {
    /// The word length code of the first group, 4 bits: 0, 1, 2 mean 16, 20, 24 bits.
    pub quant1: u8,
    /// The word length code of the second group, 4 bits.
    pub quant2: u8,
    /// The rate code of the first group, 4 bits.
    pub rate1: u8,
    /// The rate code of the second group, 4 bits: 15 where there is none.
    pub rate2: u8,
    /// 11 bits.
    pub carried: u16,
    /// The channel arrangement, 5 bits.
    pub arrangement: u8,
}

/// The format info of TrueHD, 32 bits.
#[derive(Clone, Copy, Debug, PartialEq, Eq)]
pub struct FormatFba {
    /// The rate code, 4 bits.
    pub rate: u8,
    /// 4 bits.
    pub carried: u8,
    /// The channel modifier of the 2-channel presentation, 2 bits.
    pub mod2: u8,
    /// The channel modifier of the 6-channel presentation, 2 bits.
    pub mod6: u8,
    /// The channel assignment of the 6-channel presentation, 5 bits.
    pub assign6: u8,
    /// The channel modifier of the 8-channel presentation, 2 bits.
    pub mod8: u8,
    /// The channel assignment of the 8-channel presentation, 13 bits.
    pub assign8: u16,
}

#[derive(Clone, Copy, Debug, PartialEq, Eq)]
pub enum FormatInfo {
    Fbb(FormatFbb),
    Fba(FormatFba),
}

/// A major sync, without its sync word, signature and check.
#[derive(Clone, Debug, PartialEq, Eq, Drop)]
pub struct MajorSync {
    pub format: FormatInfo,
    pub flags: u16,
    pub reserved: u16,
    /// Whether the data rate varies.
    pub variable: bool,
    /// The peak data rate in sixteenths of a bit per sample period, 15 bits.
    pub peak: u16,
    /// The number of substreams, 4 bits.
    pub substreams: u8,
    /// The two reserved bits before the extended substream info.
    pub carried: u8,
    /// The extended substream info, 2 bits.
    pub extended: u8,
    /// The substream info.
    pub info: u8,
    /// The channel meaning, 64 bits. In TrueHD its last bit says that an extension follows.
    pub meaning: u64,
    /// The bytes between channel meaning and check: none, or 2 + 2e, where e is the first half byte.
    pub extension: ArrayVec<u8, 32>,
}
