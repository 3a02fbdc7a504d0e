//! What can be wrong with a stream.

/// The rule that fails first. The numbers and names are this project's own, and the program prints the names.
#[derive(Clone, Copy, Debug, PartialEq, Eq)]
pub enum Field {
    /// No access unit follows one whose segment has a terminator, in a substream that is read.
    AfterEnd,
    /// The four bytes of an access unit's head are there.
    UnitHeader,
    /// The length of an access unit is two words at least, and no more than is left.
    UnitLength,
    /// The first access unit has a major sync.
    FirstSync,
    /// Each major sync is of the kind of the first one: FBA (Dolby TrueHD) or FBB (MLP).
    SyncKind,
    /// The access unit holds the whole major sync, and its check agrees.
    MajorCrc,
    /// The signature of a major sync is 0xB752.
    Signature,
    /// The rate code of a major sync stands for 48, 96 or 192 kHz, or 44.1, 88.2 or 176.4 kHz.
    Rate,
    /// The word length code of an MLP stream is at most 2: 16, 20 or 24 bits.
    Quant,
    /// The rate code of an MLP stream's second group of channels is that of the first, or 15.
    GroupRate,
    /// A stream has one substream at least, at most 4 in Dolby TrueHD and at most 2 in MLP.
    Substreams,
    /// Each major sync has the rate and the number of substreams of the first one.
    SyncChanged,
    /// The access unit holds each directory entry, with its extra word where one is flagged.
    DirectoryShort,
    /// A directory entry of an MLP stream has no extra word.
    ExtraWord,
    /// The XOR of the half bytes of head and directory is 0xF.
    UnitParity,
    /// A directory entry says "restart absent" exactly where the access unit has no major sync.
    RestartFlag,
    /// No segment ends before the one before it, or past the access unit.
    DirectoryEnd,
    /// The bits of each field are all there; a segment with check bytes has four bytes at least.
    SegmentShort,
    /// The parity byte of a segment agrees.
    SegmentParity,
    /// The check byte (CRC) of a segment agrees.
    SegmentCheck,
    /// The first block of a segment has a restart header where the access unit has a major sync.
    RestartMissing,
    /// No other block has a restart header.
    RestartPlace,
    /// The sync word of a restart header is 0x18F5.
    RestartWord,
    /// The noise kind of a restart header is 0 in MLP.
    RestartKind,
    /// The least channel of a substream is at most the greatest, which is at most 5 in MLP and 7 in Dolby TrueHD.
    ChannelRange,
    /// The greatest matrix channel of a substream is its greatest channel.
    MatrixChannel,
    /// No data check is present.
    DataCheck,
    /// Each matrix channel goes to an output channel that there is, and no two to the same.
    ChannelAssign,
    /// The check (CRC) of a restart header agrees.
    RestartCheck,
    /// The greatest matrix channel is that of the substream's first restart header.
    ChannelsChanged,
    /// Each matrix channel of the presentation that is read is coded in a substream.
    Uncovered,
    /// The check over the output samples of the interval that ends at a restart header agrees.
    LosslessCheck,
    /// A block has 8 frames at least, and no more than an access unit.
    BlockSize,
    /// There are at most 6 matrix rows in MLP, 8 in Dolby TrueHD.
    MatrixCount,
    /// A matrix row writes a matrix channel.
    MatrixDest,
    /// The coefficients of a matrix row have at most 14 fraction bits.
    MatrixFrac,
    /// A matrix row under noise kind 1 has no noise shift.
    NoiseShift,
    /// No output shift is negative.
    OutputShift,
    /// The order of an FIR filter is at most 8, that of an IIR filter at most 4.
    FilterOrder,
    /// Coefficients have 1 to 16 bits, at most 16 with the coefficient shift.
    CoeffBits,
    /// An FIR filter has no state.
    FirState,
    /// The orders of both filters that are in force sum to 8 at most.
    FilterSum,
    /// Where both filters in force have coefficients, their shifts are the same.
    FilterPrecision,
    /// A channel with a codebook has at most 24 low bits (LSBs).
    HuffLsbs,
    /// Each coded channel has as many low bits as its quantisation step at least.
    StepTooLarge,
    /// The blocks of a segment have no more frames than an access unit.
    BlockOverrun,
    /// Nine bits begin with a code of the codebook.
    Code,
    /// Behind the padding either nothing is left or 32 bits.
    SegmentEnd,
    /// The first word of a terminator is 0xD234, and in MLP the second one too.
    Terminator,
    /// Where one segment of an access unit has a terminator, each has one.
    TerminatorMixed,
    /// A segment without a terminator has the frames of an access unit, and each segment those of substream 0.
    FrameCount,
}

impl Field {
    ghost use Rattle.std.specs.Prelude.{◌≡◌};
    ghost use Rattle.mlp_syntax.specs.Field.{number_of, name_of};

    /// The number of the rule, from 1 to 52; there is no rule 6.
    pub fn number(self) -> u8
        ensures { result ≡ number_of self }
    {
        match self {
            Field::AfterEnd => 52,
            Field::UnitHeader => 1,
            Field::UnitLength => 2,
            Field::FirstSync => 3,
            Field::SyncKind => 4,
            Field::MajorCrc => 5,
            Field::Signature => 7,
            Field::Rate => 8,
            Field::Quant => 9,
            Field::GroupRate => 10,
            Field::Substreams => 11,
            Field::SyncChanged => 12,
            Field::DirectoryShort => 13,
            Field::ExtraWord => 14,
            Field::UnitParity => 16,
            Field::RestartFlag => 17,
            Field::DirectoryEnd => 15,
            Field::SegmentShort => 47,
            Field::SegmentParity => 18,
            Field::SegmentCheck => 19,
            Field::RestartMissing => 20,
            Field::RestartPlace => 21,
            Field::RestartWord => 22,
            Field::RestartKind => 23,
            Field::ChannelRange => 24,
            Field::MatrixChannel => 25,
            Field::DataCheck => 26,
            Field::ChannelAssign => 27,
            Field::RestartCheck => 28,
            Field::ChannelsChanged => 31,
            Field::Uncovered => 30,
            Field::LosslessCheck => 29,
            Field::BlockSize => 32,
            Field::MatrixCount => 33,
            Field::MatrixDest => 34,
            Field::MatrixFrac => 35,
            Field::NoiseShift => 36,
            Field::OutputShift => 37,
            Field::FilterOrder => 38,
            Field::CoeffBits => 39,
            Field::FirState => 40,
            Field::FilterSum => 41,
            Field::FilterPrecision => 42,
            Field::HuffLsbs => 43,
            Field::StepTooLarge => 44,
            Field::BlockOverrun => 45,
            Field::Code => 46,
            Field::SegmentEnd => 50,
            Field::Terminator => 49,
            Field::TerminatorMixed => 51,
            Field::FrameCount => 48,
        }
    }

    /// The name of the rule, as it is printed.
    pub fn name(self) -> &'static str
        ensures { result.now ≡ name_of self }
    {
        match self {
            Field::AfterEnd => "AfterEnd",
            Field::UnitHeader => "UnitHeader",
            Field::UnitLength => "UnitLength",
            Field::FirstSync => "FirstSync",
            Field::SyncKind => "SyncKind",
            Field::MajorCrc => "MajorCrc",
            Field::Signature => "Signature",
            Field::Rate => "Rate",
            Field::Quant => "Quant",
            Field::GroupRate => "GroupRate",
            Field::Substreams => "Substreams",
            Field::SyncChanged => "SyncChanged",
            Field::DirectoryShort => "DirectoryShort",
            Field::ExtraWord => "ExtraWord",
            Field::UnitParity => "UnitParity",
            Field::RestartFlag => "RestartFlag",
            Field::DirectoryEnd => "DirectoryEnd",
            Field::SegmentShort => "SegmentShort",
            Field::SegmentParity => "SegmentParity",
            Field::SegmentCheck => "SegmentCheck",
            Field::RestartMissing => "RestartMissing",
            Field::RestartPlace => "RestartPlace",
            Field::RestartWord => "RestartWord",
            Field::RestartKind => "RestartKind",
            Field::ChannelRange => "ChannelRange",
            Field::MatrixChannel => "MatrixChannel",
            Field::DataCheck => "DataCheck",
            Field::ChannelAssign => "ChannelAssign",
            Field::RestartCheck => "RestartCheck",
            Field::ChannelsChanged => "ChannelsChanged",
            Field::Uncovered => "Uncovered",
            Field::LosslessCheck => "LosslessCheck",
            Field::BlockSize => "BlockSize",
            Field::MatrixCount => "MatrixCount",
            Field::MatrixDest => "MatrixDest",
            Field::MatrixFrac => "MatrixFrac",
            Field::NoiseShift => "NoiseShift",
            Field::OutputShift => "OutputShift",
            Field::FilterOrder => "FilterOrder",
            Field::CoeffBits => "CoeffBits",
            Field::FirState => "FirState",
            Field::FilterSum => "FilterSum",
            Field::FilterPrecision => "FilterPrecision",
            Field::HuffLsbs => "HuffLsbs",
            Field::StepTooLarge => "StepTooLarge",
            Field::BlockOverrun => "BlockOverrun",
            Field::Code => "Code",
            Field::SegmentEnd => "SegmentEnd",
            Field::Terminator => "Terminator",
            Field::TerminatorMixed => "TerminatorMixed",
            Field::FrameCount => "FrameCount",
        }
    }
}

/// A rule that fails in a list of bytes.
#[derive(Clone, Copy, Debug, PartialEq, Eq)]
pub struct Broken {
    pub field: Field,
    /// The first bit of the field that fails, counted from 0.
    pub bit: u32,
}

/// A rule that fails in a stream.
#[derive(Clone, Copy, Debug, PartialEq, Eq)]
pub struct Fault {
    /// The access unit, counted from 0.
    pub unit: u64,
    /// The substream, 0 where the rule is on the unit's outer part.
    pub substream: u8,
    pub field: Field,
    /// The first bit of the field that fails, counted from the unit's first bit.
    pub bit: u32,
}
