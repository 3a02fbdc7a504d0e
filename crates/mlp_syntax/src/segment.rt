//! A substream segment: the part of one substream in one access unit.
use crate::params::Params;
use crate::restart::Restart;
use arrayvec::ArrayVec;

/// A coded residual.
#[derive(Clone, Copy, Debug, Default, PartialEq, Eq)]
pub struct Code {
    /// The symbol of the codebook, 0 without one.
    pub symbol: u8,
    pub low: u32,
}

/// A frame as it is coded.
#[derive(Clone, Debug, Default, PartialEq, Eq, Drop)]
pub struct FrameCode {
    /// Bit i is that of matrix i, and 0 where that matrix has no bypass.
    pub bypass: u8,
    /// A code for each channel that the substream codes.
    pub codes: ArrayVec<Code, 8>,
}

/// What stands before the frames of a block.
#[derive(Clone, Debug, Default, PartialEq, Eq, Drop)]
pub struct BlockHead {
    pub restart: Option<Restart>,
    pub params: Option<Params>,
    /// The block size in force in this block, written here or not.
    pub frames: u16,
}

/// A segment. The frames of all its blocks stand one after the other in `codes`.
#[derive(Debug, Default, PartialEq, Drop)]
pub struct Segment {
    pub blocks: ArrayVec<BlockHead, 20>,
    pub codes: ArrayVec<FrameCode, 160>,
    /// The bits up to the next multiple of 16, as a number.
    pub padding: u16,
    /// The second word of the terminator.
    pub terminator: Option<u16>,
    /// Whether check bytes end the segment, as its directory entry says.
    pub checked: bool,
}
