//! The parameters in force.
use arrayvec::ArrayVec;
use mlp_syntax::{Filter, Kind, MatrixRow, Restart};

/// The parameters in force in one channel.
#[derive(Clone, Debug, Default, PartialEq, Eq, Drop)]
pub struct ChannelState {
    /// Without coefficients it is absent. It never has a state.
    pub fir: Filter<8>,
    /// Without coefficients it is absent. It never has a state: a state acts once.
    pub iir: Filter<4>,
    /// 15 signed bits.
    pub offset: i16,
    /// The codebook, 0 to 3; 0 is none.
    pub book: u8,
    /// The number of low bits, 0 to 31, or 0 to 24 beside a codebook.
    pub low: u8,
}

/// The parameters in force in a substream: of each item the latest value given since the restart, or the value that a
/// restart puts in force.
#[derive(Clone, Debug, PartialEq, Eq, Drop)]
pub struct State {
    pub format: Kind,
    /// The number of frames of an access unit: 40, 80 or 160.
    pub unit_frames: u16,
    /// The header of the last restart.
    pub restart: Restart,
    /// The presence flags: bit 7 block size, 6 matrices, 5 output shifts, 4 steps, 3 FIR, 2 IIR, 1 offset,
    /// 0 themselves.
    pub presence: u8,
    /// The number of frames of a block, from 8 to those of an access unit.
    pub block_size: u16,
    pub rows: ArrayVec<MatrixRow, 8>,
    /// The output shift of each matrix channel, 0 to 7.
    pub shifts: ArrayVec<u8, 8>,
    /// The quantisation step size of each channel from 0 to the greatest, 0 to 15.
    pub steps: ArrayVec<u8, 8>,
    /// One item for each channel from 0 to the greatest; those below the least stay as at a restart.
    pub channels: ArrayVec<ChannelState, 8>,
}
