//! The decoding parameters of a block. Source: the MLP substream syntax as publicly documented.
use arrayvec::ArrayVec;

/// Values that replace the latest differences of an IIR filter.
#[derive(Clone, Debug, Default, PartialEq, Eq, Drop)]
pub struct FilterState {
    /// The width of each value, 4 bits; at 0 all values are 0.
    pub bits: u8,
    /// 4 bits. A difference is the value times 2^shift.
    pub shift: u8,
    /// The first becomes the latest difference.
    pub values: ArrayVec<i32, 4>,
}

/// A prediction filter of order at most N. Without coefficients it is absent, and all its fields are 0.
#[derive(Clone, Debug, Default, PartialEq, Eq, Drop)]
pub struct Filter<const N: usize> {
    /// The sum of both filters is divided by 2^shift, 4 bits.
    pub shift: u8,
    /// The width of each coefficient, 5 bits.
    pub coeff_bits: u8,
    /// 3 bits. A coefficient counts 2^coeff_shift times.
    pub coeff_shift: u8,
    /// The signed fields as they stand. The first belongs to the latest value.
    pub coeffs: ArrayVec<i32, N>,
    pub state: Option<FilterState>,
}

/// One row of the matrices: a channel is replaced by a weighted sum of the channels.
#[derive(Clone, Debug, Default, PartialEq, Eq, Drop)]
pub struct MatrixRow {
    /// The matrix channel that is replaced, 4 bits.
    pub dest: u8,
    /// The number of fraction bits of the coefficients, 4 bits.
    pub frac: u8,
    /// Whether a bit of each frame is added.
    pub bypass: bool,
    /// A coefficient, or none, for each matrix channel, and in noise kind 0 for the two noise sources.
    pub coeffs: ArrayVec<Option<i32>, 10>,
    /// 4 bits, in noise kind 1 alone.
    pub noise_shift: u8,
}

/// The parameters of one channel.
#[derive(Clone, Debug, Default, PartialEq, Eq, Drop)]
pub struct ChannelParams {
    pub fir: Option<Filter<8>>,
    pub iir: Option<Filter<4>>,
    /// 15 signed bits.
    pub offset: Option<i16>,
    /// The codebook, 2 bits; 0 is none.
    pub book: u8,
    /// The number of low bits, 5 bits.
    pub low: u8,
}

/// The parameters that one block gives. What is `None` stays as it was in force.
#[derive(Clone, Debug, Default, PartialEq, Eq, Drop)]
pub struct Params {
    pub presence: Option<u8>,
    /// The number of frames of this block and of later ones, 9 bits.
    pub block_size: Option<u16>,
    pub matrices: Option<ArrayVec<MatrixRow, 8>>,
    /// The output shift of each matrix channel.
    pub shifts: Option<ArrayVec<u8, 8>>,
    /// The quantisation step size of each channel, 4 bits.
    pub steps: Option<ArrayVec<u8, 8>>,
    /// An item for each channel from the least to the greatest that the substream codes.
    pub channels: ArrayVec<Option<ChannelParams>, 8>,
}
