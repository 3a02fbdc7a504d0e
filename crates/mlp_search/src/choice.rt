//! A choice.

/// How a block of a channel is written, and what that costs.
#[derive(Clone, Copy, Debug, Default, PartialEq, Eq)]
pub struct Choice {
    /// The number of the filters, 0 to 17: 0 are those in force, 1 to 9 those of a table, and 10 to 17
    /// computed ones.
    pub filter: u8,
    /// The codebook, 0 to 3; 0 is none.
    pub book: u8,
    /// The number of low bits, from the quantisation step size to 31, or to 24 beside a codebook.
    pub low: u8,
    /// 0, or the middle of the residuals in quantisation steps, 15 signed bits.
    pub offset: i16,
    /// The bits of the channel's flag, its parameters and its codes.
    pub bits: u64,
}
