//! The restart header. Source: the MLP substream syntax as publicly documented.
use arrayvec::ArrayVec;

/// A restart header, without its sync word and check.
#[derive(Clone, Debug, Default, PartialEq, Eq, Drop)]
pub struct Restart {
    /// The noise kind, the last bit of the restart sync word: 0 or 1.
    pub kind: u8,
    /// The output timing in sample periods, modulo 2^16.
    pub output_timing: u16,
    /// The least channel that the substream codes, 4 bits.
    pub min: u8,
    /// The greatest channel that the substream codes, 4 bits.
    pub max: u8,
    /// The greatest matrix channel, 4 bits.
    pub max_matrix: u8,
    /// 4 bits.
    pub noise_shift: u8,
    /// The seed of the noise generator, 23 bits.
    pub seed: u32,
    /// 19 bits.
    pub carried_a: u32,
    pub data_check: bool,
    /// The lossless check of the interval that ends.
    pub lossless: u8,
    pub carried_b: u16,
    /// The output channel of each matrix channel, 6 bits each.
    pub assign: ArrayVec<u8, 8>,
}
