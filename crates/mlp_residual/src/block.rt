//! The residuals of a block.
ghost use Rattle.std.specs.Prelude.{◌≡◌, ◌≤◌, ◌<◌, All, length, map};
ghost use Rattle.arrayvec.specs.ArrayVec.{array_vec_len};
ghost use Rattle.mlp_residual.specs.Coding.{residual_of};
ghost use Rattle.mlp_residual.specs.Block.{code_in, residual_in};

use crate::coding::residual;
use mlp_syntax::FrameCode;

/// How the residuals of a channel come from its codes.
#[derive(Clone, Copy, Debug, Default, PartialEq, Eq)]
pub struct ResidualCoding {
    /// The codebook, 0 to 3; 0 is none.
    pub book: u8,
    /// The number of low bits behind a symbol, 0 to 31.
    pub low: u8,
    pub offset: i16,
    /// The quantisation step size, 0 to 15.
    pub step: u8,
}

/// The residual of a channel in a frame.
#[inline]
fn residual_in(coding: &ResidualCoding, channel: usize, frame: &FrameCode) -> i32
    requires book { coding.now.book ≤ 3 }
    requires low { coding.now.low < 32 }
    requires step { coding.now.step < 16 }
    requires channel { channel < array_vec_len frame.now.codes }
    ensures { result ≡ residual_in coding.now channel frame.now }
{
    residual(
        coding.book,
        coding.low,
        coding.offset,
        coding.step,
        frame.codes[channel],
    )
}

/// The residuals of a channel in frames that all have a code for it. Channels are counted from the least one.
pub fn residuals(coding: &ResidualCoding, channel: usize, frames: &[FrameCode], out: &mut [i32])
    requires book { coding.now.book ≤ 3 }
    requires low { coding.now.low < 32 }
    requires step { coding.now.step < 16 }
    requires channel { All (λ f. channel < array_vec_len f.codes) frames.now }
    requires count { length out.old ≡ length frames.now }
    ensures { out.new ≡ map (residual_in coding.now channel) frames.now }
{
    for i in 0..frames.len() {
        out[i] = residual_in(coding, channel, &frames[i]);
    }
}
