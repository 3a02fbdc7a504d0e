//! Matrices: rows over the channels of frames, a row undone, and the noise beside the channels.
//! Source: the MLP substream syntax and decoding process as publicly documented.
#![tactic(auto)]

pub mod laws;
mod matrix;
mod noise;
mod row;
mod undo;

pub use matrix::{apply, apply_block};
pub use noise::Noise;
pub use undo::undo_lift;
