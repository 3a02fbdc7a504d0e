//! The channels that a substream codes: reading a segment, and the outputs of each channel from its codes.
//!
//! Source: the MLP substream syntax and decoding process as publicly documented.
#![tactic(auto)]

pub mod laws;
mod play;
mod restore;
mod scatter;
mod substream;

pub use substream::Substream;
