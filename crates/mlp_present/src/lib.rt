//! The decoder of a presentation: units in, frames out, or the first rule that fails.
//!
//! Source: the MLP and Dolby TrueHD bitstream syntax and decoding process as publicly documented.
#![tactic(auto)]

mod decoder;
pub mod laws;
mod parts;

pub use decoder::Decoder;
pub use mlp_contents::laws::law_one;
pub use mlp_walk::Refusal;
