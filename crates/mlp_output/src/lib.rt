//! The samples of a presentation, from coded channels: noise and matrices, output shifts, the places of the channels,
//! and the check over them. Source: the MLP substream syntax and decoding process as publicly documented.
#![tactic(auto)]

mod ends;
pub mod laws;
mod matrices;
mod output;
mod samples;

pub use ends::{dropped, folded};
pub use output::put_out;
