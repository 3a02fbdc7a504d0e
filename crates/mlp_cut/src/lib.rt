//! Cuts of a stream: some of its units, byte for byte.
#![tactic(auto)]

mod cutter;
pub mod laws;

pub use cutter::Cutter;
