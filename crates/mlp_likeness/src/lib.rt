//! Streams that differ where no sample looks.
#![tactic(auto)]

pub mod laws;
