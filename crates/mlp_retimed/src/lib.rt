//! What retiming keeps of a stream, and where it stops.
#![tactic(auto)]

pub mod laws;
