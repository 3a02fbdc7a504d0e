//! What lower presentations read of a stream, and what an extraction keeps of it.
#![tactic(auto)]

pub mod laws;
