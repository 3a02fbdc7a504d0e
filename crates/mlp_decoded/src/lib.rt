//! What decoding a stream writes.
#![tactic(auto)]

pub mod laws;
