//! What the encoding commands write is what the decoding commands give back.
#![tactic(auto)]

pub mod laws;
