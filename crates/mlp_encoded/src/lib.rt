//! What comes of PCM that is encoded: a stream that gives it back. Laws alone.
#![tactic(auto)]

pub mod laws;
