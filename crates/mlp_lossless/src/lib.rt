//! What an encoder sends is what decoders give back.
#![tactic(auto)]

pub mod laws;
