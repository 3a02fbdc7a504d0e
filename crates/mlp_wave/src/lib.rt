//! `decode-wav`: the samples of a presentation as a WAVE file.
#![tactic(auto)]

mod decode;
pub mod laws;
mod save;

pub use decode::decode_wave;
