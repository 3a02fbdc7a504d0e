//! The stream of one presentation, out of a stream that may have more.
#![tactic(auto)]

mod extractor;
pub mod laws;

pub use extractor::Extractor;
