//! The units of a stream, one after the other, of any format: what comes of the next unit, and what it means for the
//! whole stream. The theorems are lemmas of `proofs/`, since they are over any format.
#![tactic(auto)]

mod refusal;

pub use refusal::Refusal;
