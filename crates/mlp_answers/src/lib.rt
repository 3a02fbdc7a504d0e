//! What any command that reads a stream's units answers to an input: one answer, and a session that gives it.
//! The theorems are lemmas of `proofs/`, since they are over any format, command and session.
#![tactic(auto)]

mod failure;
mod refusal;

pub use failure::{Failure, end_of, failure_by};
pub use refusal::{no_unit, refusal_of};
