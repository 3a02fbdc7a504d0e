//! What is intact in damaged bytes: the intervals between restarts that are streams of a presentation by themselves.
#![tactic(auto)]

mod interval;
pub mod laws;
mod reach;
mod recovery;
mod span;
mod sync;

pub use recovery::recover;
pub use span::{Span, Spans};
