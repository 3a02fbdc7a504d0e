//! The command `check`: whether a stream is whole, what it holds, and whether it keeps its timing.
#![tactic(auto)]

mod check;
pub mod laws;
mod report;

pub use check::Check;
pub use report::Report;
