//! The command `recover`, which copies its input before it writes.
#![tactic(auto)]

mod copier;
mod lines;
mod mending;
mod pieces;

pub use copier::Copier;
pub use mending::recover_input;
