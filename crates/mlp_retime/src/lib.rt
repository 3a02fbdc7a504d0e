//! The same stream with fresh timings.
#![tactic(auto)]

pub mod laws;
mod retimer;
mod stamping;

pub use retimer::Retimer;
