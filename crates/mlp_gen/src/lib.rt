//! The command `gen`: PCM by a seed, encoded, and the stream decoded and extracted again.
#![tactic(auto)]

mod generator;
pub mod laws;
mod making;
mod player;
mod report;
mod text;

pub use player::Player;
pub use report::{Report, Shown};
pub use text::generate;
