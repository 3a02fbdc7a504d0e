//! The program: its words, its commands and what it tells.
#![tactic(auto)]

pub mod laws;
mod line;
mod numbers;
mod top;
mod values;
mod words;

pub use line::{Line, line_of, status_of};
pub use top::run;
pub use words::{Command, plain};
