//! The samples of streams, and what their units leave, by the whole sequences of their channels since their restarts.
#![tactic(auto)]

pub mod laws;
