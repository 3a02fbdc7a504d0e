//! Prediction of a channel's samples from its latest outputs and differences, and the inverse.
//! Source: the MLP substream syntax and decoding process as publicly documented.
#![tactic(auto)]

mod alone;
mod filters;
mod history;
pub mod laws;
mod lines;
mod predictor;
mod reducing;
mod sample;

pub use history::History;
pub use predictor::Predictor;
pub use sample::dot;
