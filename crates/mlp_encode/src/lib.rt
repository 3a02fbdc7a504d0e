//! What is sent of PCM, unit by unit: the major sync, and of each substream a restart and a segment whose parameters
//! and codes are the choice that costs least.
#![tactic(auto)]

mod blocks;
mod coding;
mod encoder;
pub mod laws;
mod numbers;
mod progress;
mod segments;
mod sync;
mod unit;

pub use encoder::{Encoder, OpenRefusal};
pub use segments::send_segment;
pub use sync::sync_of;
pub use unit::{
    Written, checks_behind, restart_in, send_substream, send_substreams, terminator_of,
};
