//! What a unit contains for a presentation: the segments of its substreams, and the frames that they give.
#![tactic(auto)]

mod fault;
mod give;
mod known;
pub mod laws;
mod place;
mod reading;
mod substreams;
mod taking;

pub use fault::SegmentFault;
pub use substreams::Substreams;
