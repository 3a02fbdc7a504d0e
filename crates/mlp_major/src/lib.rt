//! The major sync of an access unit. Source: Dolby TrueHD (MLP) high-level bitstream description, "major_sync_info".
#![tactic(auto)]

mod extraction;
mod fitting;
mod format;
pub mod laws;
mod rate;
mod reading;
mod rules;
mod writing;

pub use extraction::narrow;
pub use fitting::fits;
pub use format::{SYNC, kind_of};
pub use rate::{frames_per_unit, sample_rate};
pub use reading::{read_major, read_sync};
pub use writing::write_major;
