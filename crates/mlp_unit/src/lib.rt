//! The outer part of an access unit. Source: Dolby TrueHD (MLP) high-level bitstream description, "access_unit".
#![tactic(auto)]

mod directory;
mod fitting;
mod head;
pub mod laws;
mod outer;
mod rules;
mod segment;
mod stream;
mod writing;

pub use directory::read_directory;
pub use fitting::is_writable;
pub use head::frame;
pub use outer::{next_outer, read_outer};
pub use segment::{segment_bytes, segment_range};
pub use stream::{in_force, stream_kind, stream_rate};
pub use writing::write_unit;
