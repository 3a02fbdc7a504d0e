//! Residuals and their codes, by the MLP syntax as publicly documented.
//!
//! A residual is coded as a symbol of a codebook and low bits behind it, or as low bits alone.
#![tactic(auto)]

mod ahead;
mod block;
mod coding;
mod count;
mod frames;
mod in_force;
mod laws;
mod runs;
mod widths;
mod writing;

pub use block::{ResidualCoding, residuals};
pub use coding::{code_of, residual};
pub use count::bits_of;
pub use frames::{ChannelCode, Coding, read_coded};
pub use in_force::{coding_in_force, read_frames, read_frames_behind, steps_fit};
pub use laws::{law_codes, law_frames};
pub use widths::bits_of_widths;
pub use writing::{write_coded, write_frames};
