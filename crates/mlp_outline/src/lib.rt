//! Where the next unit of a stream ends, and its outer part.
#![tactic(auto)]

pub mod laws;
mod next;
mod outliner;

pub use mlp_unit::next_outer;
pub use next::is_open;
pub use outliner::{Outliner, copied_sync, keep_first, outer_refusal};
