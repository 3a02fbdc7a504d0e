//! Mixes: how the channels of PCM frames are coded, and what each presentation of them is.
#![tactic(auto)]

mod blocks;
mod channels;
mod checking;
mod coding;
pub mod laws;
mod matrices;
mod presenting;
mod profile;
mod sums;

pub use blocks::code_frames;
pub use channels::{channels_of, first_channel, last_channel, substreams};
pub use checking::sum_presented;
pub use coding::{CodedFrame, coded};
pub use matrices::{rows, steps};
pub use mlp_syntax::ProfileFault;
pub use presenting::presented;
pub use profile::{Mix, Profile};
