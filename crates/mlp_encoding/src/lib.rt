//! The commands that encode PCM: the session that sends its units, and what each command makes of an input.
#![tactic(auto)]

mod encode;
mod part;
mod raw;
mod sizes;
mod wave;

pub use encode::Encode;
pub use raw::encode_raw;
pub use wave::encode_wave;
