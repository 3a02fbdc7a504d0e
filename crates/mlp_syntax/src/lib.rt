//! The records of MLP and Dolby TrueHD streams, the rules' names, and what is refused. Types alone.
#![tactic(auto)]

mod fault;
mod frames;
mod major;
mod params;
mod refusal;
mod restart;
mod segment;
mod unit;

pub use fault::{Broken, Fault, Field};
pub use frames::Frames;
pub use major::{FormatFba, FormatFbb, FormatInfo, Kind, MajorSync};
pub use params::{ChannelParams, Filter, FilterState, MatrixRow, Params};
pub use refusal::{Memory, NoRoom, PcmFault, ProfileFault, UnitTooLong, WaveField};
pub use restart::Restart;
pub use segment::{BlockHead, Code, FrameCode, Segment};
pub use unit::{DirEntry, Outer, UnitBytes, UnitHead};
