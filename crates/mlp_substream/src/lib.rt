//! Substream segments, by the MLP substream syntax as publicly documented.
//!
//! A segment is the part of one substream in one access unit: blocks up to a last one, each with a restart and
//! parameters or without, padding up to a multiple of 16 bits, perhaps a terminator, and perhaps two bytes of checks.
//! It is read against what is in force behind the substream's earlier segments. What other substreams and other units
//! decide of it is handed in as plain data, [`Known`].
#![tactic(auto)]

mod blocks;
mod ends;
mod heads;
mod known;
pub mod laws;
mod restarts;
mod segment;
mod writing;
mod writing_blocks;
mod writing_heads;

pub use heads::put_head;
pub use known::{Ending, Known, Place};
pub use segment::{read_segment, read_segment_into};
pub use writing::{write_segment, write_segment_with};
