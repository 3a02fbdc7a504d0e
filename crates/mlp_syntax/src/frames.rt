//! The frames of one access unit.
use arrayvec::ArrayVec;

/// At most 160 frames. Of each row the first `channels` samples count, and the others are 0.
#[derive(Debug, Default, PartialEq, Drop)]
pub struct Frames {
    pub channels: u8,
    pub rows: ArrayVec<[i32; 8], 160>,
}
