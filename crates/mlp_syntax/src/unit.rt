//! The outer part of an access unit. Source: Dolby TrueHD (MLP) high-level bitstream description, "access_unit".
use crate::major::MajorSync;
use arrayvec::ArrayVec;

/// The bytes of one access unit, of which there are at most 8190.
pub type UnitBytes = ArrayVec<u8, 8190>;

/// The first four bytes of an access unit.
#[derive(Clone, Copy, Debug, Default, PartialEq, Eq)]
pub struct UnitHead {
    /// The check nibble, 4 bits.
    pub check: u8,
    /// The length of the whole unit in words of 16 bits, 12 bits.
    pub words: u16,
    /// The input timing in sample periods, modulo 2^16.
    pub timing: u16,
}

/// A directory entry, one for each substream.
#[derive(Clone, Copy, Debug, Default, PartialEq, Eq)]
pub struct DirEntry {
    /// The extra word behind the entry, which only TrueHD may have.
    pub extra: Option<u16>,
    pub restart_absent: bool,
    /// Whether the segment ends with a parity byte and a check byte.
    pub checked: bool,
    pub reserved: bool,
    /// Where the segment ends, in words of 16 bits from the directory's end, 12 bits.
    pub end: u16,
}

/// All of an access unit that lies outside its segments.
#[derive(Clone, Debug, PartialEq, Eq, Drop)]
pub struct Outer {
    pub head: UnitHead,
    pub major: Option<MajorSync>,
    pub entries: ArrayVec<DirEntry, 4>,
    /// The byte of the unit at which the segments begin.
    pub body: u32,
}
