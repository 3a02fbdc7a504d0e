//! Where a unit's segments break a rule.
use mlp_syntax::Field;

/// The first rule that fails in the segments of a unit.
#[derive(Clone, Copy, Debug, PartialEq, Eq)]
pub struct SegmentFault {
    pub substream: u8,
    pub field: Field,
    /// The first bit of the field, counted from the unit's first bit.
    pub bit: u32,
}
