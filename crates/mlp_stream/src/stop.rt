//! Why the loop stops.
use crate::refusal::Refusal;

/// Why the loop stops before the end.
#[derive(Clone, Copy, Debug, PartialEq, Eq)]
pub enum Stop {
    /// The session refuses the input.
    Refused(Refusal),
    /// A read failed.
    ReadFault,
    /// A write failed.
    WriteFault,
    /// The input has more than 2^40 bytes, and up to there the session refuses nothing.
    TooLong,
}
