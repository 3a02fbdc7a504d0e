//! How many bytes are taken of an input.

/// The most bytes of an input. One more may be taken, which shows that the input goes on.
pub const LIMIT: u64 = 1 << 40;
