//! Where a segment stands, and what other segments and other units say of it.
use mlp_syntax::Kind;

/// Where a segment stands.
#[derive(Clone, Copy, Debug, PartialEq, Eq)]
pub struct Place {
    pub format: Kind,
    /// The number of frames of an access unit: 40, 80 or 160.
    pub unit_frames: u16,
    /// Whether its unit has a major sync.
    pub major: bool,
}

/// How substream 0's segment of the same unit ends.
#[derive(Clone, Copy, Debug, PartialEq, Eq)]
pub struct Ending {
    pub frames: u16,
    pub terminator: bool,
}

/// What is known of a segment from elsewhere. What isn't known isn't asked for.
#[derive(Clone, Copy, Debug, Default, PartialEq, Eq)]
pub struct Known {
    /// The greatest matrix channel of the substream's first restart, for every later one.
    pub max_matrix: Option<u8>,
    /// Bit c is set where an earlier substream of the unit codes channel c; for the last substream that is read.
    pub covered: Option<u8>,
    /// The check of the interval that a restart ends; for the last substream that is read, but in unit 0.
    pub lossless: Option<u8>,
    /// For substreams behind the first.
    pub first: Option<Ending>,
}
