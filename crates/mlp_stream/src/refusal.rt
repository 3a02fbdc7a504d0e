//! What a session may refuse.
use mlp_syntax::{Fault, NoRoom, PcmFault};

/// Why a session takes no more of its input.
#[derive(Clone, Copy, Debug, PartialEq, Eq)]
pub enum Refusal {
    /// A rule of the stream's format fails.
    Fault(Fault),
    /// The PCM can't be encoded.
    Pcm(PcmFault),
    /// The access units up to one have no schedule.
    NoRoom(NoRoom),
    /// The stream has only so many presentations.
    NoPresentation { have: u8 },
    /// A sample of this frame of the output has a low byte that 16 bits don't hold.
    LowBits { frame: u64 },
    /// The access unit at which a cut begins has no restart.
    NoRestart { unit: u64 },
    /// The stream ends before a cut does, after so many access units.
    NotThere { units: u64 },
}
