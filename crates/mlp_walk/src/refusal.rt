//! Why a stream isn't read on.
use mlp_syntax::Fault;

/// What whoever reads a stream's units refuses.
#[derive(Clone, Copy, Debug, PartialEq, Eq)]
pub enum Refusal {
    /// The first rule that fails.
    Fault(Fault),
    /// The stream has so many presentations, and not the one that was asked for.
    NoPresentation { have: u8 },
}
