//! Why a run fails.
ghost use Rattle.std.specs.Prelude.{◌≡◌};
ghost use Rattle.mlp_answers.specs.Failures.{failure_by, end_of};

use mlp_stream::Stop;

/// Why a run doesn't do all of its work.
#[derive(Clone, Copy, Debug, PartialEq, Eq)]
pub enum Failure {
    /// The words are no plain form.
    Usage,
    /// There is no memory for the work.
    OutOfMemory,
    /// The work on the input stopped.
    Stopped(Stop),
}

/// Why work into memory stops: a write fails for want of it.
pub fn failure_by(stop: Stop) -> Failure
    ensures { result ≡ failure_by stop }
{
    match stop {
        Stop::WriteFault => Failure::OutOfMemory,
        Stop::Refused(_) | Stop::ReadFault | Stop::TooLong => Failure::Stopped(stop),
    }
}

/// The end of a run, by that of the work on its input.
pub fn end_of(end: Result<(), Stop>) -> Result<(), Failure>
    ensures { result ≡ end_of end }
{
    match end {
        Ok(()) => Ok(()),
        Err(stop) => Err(Failure::Stopped(stop)),
    }
}
