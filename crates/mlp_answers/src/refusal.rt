//! What is refused of a stream, as a session refuses it.
ghost use Rattle.std.specs.Prelude.{◌≡◌};
ghost use Rattle.mlp_answers.specs.Reading.{refusal_of, no_unit};

use mlp_stream::Refusal;
use mlp_syntax::{Fault, Field};

/// What whoever reads a stream's units refuses, a session refuses.
pub fn refusal_of(refusal: mlp_walk::Refusal) -> Refusal
    ensures { result ≡ refusal_of refusal }
{
    match refusal {
        mlp_walk::Refusal::Fault(fault) => Refusal::Fault(fault),
        mlp_walk::Refusal::NoPresentation { have } => Refusal::NoPresentation { have },
    }
}

/// Why an input without bytes is refused.
pub fn no_unit() -> Refusal
    ensures { result ≡ no_unit }
{
    Refusal::Fault(Fault {
        unit: 0,
        substream: 0,
        field: Field::UnitHeader,
        bit: 0,
    })
}
