//! What holds of whole units.
ghost use Rattle.std.specs.Prelude.{ℕ, List, Bool};
ghost use Rattle.mlp_layout.specs.Streams.{HasOne};
ghost use Rattle.mlp_walk.specs.Next.{TakesBytes};
ghost use Rattle.mlp_contents.specs.Units.{start, whole};

/// Bits are a stream for presentation k of one list of units, or break in one unit with one fault, or have no
/// presentation k.
pub fn law_one()
    ensures { (k : ℕ) (all : List Bool) → HasOne (whole k) (start k) k all }
{}

/// A unit takes whole bytes.
pub fn law_bytes()
    ensures { (k : ℕ) → TakesBytes (whole k) }
{}
