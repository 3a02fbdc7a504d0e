//! What holds of the simplest layouts. Of the others it is a lemma of `proofs/`, since they are over any values.
ghost use Rattle.std.specs.Prelude.{ℕ};
ghost use Rattle.mlp_layout.specs.Layout.{IsLayout, number_of};
ghost use Rattle.mlp_layout.specs.Combined.{flag, signed_of};

/// What is read as a number, one bit or a signed number stands there, and what stands there is read; so it is with what
/// fails.
pub fn law_numbers()
    ensures number { (width : ℕ) → IsLayout (number_of width) }
    ensures flag { IsLayout flag }
    ensures signed { (width : ℕ) → IsLayout (signed_of width) }
{}
