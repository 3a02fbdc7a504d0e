//! What holds of places.
ghost use Rattle.std.specs.Prelude.{◌≡◌, ◌+◌, ◌<◌, ◌≤◌, ℕ, ℤ, pos, List, All, length, slice_index, slice_index_or};
ghost use Rattle.mlp_syntax.specs.declared.major.Kind.{Kind};
ghost use Rattle.mlp_syntax.specs.declared.restart.Restart.{Restart};
ghost use Rattle.mlp_layout.specs.Allowed.{Allowed};
ghost use Rattle.mlp_params.specs.RestartHeader.{restart};
ghost use Rattle.mlp_output.specs.Output.{placed};
ghost use Rattle.mlp_output.specs.Places.{IsAssignment, IsUnassigned};

/// An output channel has the sample of the matrix channel that is assigned to it, and one that nothing is assigned to
/// has 0. The rules on restart headers give each matrix channel an output channel of its own, none above the greatest
/// of them.
pub fn law_placed()
    ensures assigned { (assign : List ℕ) (samples : List ℤ) (c : ℕ) → IsAssignment assign →
        c < length assign → c < length samples →
        slice_index_or (placed assign samples) (slice_index assign c) (pos 0)
        ≡ slice_index_or samples c (pos 0) }
    ensures others { (assign : List ℕ) (samples : List ℤ) (a : ℕ) → IsUnassigned assign a
        → slice_index_or (placed assign samples) a (pos 0) ≡ pos 0 }
    ensures restarts { (format : Kind) (r : Restart) → Allowed (restart format) r →
        IsAssignment r.assign.items }
    ensures count { (format : Kind) (r : Restart) → Allowed (restart format) r →
        length r.assign.items ≡ r.max_matrix + 1 }
    ensures within { (format : Kind) (r : Restart) → Allowed (restart format) r →
        All (λ a. a ≤ r.max_matrix) r.assign.items }
{}
