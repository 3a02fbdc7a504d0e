//! What holds of the next unit.
ghost use Rattle.std.specs.Prelude.{◌≡◌, ◌≤◌, [], length, true, false, List, ℕ, Option};
ghost use Rattle.mlp_syntax.specs.declared.major.MajorSync.{MajorSync};
ghost use Rattle.mlp_outline.specs.Next.{is_open, ClosedIsDecided, OpenHasNone, OpenByBits, ClosedStays};

/// Where the next unit doesn't depend on bytes behind these, more of them change nothing of what is read of it. Where
/// it does, no unit is there yet. Of no bytes it does, and of 8190 it doesn't.
pub fn law_open()
    ensures closed { (first : Option MajorSync) (next : List ℕ) → ClosedIsDecided first next }
    ensures none { (first : Option MajorSync) (next : List ℕ) → OpenHasNone first next }
    ensures bits { (xs ys : List ℕ) → OpenByBits xs ys }
    ensures empty { is_open [] ≡ true }
    ensures enough { (bytes : List ℕ) → 8190 ≤ length bytes → is_open bytes ≡ false }
    ensures stays { (next more : List ℕ) → ClosedStays next more }
{}
