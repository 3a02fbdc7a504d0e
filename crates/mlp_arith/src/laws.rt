//! What holds of the definitions, over all whole numbers.

ghost use Rattle.std.specs.Prelude.{◌≡◌, ℕ, ◌<◌, ◌≤◌, ◌^◌, ℤ, pos, ◌+ℤ◌, ◌-ℤ◌, ◌*ℤ◌, ◌≤ℤ◌, ◌<ℤ◌, FitsSigned};
ghost use Rattle.std.specs.Int.{w32};
ghost use Rattle.mlp_arith.specs.Words.{floor_by, floor_over, clear, wrap, low24, IsFloor, IsResidue};

/// The quotient rounded down is the only one that its two bounds allow, and multiples of the divisor pass through it.
pub fn law_floor()
    ensures is { (n : ℕ) (v : ℤ) → 0 < n → IsFloor n v (floor_over n v) }
    ensures only { (n : ℕ) (v q : ℤ) → 0 < n → IsFloor n v q → floor_over n v ≡ q }
    ensures add { (n : ℕ) (v k : ℤ) → 0 < n → floor_over n (v +ℤ k *ℤ pos n) ≡ floor_over n v +ℤ k }
    ensures power { (n : ℕ) (v : ℤ) → floor_by n v ≡ floor_over (2 ^ n) v }
{}

/// Clearing takes away less than 2^q, and leaves multiples of 2^q as they are.
pub fn law_clear()
    ensures low { (q : ℕ) (v : ℤ) → (clear q v) ≤ℤ v }
    ensures high { (q : ℕ) (v : ℤ) → v <ℤ (clear q v +ℤ pos (2 ^ q)) }
    ensures twice { (q : ℕ) (v : ℤ) → clear q (clear q v) ≡ clear q v }
    ensures add { (q : ℕ) (v k : ℤ) → clear q (v +ℤ k *ℤ pos (2 ^ q)) ≡ clear q v +ℤ k *ℤ pos (2 ^ q) }

    // A sample without low bits is made again from what is left of it above its cleared prediction.
    ensures back { (q : ℕ) (p x : ℤ) → clear q x ≡ x → FitsSigned w32 x →
        wrap (clear q (p +ℤ (x -ℤ clear q p))) ≡ x }
{}

/// A wrapped value is the only one of its range and remainder,
/// and it doesn't matter when sums and products are wrapped.
pub fn law_wrap()
    ensures is { (v : ℤ) → IsResidue 32 v (wrap v) }
    ensures only { (v r : ℤ) → IsResidue 32 v r → wrap v ≡ r }
    ensures sum { (a b : ℤ) → wrap (wrap a +ℤ wrap b) ≡ wrap (a +ℤ b) }
    ensures multiple { (a k : ℤ) → wrap (wrap a *ℤ k) ≡ wrap (a *ℤ k) }
    ensures fitting { (v : ℤ) → FitsSigned w32 v → wrap v ≡ v }
{}

/// The low 24 bits as a signed number are the only one of its range and remainder.
pub fn law_low24()
    ensures is { (v : ℤ) → IsResidue 24 v (low24 v) }
    ensures only { (v r : ℤ) → IsResidue 24 v r → low24 v ≡ r }
    ensures wrapped { (v : ℤ) → low24 (wrap v) ≡ low24 v }
{}
