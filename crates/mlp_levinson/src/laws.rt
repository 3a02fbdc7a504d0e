//! What holds of computed filters.

ghost use Rattle.std.specs.Prelude.{◌≤◌, ◌↔◌, ℕ, ℤ, List, IsSome, IfSome};
ghost use Rattle.mlp_levinson.specs.Computed.{filter_over};
ghost use Rattle.mlp_levinson.specs.Best.{ArePositive, IsComputed};

/// Over any lags there is a filter of an order exactly where the errors of all lower orders are positive. Up to order 8
/// it has the greatest shift and the fewest bits that serve.
pub fn law_computed()
    ensures there { (rs : List ℤ) (n : ℕ) → IsSome (filter_over rs n) ↔ ArePositive rs n }
    ensures best { (rs : List ℤ) (n : ℕ) → n ≤ 8 → IfSome (filter_over rs n) (IsComputed rs n) }
{}
