//! What holds of recovery.
ghost use Rattle.std.specs.Prelude.{ℕ, List, drop};
ghost use Rattle.mlp_contents.specs.Units.{Unit_of};
ghost use Rattle.mlp_recover.specs.Interval.{GoesOn, Interval};
ghost use Rattle.mlp_recover.specs.Laws.{IsOneInterval, CarriesCheck, HasOneRecovery};

/// At most one interval begins at a byte, and bytes have pieces, and no others.
pub fn law_recovered()
    ensures interval { (k : ℕ) (bytes : List ℕ) (first : ℕ) → IsOneInterval k bytes first }
    ensures one { (k : ℕ) (bytes : List ℕ) → HasOneRecovery k bytes }
{}

/// Where a unit with a major sync goes on behind an interval, its restart carries the interval's lossless check.
pub fn law_check()
    ensures { (k : ℕ) (bytes : List ℕ) (first past : ℕ) (us : List Unit_of) → Interval k bytes first past us
        → (next : GoesOn k us (drop past bytes)) → CarriesCheck k us next.unit }
{}
