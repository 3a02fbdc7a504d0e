//! What holds of a decoder and its streams.
ghost use Rattle.std.specs.Prelude.{◌≡◌, ◌≤◌, ℕ, List, [], true, false, length};
ghost use Rattle.mlp_walk.specs.Meaning.{NextMeans, EndMeans};
ghost use Rattle.mlp_contents.specs.Units.{Left, Unit_of, start, whole};
ghost use Rattle.mlp_present.specs.Decoding.{opened, after_units, is_open_behind};
ghost use Rattle.mlp_present.specs.Laws.{HoldsUnits, GoesOn, ByBits, HasNone, IsSettled, Stays, NextStays};

/// What the answers of a decoder mean for the whole stream: with the units that it took, the next one begins the stream, or
/// the stream breaks there, or has no such presentation; and where no bytes are left behind a unit, the units are all. More
/// bytes change nothing of an answer that doesn't wait for them.
pub fn law_decoder()
    ensures next { (k : ℕ) → NextMeans (whole k) (start k) }
    ensures last { (k : ℕ) → EndMeans (whole k) (start k) }
    ensures settled { (k : ℕ) (left : Left) (next more : List ℕ) → NextStays k left next more }
{}

/// Behind any units a decoder holds what they leave and their number, and one more unit moves it on by `after_unit`.
pub fn law_history()
    ensures holds { (k : ℕ) (us : List Unit_of) → HoldsUnits k us (after_units (opened k) us) }
    ensures goes_on { (k : ℕ) (us : List Unit_of) (u : Unit_of) → GoesOn k us u }
{}

/// Where the next unit doesn't depend on bytes behind these, more of them change nothing of what is read of its outer part.
/// Where it does, no unit is there yet. Of no bytes it does, and of 8190 it doesn't.
pub fn law_waits()
    ensures bits { (left : Left) (xs ys : List ℕ) → ByBits left xs ys }
    ensures empty { (left : Left) → is_open_behind left [] ≡ true }
    ensures enough { (left : Left) (next : List ℕ) → 8190 ≤ length next → is_open_behind left next ≡ false }
    ensures none { (k : ℕ) (left : Left) (next : List ℕ) → HasNone k left next }
    ensures stays { (left : Left) (next more : List ℕ) → Stays left next more }
    ensures settled { (k : ℕ) (left : Left) (next more : List ℕ) → IsSettled k left next more }
{}
