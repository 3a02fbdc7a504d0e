//! What holds of cuts.
ghost use Rattle.std.specs.Prelude.{◌≤◌, ℕ, List, length};
ghost use Rattle.mlp_io.specs.Limit.{limit};
ghost use Rattle.mlp_unit.specs.Outline.{Outline};
ghost use Rattle.mlp_answers.specs.Answers.{HasOneAnswer};
ghost use Rattle.mlp_cut.specs.Cutting.{OuterUnit, cutting};
ghost use Rattle.mlp_cut.specs.Laws.{IsCut};

/// An input has one answer of a cut.
pub fn law_one_answer()
    ensures { (f c : ℕ) (all : List ℕ) → HasOneAnswer (cutting f c) all }
{}

/// Of bytes that are units the units of the cut come out, and nothing else.
pub fn law_pieces()
    ensures { (f c : ℕ) (bytes : List ℕ) (us : List OuterUnit) → length bytes ≤ limit → Outline bytes us
        → IsCut f c bytes us }
{}
