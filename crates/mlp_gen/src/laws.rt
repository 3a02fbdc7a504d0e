//! What holds of the command.
ghost use Rattle.std.specs.Prelude.{◌≤◌, ℕ, List};
ghost use Rattle.mlp_fold.specs.declared.profile.Profile.{Profile};
ghost use Rattle.mlp_gen.specs.Generated.{HasOneText};

/// A profile, a seed and a number of units have one end and one text: runs that have memory and whose writes don't fail
/// end alike, and write the same.
pub fn law_one_text()
    ensures { (p : Profile) (seed units : ℕ) (before : List ℕ) → 1 ≤ units → HasOneText p seed units before }
{}
