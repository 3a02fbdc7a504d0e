//! What holds of rows and of the noise.

ghost use Rattle.std.specs.Prelude.{◌≡◌, ◌+◌, ℕ, ℤ, pos, List, [], ◌∷◌};
ghost use Rattle.mlp_syntax.specs.declared.params.MatrixRow.{MatrixRow};
ghost use Rattle.mlp_matrix.specs.Front.{AreWithin, MakeFront, MakeFronts};
ghost use Rattle.mlp_matrix.specs.Noise.{noise_values, next_seed, seed_at, AreNoisy};

/// Rows without coefficients past the first `m` places make of these, and of these alone,
/// what they make of a frame there.
pub fn law_front()
    ensures frame { (m : ℕ) (rows : List MatrixRow) → AreWithin m rows → MakeFront m rows }
    ensures frames { (m : ℕ) (rows : List MatrixRow) → AreWithin m rows → MakeFronts m rows }
{}

/// The seeds of the frames behind a restart: each is the next of the one before, and from 0 on all are 0.
pub fn law_seeds()
    ensures first { (seed : ℕ) → seed_at seed 0 ≡ seed }
    ensures next { (seed n : ℕ) → seed_at seed (n + 1) ≡ next_seed (seed_at seed n) }
    ensures join { (seed m n : ℕ) → seed_at (seed_at seed m) n ≡ seed_at seed (m + n) }
    ensures zero { (n : ℕ) → seed_at 0 n ≡ 0 }
{}

/// Each frame has the noise of its own seed, and a seed of 0 gives no noise.
pub fn law_noise()
    ensures each { (shift channels seed : ℕ) (frames : List (List ℤ)) → AreNoisy shift channels seed frames }
    ensures silent { (shift : ℕ) → noise_values shift 0 ≡ pos 0 ∷ pos 0 ∷ [] }
{}
