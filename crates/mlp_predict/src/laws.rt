//! What holds of the definitions.

ghost use Rattle.std.specs.Prelude.{◌≡◌, ℕ, ◌<◌, ◌≤◌, List, ◌++◌, length, slice_index_or, ℤ, All, FitsSigned};
ghost use Rattle.std.specs.Int.{w32};
ghost use Rattle.mlp_arith.specs.Words.{clear};
ghost use Rattle.mlp_predict.specs.Prediction.{Filters, Past, outputs_of, residuals_of, past_of, with_state, latest, zeros, with_zeros};
ghost use Rattle.mlp_predict.specs.Outputs.{Frame, AreOutputs, IsWithin, AreWithin, before, left_by};
ghost use Rattle.mlp_predict.specs.Outputs.{output_after, steps_after, outputs_at, differences_at, predictions_at, past_at};
ghost use Rattle.mlp_predict.specs.Outputs.{outputs_from, past_from, frame_at, block_of, with_state_first};

/// The frames of a channel have one sequence of outputs, differences and predictions since the restart. Steps over the
/// latest values alone, at first zeros, give its outputs, and keep its latest outputs and differences.
pub fn law_outputs()
    ensures one { (frames : ℕ → Frame) →
        AreOutputs frames (outputs_at frames) (differences_at frames) (predictions_at frames) }
    ensures only { (frames : ℕ → Frame) (x e p x' e' p' : ℕ → ℤ) →
        AreOutputs frames x e p → AreOutputs frames x' e' p' →
        (i : ℕ) → (x i ≡ x' i) × (e i ≡ e' i) × (p i ≡ p' i) }
    ensures steps { (m n : ℕ) (frames : ℕ → Frame) (x e p : ℕ → ℤ)
        → AreWithin m n frames → AreOutputs frames x e p →
        (i : ℕ) → output_after (steps_after m n frames i) (frames i) ≡ x i }
    ensures kept { (m n : ℕ) (frames : ℕ → Frame) (x e p : ℕ → ℤ)
        → AreWithin m n frames → AreOutputs frames x e p →
        (i : ℕ) → let past : Past = record { outputs = before x i; differences = left_by frames e i } in
        steps_after m n frames i ≡ latest m n (with_zeros m n past) }
{}

/// Frames in a list, by steps over the latest values: since a restart they have the outputs of the whole sequence and
/// leave its latest values; joined lists follow one another; and frames of one pair of filters are a block.
pub fn law_frames()
    ensures count { (m n : ℕ) (past : Past) (frames : List Frame) →
        length (outputs_from m n past frames) ≡ length frames }
    ensures sequence { (m n : ℕ) (frames : List Frame) → All (IsWithin m n) frames →
        (i : ℕ) (d : ℤ) → i < length frames →
        slice_index_or (outputs_from m n (zeros m n) frames) i d ≡ outputs_at (frame_at frames) i }
    ensures past { (m n : ℕ) (frames : List Frame) → All (IsWithin m n) frames →
        past_from m n (zeros m n) frames ≡ latest m n (with_zeros m n (past_at (frame_at frames) (length frames))) }
    ensures join_outputs { (m n : ℕ) (past : Past) (first rest : List Frame) →
        outputs_from m n past (first ++ rest)
        ≡ outputs_from m n past first ++ outputs_from m n (past_from m n past first) rest }
    ensures join_past { (m n : ℕ) (past : Past) (first rest : List Frame) →
        past_from m n past (first ++ rest) ≡ past_from m n (past_from m n past first) rest }
    ensures block_outputs { (m n : ℕ) (f : Filters) (past : Past) (step : ℕ) (state rs : List ℤ) →
        length f.fir ≤ m → length f.iir ≤ n →
        outputs_from m n past (with_state_first state (block_of f step rs))
        ≡ outputs_of f (with_state state past) step rs }
    ensures block_past { (m n : ℕ) (f : Filters) (past : Past) (step : ℕ) (state rs : List ℤ) →
        length f.fir ≤ m → length f.iir ≤ n →
        0 < length rs → let given : Past = with_state state past in
        past_from m n past (with_state_first state (block_of f step rs))
        ≡ latest m n (past_of f given (outputs_of f given step rs)) }
{}

/// Residuals of samples without low `step` bits give back the samples.
pub fn law_back()
    ensures { (f : Filters) (past : Past) (step : ℕ) (samples : List ℤ)
        → All (λ x. clear step x ≡ x) samples →
        All (FitsSigned w32) samples → outputs_of f past step (residuals_of f past step samples) ≡ samples }
{}
