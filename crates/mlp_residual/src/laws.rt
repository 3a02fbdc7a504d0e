//! What holds of the codes of residuals and of frames.
ghost use Rattle.std.specs.Prelude.{◌≡◌, ℕ, ℤ, List, FitsSigned};
ghost use Rattle.std.specs.Int.{w32};
ghost use Rattle.mlp_syntax.specs.declared.segment.Code.{Code};
ghost use Rattle.mlp_layout.specs.Layout.{IsLayout};
ghost use Rattle.mlp_params.specs.declared.state.State.{State};
ghost use Rattle.mlp_residual.specs.Coding.{Spells, residual_of, code_with, TakeBits};
ghost use Rattle.mlp_residual.specs.declared.frames.Coding.{Coding};
ghost use Rattle.mlp_residual.specs.Frames.{coded_frames, frames_of};

/// A residual has at most one code, of which it is the residual and which has a spelling, and residuals take one number
/// of bits.
pub fn law_codes()
    ensures one { (book b step : ℕ) (offset r : ℤ) (c d : Code) →
        Spells book b offset step r c → Spells book b offset step r d → c ≡ d }
    ensures back { (book b step : ℕ) (offset r : ℤ) (c : Code) →
        FitsSigned w32 r → Spells book b offset step r c → residual_of book b offset step c ≡ r }
    ensures spelled { (book b step : ℕ) (offset r : ℤ) (c : Code) →
        Spells book b offset step r c → (code_with book b).Fits c }
    ensures bits { (book b step : ℕ) (offset : ℤ) (rs : List ℤ) (m n : ℕ) →
        TakeBits book b offset step rs m → TakeBits book b offset step rs n → m ≡ n }
{}

/// What is read as frames is spelled so, what is spelled so is read, and a fault is read exactly where it stands.
pub fn law_frames()
    ensures coded { (k : Coding) (count : ℕ) → IsLayout (coded_frames k count) }
    ensures in_force { (s : State) (count : ℕ) → IsLayout (frames_of s count) }
{}
