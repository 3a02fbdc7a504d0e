//! What holds of PCM that is encoded.
ghost use Rattle.std.specs.Prelude.{◌≡◌, ℕ, List, None, Ok};
ghost use Rattle.mlp_syntax.specs.declared.major.Kind.{Kind};
ghost use Rattle.mlp_fold.specs.declared.profile.Mix.{Mix};
ghost use Rattle.mlp_fold.specs.declared.profile.Profile.{Profile};
ghost use Rattle.mlp_fold.specs.Profile.{checked};
ghost use Rattle.mlp_encoding.specs.Encoded.{Encoded};
ghost use Rattle.mlp_encoding.specs.Encodes.{HasOneAnswer};
ghost use Rattle.mlp_encoding.specs.Wave.{WaveEncoded};
ghost use Rattle.mlp_encoded.specs.Encoded.{RawIsSent, WaveIsSent, StreamIsLossless};

/// Where a command encodes PCM to its end, its output is a stream of all frames of the PCM. Each presentation of it has
/// as samples what the presentation shows of these frames, its units begin to arrive at the times of the earliest
/// schedule, arrive in time, and cost least.
pub fn law_encoded()
    ensures raw { RawIsSent }
    ensures wave { WaveIsSent }
    ensures lossless { StreamIsLossless }
{}

/// An input has one answer, of raw PCM and of a WAVE file.
pub fn law_one_answer()
    ensures raw { (p : Profile) → checked p ≡ Ok tt → (all : List ℕ) → HasOneAnswer (Encoded p None) all }
    ensures wave { (kind : Kind) (mix : Mix) (all : List ℕ) → HasOneAnswer (WaveEncoded kind mix) all }
{}
