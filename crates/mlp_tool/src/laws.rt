//! What holds of inputs.
ghost use Rattle.std.specs.Prelude.{◌≡◌, ◌≤◌, ℕ, List, None, Ok};
ghost use Rattle.mlp_syntax.specs.declared.major.Kind.{Kind};
ghost use Rattle.mlp_answers.specs.Answers.{HasOneAnswer};
ghost use Rattle.mlp_check.specs.Checking.{checking};
ghost use Rattle.mlp_cut.specs.Cutting.{cutting};
ghost use Rattle.mlp_encoding.specs.Encoded.{Encoded};
ghost use Rattle.mlp_encoding.specs.Encodes.{HasOneAnswer as HasOneStream};
ghost use Rattle.mlp_encoding.specs.Wave.{WaveEncoded};
ghost use Rattle.mlp_extract.specs.Extracting.{extracting};
ghost use Rattle.mlp_fold.specs.declared.profile.Mix.{Mix};
ghost use Rattle.mlp_fold.specs.declared.profile.Profile.{Profile};
ghost use Rattle.mlp_fold.specs.Profile.{checked};
ghost use Rattle.mlp_gen.specs.Generated.{HasOneText};
ghost use Rattle.mlp_recover.specs.Laws.{HasOneRecovery};
ghost use Rattle.mlp_retime.specs.Retiming.{retiming};
ghost use Rattle.mlp_sessions.specs.Listing.{listing};
ghost use Rattle.mlp_sessions.specs.Playing.{playing};
ghost use Rattle.mlp_wave.specs.Saved.{HasOneFile};

/// Each input has one end and one output for each command that reads one, and for each presentation, profile, format and
/// mix, and `gen` has one for each profile, seed and number of units: so the answer of a run comes exactly where its
/// relation holds.
pub fn law_one_answer()
    ensures decode_raw { (k bits : ℕ) (all : List ℕ) → HasOneAnswer (playing k bits) all }
    ensures decode_wav { (k bits : ℕ) (all : List ℕ) → HasOneFile k bits all }
    ensures extract { (k : ℕ) (all : List ℕ) → HasOneAnswer (extracting k) all }
    ensures list { (all : List ℕ) → HasOneAnswer listing all }
    ensures check { (k : ℕ) (all : List ℕ) → HasOneAnswer (checking k) all }
    ensures cut { (f c : ℕ) (all : List ℕ) → HasOneAnswer (cutting f c) all }
    ensures recover { (k : ℕ) (all : List ℕ) → HasOneRecovery k all }
    ensures retime { (all : List ℕ) → HasOneAnswer retiming all }
    ensures encode_raw { (p : Profile) → checked p ≡ Ok tt → (all : List ℕ) → HasOneStream (Encoded p None) all }
    ensures encode_wav { (kind : Kind) (mix : Mix) (all : List ℕ) → HasOneStream (WaveEncoded kind mix) all }
    ensures generate { (p : Profile) (seed units : ℕ) (before : List ℕ) → 1 ≤ units → HasOneText p seed units before }
{}
