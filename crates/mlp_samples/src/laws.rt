//! What holds of the samples of streams.
ghost use Rattle.std.specs.Prelude.{◌≡◌, ℕ, List, Bool};
ghost use Rattle.mlp_layout.specs.Streams.{Begins, left_after};
ghost use Rattle.mlp_contents.specs.Units.{Unit_of, whole, start};
ghost use Rattle.mlp_samples.specs.Samples.{frames_by_steps, samples};
ghost use Rattle.mlp_samples.specs.Leaving.{IsLeft};

/// The frames that units give, each by what those before it leave, are the samples by whole sequences since their
/// restart.
pub fn law_samples()
    ensures { (k : ℕ) (all rest : List Bool) (us : List Unit_of) →
        Begins (whole k) (start k) all us rest → frames_by_steps k (start k) us ≡ samples k us }
{}

/// What units leave is what the whole sequences since the last major sync leave: the parameters in force, the latest
/// outputs and differences of each channel, the seed of the noise, and the check.
pub fn law_left()
    ensures { (k : ℕ) (all rest : List Bool) (us : List Unit_of) →
        Begins (whole k) (start k) all us rest → IsLeft k us (left_after (whole k) (start k) us) }
{}
