//! What holds of the streams that are sent.

ghost use Rattle.std.specs.Prelude.{◌<◌, ℕ};
ghost use Rattle.mlp_contents.specs.Units.{start};
ghost use Rattle.mlp_fold.specs.declared.profile.Profile.{Profile};
ghost use Rattle.mlp_fold.specs.Substreams.{substreams_of};
ghost use Rattle.mlp_encode.specs.Left.{going};
ghost use Rattle.mlp_encode.specs.Unit.{joined};
ghost use Rattle.mlp_lossless.specs.Streams.{all_frames};
ghost use Rattle.mlp_lossless.specs.Following.{Follows};
ghost use Rattle.mlp_lossless.specs.Lossless.{GivesBack, ArrivesEarliest, ArrivesInTime, EachSent};
ghost use Rattle.mlp_lossless.specs.Chosen.{IsChosenStream};
ghost use Rattle.mlp_lossless.specs.Next.{EachFollowed, EachAdded};
ghost use Rattle.mlp_lossless.specs.Rooms.{WholeHasRoom, BegunHasRoom, WholeStops, BegunStops};

/// The bytes that are sent of PCM, where each unit has a place in time, are a stream of each presentation of the
/// profile, with what the presentation shows of each frame as its samples.
pub fn law_lossless()
    ensures { EachSent (λ p frames units j. GivesBack p j (all_frames frames) (joined units)) }
{}

/// The units that are sent begin to arrive at the times of the earliest schedule of their lengths, as their input
/// timings tell, and each restart header tells the time at which its unit is output.
pub fn law_fits()
    ensures { EachSent (λ p frames units j. ArrivesEarliest p j units) }
{}

/// Each unit that is sent has arrived by the time of its output, within the buffer of its kind of stream.
pub fn law_timed()
    ensures { EachSent (λ p frames units j. ArrivesInTime p j units) }
{}

/// What is sent is what costs least: a major sync stands in every 16th unit and is always the same, nothing is carried,
/// and in each block the parameters and codes of a channel are the choice that costs least for the outputs that the
/// stream itself has there, against the parameters in force and its own latest outputs and differences.
pub fn law_sent()
    ensures { EachSent (λ p frames units j. IsChosenStream p j units) }
{}

/// Before the first unit a decoder follows the encoder.
pub fn law_start()
    ensures { (p : Profile) (j : ℕ) → j < substreams_of p.channels → Follows j (going p) (start j) }
{}

/// At 44100 and 48000 samples a second each unit that is sent has a place in time: no stream is refused.
pub fn law_single_rates()
    ensures whole { WholeHasRoom }
    ensures begun { BegunHasRoom }
{}

/// A stream is refused at the first unit up to which the lengths have no schedule, and at no other.
pub fn law_refusal()
    ensures whole { WholeStops }
    ensures begun { BegunStops }
{}

/// The next unit that is sent is the next one of each decoder that follows. It gives what its presentation shows of the
/// frames, and unless the unit is the last the decoder follows on.
pub fn law_follows()
    ensures followed { EachFollowed }
    ensures added { EachAdded }
{}
