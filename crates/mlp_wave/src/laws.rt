//! What holds of inputs.
ghost use Rattle.std.specs.Prelude.{◌<◌, ◌≤◌, ℕ, List, [], Ok, Err, length};
ghost use Rattle.mlp_stream.specs.declared.stop.Stop.TheVariants.{TooLong};
ghost use Rattle.mlp_pcm.specs.WaveHeader.{padded};
ghost use Rattle.mlp_contents.specs.Units.{Unit_of};
ghost use Rattle.mlp_decoded.specs.Decoded.{decoded};
ghost use Rattle.mlp_wave.specs.Laws.{IsHeld, stream_file};
ghost use Rattle.mlp_wave.specs.Saved.{Saves, HasOneFile};
ghost use Rattle.mlp_wave.specs.WaveFile.{most_of_samples};

/// Each input has one end and one file, or no file, for each presentation and number of bits.
pub fn law_one_file()
    ensures { (k bits : ℕ) (all : List ℕ) → HasOneFile k bits all }
{}

/// Of a stream the file has the samples of its presentation, in its channels and at the stream's rate. Where the header can't
/// state how many bytes they have, there is no file.
pub fn law_file()
    ensures file { (k bits : ℕ) (bytes : List ℕ) (us : List Unit_of) → IsHeld k bits bytes us
        → padded (length (decoded k bits us)) ≤ most_of_samples
        → Saves k bits bytes (Ok tt) (stream_file k bits us) }
    ensures none { (k bits : ℕ) (bytes : List ℕ) (us : List Unit_of) → IsHeld k bits bytes us
        → most_of_samples < padded (length (decoded k bits us)) → Saves k bits bytes (Err TooLong) [] }
{}
