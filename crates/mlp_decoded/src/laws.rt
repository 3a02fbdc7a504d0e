//! What holds of what decoding a stream writes.
ghost use Rattle.std.specs.Prelude.{◌≡◌, ◌<◌, ◌≤◌, ◌++◌, ◌∷◌, ℕ, List, [], None, Some, Ok, length};
ghost use Rattle.mlp_bits.specs.Bits.{bits_of};
ghost use Rattle.mlp_io.specs.Limit.{limit};
ghost use Rattle.mlp_layout.specs.Streams.{Stream};
ghost use Rattle.mlp_stream.specs.declared.refusal.Refusal.TheVariants.{LowBits};
ghost use Rattle.mlp_answers.specs.Answers.{refusing};
ghost use Rattle.mlp_contents.specs.Units.{Unit_of, start, whole};
ghost use Rattle.mlp_pcm.specs.Samples.{first_low};
ghost use Rattle.mlp_samples.specs.Samples.{samples};
ghost use Rattle.mlp_decoded.specs.Decoded.{channels, decoded, Writes};

/// Of a stream the command that decodes writes the samples of its presentation, and ends well: in 24 bits whatever they
/// are, in 16 bits where no sample has more. Where one has, it writes what the units before that frame's decode to, and
/// refuses the first such frame by its number.
pub fn law_decoded()
    ensures all { (k : ℕ) (bytes : List ℕ) (us : List Unit_of) → length bytes ≤ limit
        → Stream (whole k) (start k) k (bits_of bytes) us → Writes k 24 bytes (Ok tt) (decoded k 24 us) }
    ensures clear { (k bits : ℕ) (bytes : List ℕ) (us : List Unit_of) → length bytes ≤ limit
        → Stream (whole k) (start k) k (bits_of bytes) us → first_low bits (channels k us) (samples k us) ≡ None
        → Writes k bits bytes (Ok tt) (decoded k bits us) }
    ensures low { (k bits i : ℕ) (bytes : List ℕ) (before us : List Unit_of) (u : Unit_of) → length bytes ≤ limit
        → Stream (whole k) (start k) k (bits_of bytes) (before ++ u ∷ us)
        → first_low bits (channels k (before ++ u ∷ us)) (samples k (before ++ u ∷ us)) ≡ Some i
        → length (samples k before) ≤ i → i < length (samples k (before ++ u ∷ []))
        → Writes k bits bytes (refusing (LowBits i)) (decoded k bits before) }
{}
