//! What holds of streams for lower presentations, and of extractions.
ghost use Rattle.std.specs.Prelude.{◌≡◌, ◌≤◌, ℕ, Bool, List, map};
ghost use Rattle.mlp_bits.specs.Bits.{bits_of};
ghost use Rattle.mlp_layout.specs.Streams.{Stream};
ghost use Rattle.mlp_contents.specs.Units.{Unit_of, start, whole};
ghost use Rattle.mlp_extract.specs.Extract.{extract};
ghost use Rattle.mlp_check.specs.Checking.{KeepTiming};
ghost use Rattle.mlp_samples.specs.Behind.{left_behind};
ghost use Rattle.mlp_extracted.specs.Lower.{lowered};
ghost use Rattle.mlp_extracted.specs.Extracted.{extracted_units, PlaysSame, IsExtractedFrom};

/// Where bits are a stream for two presentations they are the same units: the lower presentation reads the first of the
/// segments that the higher one reads.
pub fn law_lower()
    ensures { (j k : ℕ) (all : List Bool) (us vs : List Unit_of) → j ≤ k → Stream (whole k) (start k) k all us
        → Stream (whole j) (start j) j all vs → vs ≡ map (lowered j) us }
{}

/// An extraction of presentation k of a stream is a stream for k. For each presentation up to k it is a stream exactly where
/// the bytes are one, with the same frames and samples, and what is extracted of it is what is extracted of them. Where the
/// units had the timing of a stream, so have those of the extraction.
pub fn law_ex()
    ensures stream { (k : ℕ) (bytes : List ℕ) (us : List Unit_of) → Stream (whole k) (start k) k (bits_of bytes) us
        → Stream (whole k) (start k) k (bits_of (extract k us)) (extracted_units k us) }
    ensures same { (j k : ℕ) (bytes : List ℕ) (us vs : List Unit_of) → j ≤ k
        → Stream (whole k) (start k) k (bits_of bytes) us → Stream (whole j) (start j) j (bits_of bytes) vs
        → PlaysSame k j (extract k us) vs }
    ensures only { (j k : ℕ) (bytes : List ℕ) (us ws : List Unit_of) → j ≤ k
        → Stream (whole k) (start k) k (bits_of bytes) us → Stream (whole j) (start j) j (bits_of (extract k us)) ws
        → IsExtractedFrom k j bytes ws }
    ensures timed { (k : ℕ) (bytes : List ℕ) (us : List Unit_of) → Stream (whole k) (start k) k (bits_of bytes) us
        → KeepTiming (left_behind k us).sync us
        → KeepTiming (left_behind k (extracted_units k us)).sync (extracted_units k us) }
{}
