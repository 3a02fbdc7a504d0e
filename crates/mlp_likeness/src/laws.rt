//! What holds of a cut stream.
ghost use Rattle.std.specs.Prelude.{◌+◌, ◌≤◌, ℕ, List, length, Ok};
ghost use Rattle.mlp_bits.specs.Bits.{bits_of};
ghost use Rattle.mlp_layout.specs.Streams.{Stream};
ghost use Rattle.mlp_contents.specs.Units.{Unit_of, start, whole};
ghost use Rattle.mlp_io.specs.Limit.{limit};
ghost use Rattle.mlp_answers.specs.Answers.{Answer};
ghost use Rattle.mlp_cut.specs.Cut.{cut, HasSync};
ghost use Rattle.mlp_cut.specs.Cutting.{cutting};
ghost use Rattle.mlp_likeness.specs.Cut.{PlaysAlike};

/// A cut that begins at a unit with a major sync is a stream, and its units have the frames and samples that they have in the
/// whole: what comes before a major sync decides nothing behind it. It is what the command that cuts writes.
pub fn law_cut()
    ensures alike { (k f c : ℕ) (bytes : List ℕ) (us : List Unit_of)
        → Stream (whole k) (start k) k (bits_of bytes) us → 1 ≤ c → f + c ≤ length us → HasSync f us
        → PlaysAlike k f c us }
    ensures written { (k f c : ℕ) (bytes : List ℕ) (us : List Unit_of) → length bytes ≤ limit
        → Stream (whole k) (start k) k (bits_of bytes) us → f + c ≤ length us → HasSync f us
        → Answer (cutting f c) bytes (Ok tt) (cut f c us) }
{}
