//! What holds of extractions.
ghost use Rattle.std.specs.Prelude.{◌≤◌, ℕ, Bool, List, Ok, Result, length};
ghost use Rattle.mlp_io.specs.Limit.{limit};
ghost use Rattle.mlp_bits.specs.Bits.{bits_of};
ghost use Rattle.mlp_layout.specs.Streams.{Stream};
ghost use Rattle.mlp_stream.specs.declared.stop.Stop.{Stop};
ghost use Rattle.mlp_answers.specs.Answers.{Answer, Answers, HasOneAnswer};
ghost use Rattle.mlp_contents.specs.Units.{Unit_of, start, whole};
ghost use Rattle.mlp_extract.specs.Extract.{extract};
ghost use Rattle.mlp_extract.specs.Extracting.{extracting};
ghost use Rattle.mlp_extract.specs.Laws.{IsExtraction};

/// An input has one answer of an extraction.
pub fn law_one_answer()
    ensures { (k : ℕ) (all : List ℕ) → HasOneAnswer (extracting k) all }
{}

/// Of a stream for the presentation comes out what the presentation needs of its units, and the end is good. Of any bytes,
/// whatever the end, comes out what it needs of units that they begin with.
pub fn law_pieces()
    ensures stream { (k : ℕ) (bytes : List ℕ) (us : List Unit_of) → length bytes ≤ limit
        → Stream (whole k) (start k) k (bits_of bytes) us → Answer (extracting k) bytes (Ok tt) (extract k us) }
    ensures any { (k : ℕ) (ended : Bool) (bytes : List ℕ) (end : Result Unit Stop) (output : List ℕ)
        → Answers (extracting k) ended bytes end output → IsExtraction k bytes output }
{}
