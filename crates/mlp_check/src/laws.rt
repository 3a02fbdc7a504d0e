//! What holds of checking a stream.
ghost use Rattle.std.specs.Prelude.{◌≤◌, ℕ, List, length};
ghost use Rattle.mlp_bits.specs.Bits.{bits_of};
ghost use Rattle.mlp_io.specs.Limit.{limit};
ghost use Rattle.mlp_layout.specs.Streams.{Stream};
ghost use Rattle.mlp_answers.specs.Answers.{HasOneAnswer};
ghost use Rattle.mlp_contents.specs.Units.{Unit_of, start, whole};
ghost use Rattle.mlp_check.specs.Checking.{checking};
ghost use Rattle.mlp_check.specs.Laws.{HasReport};

/// An input has one answer.
pub fn law_one_answer()
    ensures { (k : ℕ) (all : List ℕ) → HasOneAnswer (checking k) all }
{}

/// Of a stream its report comes out, of which there is one, and nothing else.
pub fn law_report()
    ensures { (k : ℕ) (bytes : List ℕ) (us : List Unit_of) → length bytes ≤ limit
        → Stream (whole k) (start k) k (bits_of bytes) us → HasReport k bytes us }
{}
