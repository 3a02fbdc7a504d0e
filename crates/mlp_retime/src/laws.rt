//! What holds of retiming a stream.
ghost use Rattle.std.specs.Prelude.{◌≤◌, ℕ, ◌+◌, Bool, List, Ok, length, map, slice_index};
ghost use Rattle.mlp_io.specs.Limit.{limit};
ghost use Rattle.mlp_layout.specs.Streams.{Has, Stream, Units};
ghost use Rattle.mlp_fifo.specs.Schedule.{IsSchedule};
ghost use Rattle.mlp_answers.specs.Answers.{Answer, HasOneAnswer};
ghost use Rattle.mlp_cut.specs.Cut.{first_sync, units_bytes};
ghost use Rattle.mlp_contents.specs.Units.{Unit_of, start, whole};
ghost use Rattle.mlp_retime.specs.Top.{top};
ghost use Rattle.mlp_retime.specs.Retimed.{length_of, pace_in, IsRetimed};
ghost use Rattle.mlp_retime.specs.Retiming.{retiming};
ghost use Rattle.mlp_retime.specs.Laws.{IsHighest};

/// An input has one answer.
pub fn law_one_answer()
    ensures { (all : List ℕ) → HasOneAnswer retiming all }
{}

/// A stream for the highest presentation that its first unit tells is what is read.
pub fn law_top()
    ensures { (k : ℕ) (all : List Bool) (us : List Unit_of) → Has (whole k) (start k) all (k + 1)
        → Stream (whole k) (start k) k all us → Units top (start 0) all us }
{}

/// Where the lengths of units have a schedule there are the units with the times of the earliest one. Of a stream these come
/// out, and the end is good.
pub fn law_pieces()
    ensures some { (us : List Unit_of) (times : ℕ → ℕ) → let lengths = map length_of us in
        IsSchedule (pace_in (first_sync us)) (slice_index lengths) times (length lengths)
        → (vs : List Unit_of) × IsRetimed us vs }
    ensures stream { (k : ℕ) (bytes : List ℕ) (us vs : List Unit_of) → length bytes ≤ limit → IsHighest k bytes us
        → IsRetimed us vs → Answer retiming bytes (Ok tt) (units_bytes vs) }
{}
