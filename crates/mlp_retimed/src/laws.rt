//! What holds of a stream that is retimed.
ghost use Rattle.std.specs.Prelude.{◌↔◌, ◌≤◌, ℕ, List, Ok, length, map};
ghost use Rattle.mlp_syntax.specs.declared.fault.Fault.{Fault};
ghost use Rattle.mlp_syntax.specs.declared.refusal.NoRoom.{NoRoom};
ghost use Rattle.mlp_io.specs.Limit.{limit};
ghost use Rattle.mlp_bits.specs.Bits.{bits_of};
ghost use Rattle.mlp_layout.specs.Streams.{Stream, Units, UnitsFail};
ghost use Rattle.mlp_stream.specs.declared.refusal.Refusal.{Refusal};
ghost use Rattle.mlp_stream.specs.declared.refusal.Refusal.TheVariants as refused;
ghost use Rattle.mlp_answers.specs.Answers.{Answer, refusing};
ghost use Rattle.mlp_cut.specs.Cut.{first_sync, units_bytes};
ghost use Rattle.mlp_contents.specs.Units.{Unit_of, start, whole};
ghost use Rattle.mlp_samples.specs.Behind.{left_behind};
ghost use Rattle.mlp_check.specs.Checking.{KeepTiming};
ghost use Rattle.mlp_extracted.specs.Lower.{lowered};
ghost use Rattle.mlp_retime.specs.Top.{top};
ghost use Rattle.mlp_retime.specs.Retimed.{IsRetimed};
ghost use Rattle.mlp_retime.specs.Retiming.{retiming};
ghost use Rattle.mlp_retime.specs.Laws.{IsHighest};
ghost use Rattle.mlp_retimed.specs.Plays.{PlaysAs, BreaksHighest};
ghost use Rattle.mlp_retimed.specs.Fits.{Fit};
ghost use Rattle.mlp_retimed.specs.Stops.{EndsWell, StopsAtFault, StopsForRoom, IsFaultOrNoRoom};

/// Let the units of a stream get the times of the earliest schedule. For each presentation for which its bytes are a
/// stream the retimed units are one too, with the same frames and samples. Their times and those in all their restarts
/// are those of the schedule, so `check` finds that they have the timing of a stream.
pub fn law_retime()
    ensures plays { (j k : ℕ) (bytes : List ℕ) (us vs ws : List Unit_of) → j ≤ k → IsHighest k bytes us
        → IsRetimed us vs → Stream (whole j) (start j) j (bits_of bytes) ws
        → PlaysAs j (units_bytes vs) (map (lowered j) vs) ws }
    ensures fit { (k : ℕ) (bytes : List ℕ) (us vs : List Unit_of) → IsHighest k bytes us → IsRetimed us vs
        → Fit (first_sync us) vs }
    ensures timed { (j k : ℕ) (bytes : List ℕ) (us vs ws : List Unit_of) → j ≤ k → IsHighest k bytes us
        → IsRetimed us vs → Stream (whole j) (start j) j (bits_of bytes) ws
        → KeepTiming (left_behind j (map (lowered j) vs)).sync (map (lowered j) vs) }
{}

/// What is read for retiming is exactly what is a stream for the highest presentation that the first unit tells. It
/// breaks exactly where that breaks, or the outer part of the first unit.
pub fn law_highest()
    ensures stream { (bytes : List ℕ) (us : List Unit_of)
        → Units top (start 0) (bits_of bytes) us ↔ ((k : ℕ) × IsHighest k bytes us) }
    ensures breaks { (bytes : List ℕ) (fault : Fault)
        → UnitsFail top (start 0) (bits_of bytes) fault ↔ BreaksHighest bytes fault }
{}

/// Retiming ends well exactly where the bytes are a stream whose lengths have a schedule. It stops with a fault exactly
/// where the bytes break with it and the lengths of the units before have a schedule, and for want of room exactly at
/// the first unit whose length has none behind those before it; it refuses nothing else. Then the units before have
/// come out.
pub fn law_ends()
    ensures well { (bytes output : List ℕ) → length bytes ≤ limit
        → Answer retiming bytes (Ok tt) output ↔ EndsWell bytes output }
    ensures fault { (bytes : List ℕ) (fault : Fault) (output : List ℕ) → length bytes ≤ limit
        → Answer retiming bytes (refusing (refused.Fault fault)) output ↔ StopsAtFault bytes fault output }
    ensures room { (bytes : List ℕ) (e : NoRoom) (output : List ℕ) → length bytes ≤ limit
        → Answer retiming bytes (refusing (refused.NoRoom e)) output ↔ StopsForRoom bytes e output }
    ensures only { (bytes : List ℕ) (r : Refusal) (output : List ℕ) → length bytes ≤ limit
        → Answer retiming bytes (refusing r) output → IsFaultOrNoRoom r }
{}
