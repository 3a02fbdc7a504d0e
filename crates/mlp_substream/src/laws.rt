//! What holds of segments.
ghost use Rattle.std.specs.Prelude.{◌≡◌, ◌≤◌, ◌<◌, ◌*◌, ◌^◌, ◌++◌, ◌↔◌, ℕ, Bool, IsTrue, List, Option, Ok, length, reverse};
ghost use Rattle.mlp_syntax.specs.declared.segment.BlockHead.{BlockHead};
ghost use Rattle.mlp_syntax.specs.declared.segment.Segment.{Segment};
ghost use Rattle.mlp_layout.specs.Tails.{IsWhole};
ghost use Rattle.mlp_params.specs.declared.state.State.{State};
ghost use Rattle.mlp_params.specs.InForce.{behind_blocks};
ghost use Rattle.mlp_substream.specs.declared.known.Known.{Known};
ghost use Rattle.mlp_substream.specs.declared.known.Place.{Place};
ghost use Rattle.mlp_substream.specs.Blocks.{IsPlace, first_context, force_after, ForceFits};
ghost use Rattle.mlp_substream.specs.Segment.{most_blocks, segment, unknown, blocks_from, IsAllowed, IsAsKnown};
ghost use Rattle.mlp_substream.specs.Playable.{ArePlayable};
ghost use Rattle.mlp_substream.specs.Timings.{SameButForTiming, stamped};

/// Whatever is in force before it and known of it from elsewhere: what is read as a segment is spelled so, what is
/// spelled so and meets the rules is read, and the fault of other bits is given.
pub fn law_segment()
    ensures { (place : Place) (known : Known) (force : Option State) (checked : Bool)
        → IsWhole (segment place known force checked) }
{}

/// A segment that fits and meets the rules is read back from its spelling.
pub fn law_written()
    ensures { (place : Place) (known : Known) (force : Option State) (s : Segment)
        → (segment place known force s.checked).Fits s → (segment place known force s.checked).Meets s
        → (segment place known force s.checked).read ((segment place known force s.checked).spelling s) ≡ Ok s }
{}

/// A segment that was read can be written again, and is spelled by the bits that it was read from.
pub fn law_reread()
    ensures fits { (place : Place) (known : Known) (force : Option State)
        (checked : Bool) (text : List Bool) (s : Segment)
        → (segment place known force checked).read text ≡ Ok s → (segment place known force s.checked).Fits s }
    ensures meets { (place : Place) (known : Known) (force : Option State)
        (checked : Bool) (text : List Bool) (s : Segment)
        → (segment place known force checked).read text ≡ Ok s → (segment place known force s.checked).Meets s }
    ensures bits { (place : Place) (known : Known) (force : Option State)
        (checked : Bool) (text : List Bool) (s : Segment)
        → (segment place known force checked).read text ≡ Ok s
        → (segment place known force s.checked).spelling s ≡ text }
{}

/// What other substreams and other units decide changes no spelling. A segment is allowed with it exactly where it is
/// allowed with nothing known, and is as it is known: so the less is known, the more is allowed.
pub fn law_known()
    ensures spelling { (place : Place) (known : Known) (force : Option State) (checked : Bool) (s : Segment)
        → (segment place known force checked).spelling s ≡ (segment place unknown force checked).spelling s }
    ensures fits { (place : Place) (known : Known) (force : Option State) (checked : Bool) (s : Segment)
        → (segment place known force checked).Fits s → (segment place unknown force checked).Fits s }
    ensures allowed { (place : Place) (known : Known) (force : Option State) (checked : Bool) (s : Segment)
        → IsAllowed (segment place known force checked) s
        ↔ (IsAllowed (segment place unknown force checked) s × IsAsKnown place known s) }
{}

/// A segment has no more blocks than there are times 8 frames in a unit, which is 20 at most. That blocks are read up
/// to a bound above that refuses nothing: by every greater bound the same blocks are read, or the same fault is found.
pub fn law_blocks()
    ensures few { (place : Place) (known : Known) (force : Option State) (checked : Bool) (s : Segment)
        → IsPlace place → ForceFits place force
        → (segment place known force checked).Fits s → (segment place known force checked).Meets s
        → 8 * length s.blocks.items ≤ place.unit_frames }
    ensures bound { (place : Place) (known : Known) (force : Option State) (bound : ℕ) (text : List Bool)
        → IsPlace place → ForceFits place force → most_blocks ≤ bound
        → (blocks_from place known bound (first_context place force)).read text 0
        ≡ (blocks_from place known most_blocks (first_context place force)).read text 0 }
{}

/// The blocks of a segment that meets the rules can be played: their heads fit what is in force before them, and their
/// frames have what is in force behind them asks for.
pub fn law_playable()
    ensures { (place : Place) (known : Known) (force : Option State) (checked : Bool) (s : Segment)
        → IsPlace place → ForceFits place force → IsAllowed (segment place known force checked) s
        → ArePlayable place place.major force s.blocks.items s.codes.items }
{}

/// In a unit with a major sync what was in force before a segment decides nothing of it.
pub fn law_fresh()
    ensures allowed { (place : Place) (known : Known) (f g : Option State) (checked : Bool) (s : Segment)
        → IsTrue place.major
        → IsAllowed (segment place known f checked) s → IsAllowed (segment place known g checked) s }
    ensures spelling { (place : Place) (known : Known) (f g : Option State) (checked : Bool) (s : Segment)
        → IsTrue place.major
        → IsAllowed (segment place known f checked) s
        → (segment place known g checked).spelling s ≡ (segment place known f checked).spelling s }
    ensures force { (place : Place) (known : Known) (f g : Option State) (checked : Bool) (s : Segment)
        → IsTrue place.major
        → IsAllowed (segment place known f checked) s
        → force_after place g s.blocks.items ≡ force_after place f s.blocks.items }
{}

/// The output timing of what is in force decides nothing of a segment.
pub fn law_timing()
    ensures allowed { (place : Place) (known : Known) (f g : Option State) (checked : Bool) (s : Segment)
        → SameButForTiming f g
        → IsAllowed (segment place known f checked) s → IsAllowed (segment place known g checked) s }
    ensures spelling { (place : Place) (known : Known) (f g : Option State) (checked : Bool) (s : Segment)
        → SameButForTiming f g
        → (segment place known g checked).spelling s ≡ (segment place known f checked).spelling s }
    ensures force { (place : Place) (f g : Option State) (heads : List BlockHead) → SameButForTiming f g
        → SameButForTiming (force_after place f heads) (force_after place g heads) }
{}

/// A segment with another output timing in its restarts is allowed too, and as long.
pub fn law_stamped()
    ensures allowed { (place : Place) (known : Known) (force : Option State)
        (checked : Bool) (s : Segment) (t : ℕ) → t < 2 ^ 16
        → IsAllowed (segment place known force checked) s
        → IsAllowed (segment place known force checked) (stamped t s) }
    ensures length { (place : Place) (known : Known) (force : Option State)
        (checked : Bool) (s : Segment) (t : ℕ) → t < 2 ^ 16
        → length ((segment place known force checked).spelling (stamped t s))
        ≡ length ((segment place known force checked).spelling s) }
    ensures force { (place : Place) (force : Option State) (s : Segment) (t : ℕ)
        → SameButForTiming (force_after place force s.blocks.items)
        (force_after place force (stamped t s).blocks.items) }
{}

/// What is in force behind blocks is of each item the latest value given since the last restart, or the value that a
/// restart puts in force: so it is where it was so before them.
pub fn law_behind_blocks()
    ensures { (place : Place) (earlier heads : List BlockHead)
        → force_after place (behind_blocks place.format place.unit_frames earlier) heads
        ≡ behind_blocks place.format place.unit_frames (reverse heads ++ earlier) }
{}
