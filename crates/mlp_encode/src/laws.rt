//! What holds of what is sent.
ghost use Rattle.std.specs.Prelude.{◌≡◌, ◌≤◌, ◌<◌, ◌+◌, ◌*◌, ◌%◌, ◌^◌, ℕ, ℤ, Bool, true, List, All, length, Option, None, Some, Ok, is_some, if◌then◌else◌};
ghost use Rattle.std.specs.Option.{IsSomeAnd};
ghost use Rattle.mlp_syntax.specs.declared.major.Kind.{Kind};
ghost use Rattle.mlp_syntax.specs.declared.major.Kind.TheVariants.{Fbb};
ghost use Rattle.mlp_syntax.specs.declared.restart.Restart.{Restart};
ghost use Rattle.mlp_params.specs.declared.state.State.{State};
ghost use Rattle.mlp_predict.specs.Prediction.{Past};
ghost use Rattle.mlp_substream.specs.declared.known.Known.{Known};
ghost use Rattle.mlp_substream.specs.Blocks.{force_after};
ghost use Rattle.mlp_substream.specs.Segment.{segment, unknown, IsAllowed, IsAsKnown};
ghost use Rattle.mlp_major.specs.MajorSync.{major_sync, KeepsRules};
ghost use Rattle.mlp_unit.specs.Written.{Writable, MayFollow};
ghost use Rattle.mlp_fifo.specs.Pace.{unit_of};
ghost use Rattle.mlp_fold.specs.declared.profile.Profile.{Profile};
ghost use Rattle.mlp_fold.specs.declared.coding.CodedFrame.{CodedFrame};
ghost use Rattle.mlp_fold.specs.Profile.{checked, AreMixed};
ghost use Rattle.mlp_fold.specs.Mix.{AreSamples};
ghost use Rattle.mlp_fold.specs.Substreams.{substreams_of};
ghost use Rattle.mlp_encode.specs.Numbers.{low_zeros};
ghost use Rattle.mlp_encode.specs.Sync.{sync_of, restart_of};
ghost use Rattle.mlp_encode.specs.Blocks.{segment_sent};
ghost use Rattle.mlp_encode.specs.Lawful.{SendsSegment, AreCodedBy, IsRestartOf, IsInForce, IsEnd, AreWords, place_in, segment_most, segments_most};
ghost use Rattle.mlp_encode.specs.Unit.{coded, terminator_of, entries_from, joined};

/// The frames of a unit, once they are mixed, can be sent.
pub fn law_coded()
    ensures { (p : Profile) (frames : List (List ℤ)) → AreMixed p.mix p.depth p.channels →
        All (AreSamples (low_zeros p.depth) p.channels) frames → length frames ≡ unit_of p.rate →
        AreCodedBy p (coded p frames) }
{}

/// The restart headers and terminators that are sent can be written and meet the rules.
pub fn law_restart()
    ensures restart { (p : Profile) (j timing check : ℕ) → j ≤ 2 → (p.kind ≡ Fbb → j ≤ 1) →
        timing < 2 ^ 16 → check < 2 ^ 8 → IsRestartOf p j (restart_of j timing check) }
    ensures terminator { (p : Profile) (count : ℕ) (last : Bool) → IsEnd p (terminator_of p count last) }
{}

/// A segment that is sent can be written where it stands and meets the rules, with all that is known of it from
/// elsewhere. It leaves what is in force behind it, against which the next unit can be sent.
pub fn law_segment()
    ensures allowed { (p : Profile) (j : ℕ) (o : Option Restart) (state : Option State) (pasts : List Past)
        (frames : List CodedFrame) (t : Option ℕ) (known : Known) →
        SendsSegment p j o state frames → IsEnd p t →
        let place = place_in p (is_some o) in
        IsSomeAnd (segment_sent j p o state pasts frames t) (λ s. IsAsKnown place known s.segment →
        IsAllowed (segment place known state true) s.segment) }
    ensures leaves { (p : Profile) (j : ℕ) (o : Option Restart) (state : Option State) (pasts : List Past)
        (frames : List CodedFrame) (t : Option ℕ) → SendsSegment p j o state frames → IsEnd p t →
        let place = place_in p (is_some o) in
        IsSomeAnd (segment_sent j p o state pasts frames t)
        (λ s. force_after place state s.segment.blocks.items ≡ Some s.behind.state) }
    ensures next { (p : Profile) (j : ℕ) (o : Option Restart) (state : Option State) (pasts : List Past)
        (frames : List CodedFrame) (t : Option ℕ) → SendsSegment p j o state frames →
        IsSomeAnd (segment_sent j p o state pasts frames t) (λ s. IsInForce p j s.behind.state) }
{}

/// The bits of a segment that is sent are whole words, and are no more than its substream may have; the segments of a
/// unit have at most 8190 bytes.
pub fn law_lengths()
    ensures words { (p : Profile) (j : ℕ) (o : Option Restart) (state : Option State) (pasts : List Past)
        (frames : List CodedFrame) (t : Option ℕ) → SendsSegment p j o state frames → IsEnd p t →
        let place = place_in p (is_some o) in
        IsSomeAnd (segment_sent j p o state pasts frames t)
        (λ s. length ((segment place unknown state true).spelling s.segment) % 16 ≡ 0) }
    ensures most { (p : Profile) (j : ℕ) (o : Option Restart) (state : Option State) (pasts : List Past)
        (frames : List CodedFrame) (t : Option ℕ) → SendsSegment p j o state frames → IsEnd p t →
        let place = place_in p (is_some o) in
        IsSomeAnd (segment_sent j p o state pasts frames t)
        (λ s. length ((segment place unknown state true).spelling s.segment) ≤ 8 * segment_most p j) }
    ensures unit { (p : Profile) → checked p ≡ Ok tt → segments_most p ≤ 8190 }
{}

/// The major sync that is sent can be written and keeps the rules, in the first unit and in each later one.
pub fn law_sync()
    ensures fits { (p : Profile) → checked p ≡ Ok tt → (major_sync None).Fits (sync_of p) }
    ensures first { (p : Profile) → checked p ≡ Ok tt → KeepsRules None (sync_of p) }
    ensures later { (p : Profile) → checked p ≡ Ok tt → KeepsRules (Some (sync_of p)) (sync_of p) }
{}

/// A unit of so many segments in whole words can be written, and may follow the units before it.
pub fn law_unit()
    ensures writable { (p : Profile) (sync : Bool) (segments : List (List ℕ)) → checked p ≡ Ok tt →
        length segments ≡ substreams_of p.channels → AreWords segments → length (joined segments) ≤ 8190 →
        let major = if sync then Some (sync_of p) else None in
        Writable major (entries_from sync 0 segments) (joined segments) }
    ensures first { (p : Profile) (segments : List (List ℕ)) → checked p ≡ Ok tt →
        length segments ≡ substreams_of p.channels →
        MayFollow None (Some (sync_of p)) (entries_from true 0 segments) }
    ensures later { (p : Profile) (sync : Bool) (segments : List (List ℕ)) → checked p ≡ Ok tt →
        length segments ≡ substreams_of p.channels →
        let major = if sync then Some (sync_of p) else None in
        MayFollow (Some (sync_of p)) major (entries_from sync 0 segments) }
{}
