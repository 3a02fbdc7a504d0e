//! What holds of the layout of an access unit.
ghost use Rattle.std.specs.Prelude.{◌≡◌, ◌≤◌, ◌<◌, ◌*◌, ◌^◌, ◌++◌, ℕ, Bool, List, Option, Some, Ok, Err, length, take};
ghost use Rattle.mlp_syntax.specs.declared.fault.Broken.{Broken};
ghost use Rattle.mlp_syntax.specs.declared.major.MajorSync.{MajorSync};
ghost use Rattle.mlp_bits.specs.Bits.{bits_of};
ghost use Rattle.mlp_bits.specs.Checks.{nibble_parity_of};
ghost use Rattle.mlp_layout.specs.Layout.{IsLayout, Found};
ghost use Rattle.mlp_major.specs.MajorSync.{Alike};
ghost use Rattle.mlp_syntax.specs.declared.unit.DirEntry.{DirEntry};
ghost use Rattle.mlp_unit.specs.AccessUnit.{AccessUnit, access_unit, half_byte_sum};
ghost use Rattle.mlp_layout.specs.Allowed.{Allowed};
ghost use Rattle.mlp_unit.specs.Laws.{AreBytes, MayBeNext, SameLayout, CouldBeFirst, WasRead, IsRewritten, RewrittenMeets, FewerMeets};
ghost use Rattle.mlp_unit.specs.Written.{FirstUsable, written_unit, unit_text};
ghost use Rattle.mlp_unit.specs.Shape.{unit_read};
ghost use Rattle.mlp_unit.specs.Frame.{frame_of};
ghost use Rattle.mlp_unit.specs.Outline.{HasOneOutline};

/// What is read as an access unit stands there, and what stands there is read; so it is with what fails.
pub fn law_access_unit()
    ensures { (first : Option MajorSync) → IsLayout (access_unit first) }
{}

/// Where there is no frame the unit fails with the same fault. The bytes of a frame are read as the unit that all the
/// bytes are read as. Of a longer stream 8190 bytes are enough.
pub fn law_frame()
    ensures fails { (first : Option MajorSync) (next : List ℕ) (e : Broken) → frame_of next ≡ Err e
        → unit_read first next ≡ Err e }
    ensures size { (next : List ℕ) (n : ℕ) → frame_of next ≡ Ok n
        → (4 ≤ n) × (n ≤ 8190) × (n ≤ length next) }
    ensures alone { (next : List ℕ) (n : ℕ) → frame_of next ≡ Ok n → frame_of (take n next) ≡ Ok n }
    ensures same { (first : Option MajorSync) (next : List ℕ) (n : ℕ) → frame_of next ≡ Ok n
        → unit_read first next ≡ unit_read first (take n next) }
    ensures more { (next more : List ℕ) → 8190 ≤ length next → frame_of (next ++ more) ≡ frame_of next }
    ensures enough { (first : Option MajorSync) (next more : List ℕ) → 8190 ≤ length next
        → unit_read first (next ++ more) ≡ unit_read first next }
{}

/// Bytes are one list of units whose outer parts meet the rules, or the first rule fails in one unit, and not both.
pub fn law_outline()
    ensures { (bytes : List ℕ) → HasOneOutline bytes }
{}

/// A unit that fits and meets the rules is read back from its spelling.
pub fn law_written()
    ensures { (first : Option MajorSync) (u : AccessUnit) → Allowed (access_unit first) u
        → (access_unit first).read ((access_unit first).spelling u) 0
        ≡ Ok (u, length ((access_unit first).spelling u)) }
{}

/// The text of a unit that fits is that of its head, its major sync, its directory and its body,
/// whatever the first sync.
pub fn law_text()
    ensures { (first : Option MajorSync) (u : AccessUnit) → (access_unit first).Fits u
        → (access_unit first).spelling u ≡ unit_text u }
{}

/// What `is_writable` tells of and what may follow is written as a unit that fits and meets the rules.
pub fn law_meets()
    ensures { (first : Option MajorSync) (timing : ℕ)
        (major : Option MajorSync) (entries : List DirEntry) (body : List ℕ)
        → MayBeNext first timing major entries body
        → Allowed (access_unit first) (written_unit timing major entries body) }
{}

/// Behind first major syncs of one kind, one rate and one number of substreams units are the same.
pub fn law_alike()
    ensures { (a b : MajorSync) → Alike a b → SameLayout (access_unit (Some a)) (access_unit (Some b)) }
{}

/// A unit with a major sync could be the stream's first one, and the units behind it wouldn't change.
pub fn law_first()
    ensures { (first m : MajorSync) (all : List Bool) (u : AccessUnit) → Found (access_unit (Some first)) all 0 u
        → u.major ≡ Some m → CouldBeFirst first m all u }
{}

/// A unit that meets the rules still does with another timing and with another body of as many bytes.
pub fn law_rewritten()
    ensures { (first : Option MajorSync) (timing : ℕ) (u : AccessUnit) (body : List ℕ) → FirstUsable first
        → Allowed (access_unit first) u → timing < 2 ^ 16 → AreBytes body → length body ≡ length u.body
        → RewrittenMeets first timing u body }
{}

/// What an extraction makes of a unit that meets the rules can be written, and meets them in the stream that it makes.
pub fn law_fewer()
    ensures { (k : ℕ) (first : Option MajorSync) (u : AccessUnit)
        → FirstUsable first → Allowed (access_unit first) u
        → k < length u.entries → FewerMeets k first u }
{}

/// The parity of head and directory, over their bits, is that of their bytes.
pub fn law_parity()
    ensures { (bytes : List ℕ) → AreBytes bytes → half_byte_sum (bits_of bytes) ≡ nibble_parity_of bytes }
{}

/// A unit that was read can be written, and is the one that is written for its timing, major sync, entries and body. So
/// its own bytes are written again.
pub fn law_reread()
    ensures written { (first : Option MajorSync) (bytes : List ℕ) (u : AccessUnit) → FirstUsable first
        → WasRead first bytes u → IsRewritten u }
    ensures bits { (first : Option MajorSync) (bytes : List ℕ) (u : AccessUnit) → WasRead first bytes u
        → (access_unit first).spelling u ≡ bits_of bytes }
{}
