//! What holds of the layout of a major sync.
ghost use Rattle.std.specs.Prelude.{◌↔◌, ◌<◌, ℕ, Option, None};
ghost use Rattle.mlp_syntax.specs.declared.major.MajorSync.{MajorSync};
ghost use Rattle.mlp_layout.specs.Layout.{IsLayout};
ghost use Rattle.mlp_major.specs.MajorSync.{major_sync, IsUsable, KeepsRules, NarrowsWell};

/// What is read as a major sync stands there, and what stands there is read; so it is with what fails.
pub fn law_major_sync()
    ensures { (first : Option MajorSync) → IsLayout (major_sync first) }
{}

/// A major sync that fits, as `fits` tells, meets the layout's rules exactly where its kind is that of the stream's
/// first sync and no rule on its fields fails. Then later units can rely on it.
/// Whether one fits doesn't depend on the first.
pub fn law_meets()
    ensures meets { (first : Option MajorSync) (m : MajorSync) → (major_sync None).Fits m
        → (major_sync first).Meets m ↔ KeepsRules first m }
    ensures usable { (first : Option MajorSync) (m : MajorSync) → KeepsRules first m → IsUsable m }
    ensures fits { (a b : Option MajorSync) (m : MajorSync) → (major_sync a).Fits m → (major_sync b).Fits m }
{}

/// The major sync of an extraction fits, is usable and keeps the rules where that of the whole stream does.
pub fn law_narrow()
    ensures { (k : ℕ) (m : MajorSync) → k < m.substreams → NarrowsWell k m }
{}
