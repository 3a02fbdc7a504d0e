//! What holds of the mixes.

ghost use Rattle.std.specs.Prelude.{◌≡◌, ◌+◌, ◌-◌, ℕ, IsTrue};
ghost use Rattle.mlp_syntax.specs.declared.major.Kind.{Kind};
ghost use Rattle.mlp_fold.specs.Profile.{has_channels};
ghost use Rattle.mlp_fold.specs.Mix.{channels_of};
ghost use Rattle.mlp_fold.specs.Substreams.{substreams_of, first_channel, last_channel, EachSubstream, EachTop};
ghost use Rattle.mlp_fold.specs.Substreams.{CanApply, CodesByStep, MakesPresented, PresentsAll, Presents24};
ghost use Rattle.mlp_fold.specs.Undone.{UndoesToCoded, UndoesToBits};

/// The substreams share out the channels in order, and the top one of a profile ends with its last channel.
pub fn law_channels()
    ensures first { first_channel 0 ≡ 0 }
    ensures next { (k : ℕ) → first_channel (k + 1) ≡ last_channel k + 1 }
    ensures top { (kind : Kind) (n : ℕ) → IsTrue (has_channels kind n) → channels_of (substreams_of n - 1) ≡ n }
{}

/// The rows and steps of a substream can be applied to its channels.
pub fn law_rows()
    ensures { EachSubstream CanApply }
{}

/// What is coded of a channel has no bits below the channel's step.
pub fn law_steps()
    ensures { EachSubstream CodesByStep }
{}

/// The rows of a substream make of the coded channels up to it, whatever stands behind them, its presentation.
pub fn law_mixes()
    ensures { EachSubstream MakesPresented }
{}

/// What is coded of a frame of PCM, and its bypassed bits, are what undoing the rows of the top substream, from the
/// last to the first, makes of it.
pub fn law_undone()
    ensures values { EachTop UndoesToCoded }
    ensures bits { EachTop UndoesToBits }
{}

/// The top presentation is the frame itself.
pub fn law_top()
    ensures { EachTop PresentsAll }
{}

/// Each value that a presentation shows has 24 signed bits, in Fold too.
pub fn law_wide()
    ensures { EachSubstream Presents24 }
{}
