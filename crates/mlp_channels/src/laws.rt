//! What holds of the definitions.
ghost use Rattle.std.specs.Prelude.{◌≡◌, ◌++◌, ◌∷◌, ℕ, Bool, true, false, nat_le, ◌&&◌, List, Option, Some, length, All};
ghost use Rattle.mlp_syntax.specs.declared.restart.Restart.{Restart};
ghost use Rattle.mlp_syntax.specs.declared.segment.BlockHead.{BlockHead};
ghost use Rattle.mlp_syntax.specs.declared.segment.FrameCode.{FrameCode};
ghost use Rattle.mlp_params.specs.declared.state.State.{State};
ghost use Rattle.mlp_predict.specs.Outputs.{IsWithin};
ghost use Rattle.mlp_substream.specs.declared.known.Place.{Place};
ghost use Rattle.mlp_substream.specs.Blocks.{IsPlace, ForceFits, force_after};
ghost use Rattle.mlp_substream.specs.Playable.{ArePlayable};
ghost use Rattle.mlp_channels.specs.Channels.{codes_channel, channel_frames};

/// The frames of a channel in blocks that can be played: their filters have at most 8 and 4 coefficients and their
/// states at most 4 values; there is one for each code where the channel is coded;
/// and those of blocks behind others follow.
pub fn law_channel_frames()
    ensures within { (place : Place) (force : Option State) (due : Bool) (c : ℕ) (heads : List BlockHead)
        (codes : List FrameCode) → IsPlace place → ForceFits place force
        → ArePlayable place due force heads codes →
        All (IsWithin 8 4) (channel_frames place force c heads codes) }
    ensures count { (place : Place) (force : Option State) (due : Bool) (c : ℕ) (heads : List BlockHead)
        (codes : List FrameCode) → ArePlayable place due force heads codes →
        codes_channel (force_after place force heads) c ≡ true →
        length (channel_frames place force c heads codes) ≡ length codes }
    ensures join { (place : Place) (force : Option State) (due : Bool) (c : ℕ) (first rest : List BlockHead)
        (codes later : List FrameCode) → ArePlayable place due force first codes →
        channel_frames place force c (first ++ rest) (codes ++ later)
        ≡ channel_frames place force c first codes
        ++ channel_frames place (force_after place force first) c rest later }
{}

/// Whether the unit has a major sync decides nothing of the frames of a channel, and where it has one, so does what was
/// in force before it.
pub fn law_same_frames()
    ensures place { (place other : Place) (force : Option State) (c : ℕ) (heads : List BlockHead)
        (codes : List FrameCode) → place.format ≡ other.format → place.unit_frames ≡ other.unit_frames →
        channel_frames place force c heads codes ≡ channel_frames other force c heads codes }
    ensures fresh { (place : Place) (f g : Option State) (c : ℕ) (heads : List BlockHead) (codes : List FrameCode) →
        ArePlayable place true f heads codes →
        channel_frames place f c heads codes ≡ channel_frames place g c heads codes }
{}

/// Which channels a substream codes changes at a restart alone, to those of its header.
pub fn law_coded()
    ensures kept { (place : Place) (force : Option State) (c : ℕ)
        (heads : List BlockHead) (codes : List FrameCode) →
        ArePlayable place false force heads codes →
        codes_channel (force_after place force heads) c ≡ codes_channel force c }
    ensures restarted { (place : Place) (due : Bool) (force : Option State) (c : ℕ) (h : BlockHead)
        (heads : List BlockHead) (codes : List FrameCode) (r : Restart) →
        ArePlayable place due force (h ∷ heads) codes → h.restart ≡ Some r →
        codes_channel (force_after place force (h ∷ heads)) c ≡ (nat_le r.min c && nat_le c r.max) }
{}
