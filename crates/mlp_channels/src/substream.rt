//! A substream that lives through units.
ghost use Rattle.std.specs.Prelude.{◌≡◌, ◌≤◌, Ok, Err, OnOk, MatchResult, length};
ghost use Rattle.mlp_bits.specs.Bits.{bits_of};
ghost use Rattle.mlp_substream.specs.Blocks.{IsPlace, ForceFits};
ghost use Rattle.mlp_substream.specs.Segment.{segment as segment_layout};
ghost use Rattle.mlp_channels.specs.Channels.{nothing_coded, coded_after, HasPlayed};

use crate::play::{play, reset_all};
use mlp_params::State;
use mlp_predict::Predictor;
use mlp_substream::{Known, Place, read_segment_into};
use mlp_syntax::{Broken, Segment};
use std::marker::Model;

/// What is in force in a substream, and the past of each of its channels.
#[derive(Drop)]
pub struct Substream {
    /// What is in force behind the segment that was read.
    reading: Option<State>,
    /// What is in force behind the blocks that were played. Between calls it is the same.
    playing: Option<State>,
    predictors: [Predictor<8, 4>; 8],
    /// Room for one channel of a block, of no use between calls.
    block: [i32; 160],
}

impl Model for Substream {
    ghost use Rattle.std.specs.Prelude.{◌≡◌};
    ghost use Rattle.mlp_channels.specs.Channels.{Coded};

    ghost Value = { Coded };

    ghost view = { λ s. record { force = s.reading; pasts = s.predictors } };

    ghost invariant = { λ s. s.playing ≡ s.reading };
}

impl Substream {
    /// Before the first unit: nothing is in force, and the past of each channel is zeros.
    pub fn new() -> Substream
        ensures { result ≡ nothing_coded }
    {
        Substream {
            reading: None,
            playing: None,
            predictors: [
                Predictor::<8, 4>::new(),
                Predictor::<8, 4>::new(),
                Predictor::<8, 4>::new(),
                Predictor::<8, 4>::new(),
                Predictor::<8, 4>::new(),
                Predictor::<8, 4>::new(),
                Predictor::<8, 4>::new(),
                Predictor::<8, 4>::new(),
            ],
            block: [0; 160],
        }
    }

    /// What is in force behind the segments taken so far.
    pub fn state(&self) -> &Option<State>
        ensures { result.now ≡ self.now.force }
    {
        &self.reading
    }

    /// As before the first unit.
    pub fn reset(&mut self)
        ensures { self.new ≡ nothing_coded }
    {
        self.reading = None;
        self.playing = None;
        reset_all(&mut self.predictors);
    }

    /// Reads the segment of the next unit into `segment`, by what is known of it from elsewhere, and puts the outputs
    /// of the channels that it codes into the first frames, one for each code. The other channels of `frames` stay.
    ///
    /// # Errors
    ///
    /// The fault of `read_segment_into`. Then `segment` and `self` are of no use until `reset`.
    pub fn take(
        &mut self,
        place: &Place,
        known: &Known,
        bytes: &[u8],
        checked: bool,
        segment: &mut Segment,
        frames: &mut [[i32; 10]; 160],
    ) -> Result<(), Broken>
        requires size { length bytes.now ≤ 8190 }
        requires place { IsPlace place.now }
        requires state { ForceFits place.now self.old.force }
        ensures read { MatchResult result
            (λ _. (segment_layout place.now known.now self.old.force checked).read (bits_of bytes.now)
            ≡ Ok segment.new)
            (λ e. (segment_layout place.now known.now self.old.force checked).read (bits_of bytes.now) ≡ Err e) }
        ensures coded { OnOk result (self.new ≡ coded_after place.now self.old segment.new) }
        ensures state { OnOk result (ForceFits place.now self.new.force) }
        ensures played { OnOk result
            (HasPlayed place.now self.old segment.new (length segment.new.codes.items) frames.old frames.new) }
    {
        match read_segment_into(place, known, &mut self.reading, bytes, checked, segment) {
            Ok(()) => {
                play(
                    place,
                    segment,
                    &mut self.playing,
                    &mut self.predictors,
                    &mut self.block,
                    frames,
                );
                Ok(())
            }
            Err(fault) => {
                self.reading = None;
                self.playing = None;
                Err(fault)
            }
        }
    }
}
