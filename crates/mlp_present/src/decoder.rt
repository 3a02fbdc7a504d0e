//! The decoder.
ghost use Rattle.std.specs.Option.{option_copied};
ghost use Rattle.std.specs.Prelude.{◌≡◌, ◌≤◌, ◌<◌, ◌^◌, ◌↔◌, [], length, Err, IfOk, IfErr, OnErr, MatchResult, IsSome};
ghost use Rattle.mlp_present.specs.Decoding.{opened, waits, next_unit, GivesUnit, KeepsRefusal, last_word};

use crate::parts::{take_next, timing_of};
use arrayvec::ArrayVec;
use mlp_contents::Substreams;
use mlp_outline::{is_open, keep_first};
use mlp_syntax::{Fault, Field, MajorSync, Outer};
use mlp_walk::Refusal;
use std::marker::Model;

/// A decoder of one presentation. All that it keeps has a fixed size, some 600 KB.
#[derive(Drop)]
pub struct Decoder {
    units: u64,
    first: Option<MajorSync>,
    substreams: Substreams,
    latest: Option<Outer>,
    timing: Option<u16>,
    channels: u8,
    refusal: Option<Refusal>,
}

impl Model for Decoder {
    ghost use Rattle.mlp_present.specs.Decoding.{Held, held_of, IsDecoding};

    ghost Value = { Held };

    ghost view = { λ d. held_of d.units d.first d.substreams d.latest d.timing d.channels d.refusal };

    ghost invariant = { λ d. IsDecoding d.units d.first d.substreams d.latest d.refusal };
}

impl Decoder {
    /// A decoder of presentation `k`, 0 to 2, that has taken no unit.
    pub fn open(k: u8) -> Decoder
        requires { k ≤ 2 }
        ensures { result ≡ opened k }
    {
        Decoder {
            units: 0,
            first: None,
            substreams: Substreams::new(k),
            latest: None,
            timing: None,
            channels: 0,
            refusal: None,
        }
    }

    /// The same as `open`, in place.
    pub fn reset(&mut self, k: u8)
        requires { k ≤ 2 }
        ensures { self.new ≡ opened k }
    {
        self.units = 0;
        self.first = None;
        self.substreams.reset(k);
        self.latest = None;
        self.timing = None;
        self.channels = 0;
        self.refusal = None;
    }

    /// The number of units taken.
    pub fn units(&self) -> u64
        ensures { result ≡ self.now.units }
    {
        self.units
    }

    /// The first unit's major sync, `None` where no unit was taken.
    pub fn major(&self) -> Option<&MajorSync>
        ensures value { option_copied result ≡ self.now.left.sync }
        ensures begun { IsSome result ↔ (0 < self.now.units) }
    {
        self.first.as_ref()
    }

    /// The number of output channels of the presentation, 0 where no unit was taken.
    pub fn channels(&self) -> u8
        ensures { result ≡ self.now.channels }
    {
        self.channels
    }

    /// The latest unit's outer part, `None` where no unit was taken.
    pub fn last_outer(&self) -> Option<&Outer>
        ensures value { option_copied result ≡ self.now.latest }
        ensures begun { IsSome result ↔ (0 < self.now.units) }
    {
        self.latest.as_ref()
    }

    /// The output timing of substream 0's restart in the latest unit, in sample periods modulo 2^16; `None` where no unit was
    /// taken or the latest has no major sync.
    pub fn last_output_timing(&self) -> Option<u16>
        ensures { result ≡ self.now.timing }
    {
        self.timing
    }

    /// Whether a segment of the latest unit has a terminator: no unit follows.
    pub fn ended(&self) -> bool
        ensures { result ≡ self.now.left.ended }
    {
        self.substreams.ended()
    }

    /// Whether the next unit depends on bytes behind these.
    pub fn waits(&self, next: &[u8]) -> bool
        ensures { result ≡ waits self.now next.now }
    {
        if self.refusal.is_some() {
            return false;
        }
        if self.substreams.ended() {
            return next.is_empty();
        }
        is_open(next)
    }

    /// Takes one unit, puts its frames into `out` and answers its length in bytes, 4 to 8190. `next` is the rest of the stream
    /// or at least its first 8190 bytes. Of each frame the samples stand at their output channels, and the others are 0.
    ///
    /// # Errors
    ///
    /// The first rule that the unit breaks, or that the first unit doesn't tell the presentation. Then `out` has no frames,
    /// and every later call answers that same refusal.
    pub fn unit(&mut self, next: &[u8], out: &mut ArrayVec<[i32; 8], 160>) -> Result<usize, Refusal>
        requires count { self.old.units < 2 ^ 40 }
        ensures unit { MatchResult result (λ size. GivesUnit self.old next.now size out.new.items self.new)
            (λ refusal. next_unit self.old next.now ≡ Err refusal) }
        ensures kept { IfErr result (KeepsRefusal self.old self.new) }
        ensures none { OnErr result (out.new.items ≡ []) }
        ensures within { IfOk result (λ size. (4 ≤ size) × (size ≤ 8190) × (size ≤ length next.now)) }
    {
        if let Some(refusal) = self.refusal {
            out.clear();
            return Err(refusal);
        }
        match take_next(
            self.units,
            self.first.as_ref(),
            &mut self.substreams,
            next,
            out,
        ) {
            Ok((size, outer)) => {
                keep_first(&mut self.first, &outer.major);
                self.timing = timing_of(&outer.major, &self.substreams);
                self.channels = self.substreams.channels();
                self.latest = Some(outer);
                self.units += 1;
                Ok(size)
            }
            Err(refusal) => {
                out.clear();
                self.refusal = Some(refusal);
                Err(refusal)
            }
        }
    }

    /// Whether the stream may end here.
    ///
    /// # Errors
    ///
    /// What was refused; where no unit was taken, that no unit has a head.
    pub fn end(&self) -> Result<(), Refusal>
        ensures { result ≡ last_word self.now }
    {
        match self.refusal {
            Some(refusal) => Err(refusal),
            None if self.units == 0 => Err(Refusal::Fault(Fault {
                unit: 0,
                substream: 0,
                field: Field::UnitHeader,
                bit: 0,
            })),
            None => Ok(()),
        }
    }
}
