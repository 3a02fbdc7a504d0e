//! The substreams of a presentation.
ghost use Rattle.std.specs.Option.{option_copied};
ghost use Rattle.std.specs.Prelude.{◌≡◌, ◌+◌, ◌<◌, ◌≤◌, [], None, IfSome, OnOk, OnErr, length, option_map};
ghost use Rattle.mlp_bits.specs.Bits.{bits_of};
ghost use Rattle.mlp_major.specs.MajorSync.{IsUsable};
ghost use Rattle.mlp_unit.specs.AccessUnit.{in_force};
ghost use Rattle.mlp_unit.specs.Shape.{body_place, unit_with, HasCount, HoldsSegments};
ghost use Rattle.mlp_contents.specs.Units.{coded_at};
ghost use Rattle.mlp_contents.specs.Inner.{nothing_inside, channels_of, force_of, IsBetween, IsKept, IsTakenOr};
ghost use Rattle.mlp_params.specs.States.{IsState};

use crate::fault::SegmentFault;
use crate::place::place_of;
use crate::taking::take_contents;
use arrayvec::ArrayVec;
use mlp_channels::Substream;
use mlp_matrix::Noise;
use mlp_params::State;
use mlp_syntax::{MajorSync, Outer, Segment};
use std::marker::Model;

/// What units leave of the substreams of a presentation, and room for one unit. All that it keeps has a fixed size.
#[derive(Drop)]
pub struct Substreams {
    last: u8,
    ended: bool,
    all: [Substream; 3],
    noise: Noise,
    check: u32,
    segments: [[Segment; 3]; 3],
    frames: [[i32; 10]; 160],
}

impl Model for Substreams {
    ghost use Rattle.std.specs.Prelude.{◌+◌, ◌<◌, ◌≤◌, ◌^◌, take};
    ghost use Rattle.mlp_contents.specs.Inner.{Inner};

    ghost Value = { Inner };

    ghost view = { λ d. record {
      last = d.last;
      ended = d.ended;
      substreams = take (d.last + 1) d.all;
      seed = d.noise.seed;
      check = d.check;
    } };

    ghost invariant = { λ d. (d.last ≤ 2) × (d.noise.seed < 2 ^ 23) };
}

/// The number of channels of a presentation by what is in force in its last substream; 0 where nothing is.
fn channels_of(force: &Option<State>) -> u8
    requires { IfSome force.now IsState }
    ensures { result ≡ channels_of force.now }
{
    match force {
        None => 0,
        Some(state) => state.restart.max_matrix + 1,
    }
}

/// The kind of segments that a unit has: with a restart, with parameters alone, or with neither. Each kind is read over
/// the latest one of its own substream and kind, whose parts are there already.
fn shape_of(unit: &[u8], outer: &Outer) -> u8
    ensures { result ≤ 2 }
{
    if outer.major.is_some() {
        return 0;
    }
    match unit.get(outer.body as usize) {
        Some(byte) if *byte >= 128 => 1,
        _ => 2,
    }
}

/// Room for the segments of three substreams.
fn blank_segments() -> [Segment; 3] {
    [Segment::default(), Segment::default(), Segment::default()]
}

fn output_timing(force: &Option<State>) -> Option<u16>
    ensures { result ≡ option_map (λ s. s.restart.output_timing) force.now }
{
    match force {
        None => None,
        Some(state) => Some(state.restart.output_timing),
    }
}

impl Substreams {
    /// The substreams 0 to k of presentation `k`, 0 to 2, before the first unit.
    pub fn new(k: u8) -> Substreams
        requires { k ≤ 2 }
        ensures value { result ≡ nothing_inside k }
        ensures kept { IsKept None result }
    {
        Substreams {
            last: k,
            ended: false,
            all: [Substream::new(), Substream::new(), Substream::new()],
            noise: Noise { seed: 0 },
            check: 0,
            segments: [blank_segments(), blank_segments(), blank_segments()],
            frames: [[0; 10]; 160],
        }
    }

    /// As `new` gives it for presentation `k`, 0 to 2.
    pub fn reset(&mut self, k: u8)
        requires { k ≤ 2 }
        ensures value { self.new ≡ nothing_inside k }
        ensures kept { IsKept None self.new }
    {
        self.last = k;
        self.ended = false;
        self.all[0].reset();
        self.all[1].reset();
        self.all[2].reset();
        self.noise = Noise { seed: 0 };
        self.check = 0;
    }

    /// The last substream that is read.
    pub fn last(&self) -> u8
        ensures { result ≡ self.now.last }
    {
        self.last
    }

    /// Whether the latest unit had a terminator.
    pub fn ended(&self) -> bool
        ensures { result ≡ self.now.ended }
    {
        self.ended
    }

    /// The number of channels of the frames, 0 before the first unit.
    pub fn channels(&self) -> u8
        requires { IsBetween self.now }
        ensures { result ≡ channels_of (force_of self.now) }
    {
        channels_of(self.all[usize::from(self.last)].state())
    }

    /// The output timing of the latest restart of substream 0, once there was one.
    pub fn output_timing(&self) -> Option<u16>
        ensures { result ≡ option_map (λ s. s.restart.output_timing) (coded_at self.now.substreams 0).force }
    {
        output_timing(self.all[0].state())
    }

    /// Reads what the next unit contains, and puts the frames that it gives into `rows`.
    ///
    /// `first` is the stream's first major sync, and `None` for the first unit; `outer` was read from the unit.
    ///
    /// # Errors
    ///
    /// The first rule that fails, of one segment after the other. Then `rows` has no frames, and `self` is of no use
    /// until `reset`.
    pub fn take(
        &mut self,
        first: Option<&MajorSync>,
        unit: &[u8],
        outer: &Outer,
        rows: &mut ArrayVec<[i32; 8], 160>,
    ) -> Result<(), SegmentFault>
        requires size { length unit.now ≤ 8190 }
        requires body { outer.now.body ≡ body_place (unit_with unit.now outer.now) }
        requires inside { HoldsSegments unit.now outer.now }
        requires count { HasCount (option_copied first) outer.now }
        requires exist { self.old.last < length outer.now.entries.items }
        requires usable { IfSome (in_force (option_copied first) outer.now.major) IsUsable }
        requires kept { IsKept (option_copied first) self.old }
        ensures taken { IsTakenOr (option_copied first.entry) (unit_with unit.now outer.now) (bits_of unit.now)
            self.old self.new rows.new.items result }
        ensures kept { OnOk result (IsKept (in_force (option_copied first.entry) outer.now.major) self.new) }
        ensures none { OnErr result (rows.new.items ≡ []) }
        ensures last { self.new.last ≡ self.old.last }
    {
        let place = place_of(first, &outer.major);
        let last = usize::from(self.last);
        let shape = usize::from(shape_of(unit, outer));
        let latest = &mut self.segments[shape];
        take_contents(
            &place,
            unit,
            outer,
            &mut self.all[..last + 1],
            &mut self.ended,
            &mut self.noise,
            &mut self.check,
            latest,
            &mut self.frames,
            rows,
        )
    }
}
