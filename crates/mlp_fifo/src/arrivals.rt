//! The units that have arrived, and which of the latest may still be held.
ghost use Rattle.std.specs.Prelude.{◌≡◌, ◌+◌, ◌-◌, ◌*◌, ◌^◌, ◌<◌, ◌≤◌, min, max};
ghost use Rattle.std.specs.Prelude.{[], ◌∷◌, ◌++◌, length, slice_index};
ghost use Rattle.circular_buffer.specs.Buffer.{keep_last};
ghost use Rattle.mlp_fifo.specs.Pace.{IsRate, IsUsual, pace_of};
ghost use Rattle.mlp_fifo.specs.Arrivals.{IsHeld, IsShed, IsGone, time_with_shed};

use crate::pace::Pace;
use circular_buffer::HeapCircularBuffer;
use mlp_syntax::{Kind, Memory};
use std::alloc::Global;

/// How many lengths are kept: more than can be held at once.
const KEPT: usize = 91;

/// The latest units that may still be held: how many, and their bytes.
#[derive(Clone, Copy)]
pub struct Held {
    pub units: usize,
    pub bytes: u32,
}

/// Where the next unit can begin.
#[derive(Clone, Copy)]
pub struct Begin {
    pub time: u64,
    /// The units before that may still be held then.
    pub held: Held,
}

/// What the units before leave to the next.
#[derive(Drop)]
pub struct Arrivals {
    pub kind: Kind,
    pub rate: u32,
    pub pace: Pace,
    /// The number of units.
    pub count: u64,
    /// When the last one has arrived.
    pub finish: u64,
    /// The latest lengths.
    pub latest: HeapCircularBuffer<u32>,
    pub held: Held,
    ghost pace_is: { pace ≡ pace_of kind rate },
    ghost usual: { IsUsual pace },
    ghost capacity: { latest.capacity ≡ 91 },
    ghost kept: { (length latest.items ≤ 91) × (length latest.items ≤ count) },
    ghost held_is: { IsHeld latest.items held },
    ghost within: { held.bytes ≤ pace.size },
    ghost finished: { finish < 2 ^ 50 },
}

/// The length of the first of this many latest units, and 0 where there are none or fewer.
fn first_of(latest: &HeapCircularBuffer<u32>, units: usize) -> u32
    requires { units ≤ length latest.now.items }
    ensures { result ≡ slice_index latest.now.items (length latest.now.items - units) }
{
    match latest.get(latest.len() - units) {
        Some(bytes) => *bytes,
        None => 0,
    }
}

/// Gives up the first of the units held until those that are left are within the size, with `bytes` more.
fn shed(latest: &HeapCircularBuffer<u32>, held: Held, bytes: u32, size: u32) -> Held
    requires held { IsHeld latest.now.items held }
    requires within { (held.bytes ≤ size) × (bytes ≤ size) × (size ≤ 120000) }
    ensures { IsShed latest.now.items held bytes size result }
{
    let mut units = held.units;
    let mut left = held.bytes;
    while size < left + bytes {
        left -= first_of(latest, units);
        units -= 1;
    }
    Held { units, bytes: left }
}

/// The latest 90 of those held: one that came before them is output by the time that the next unit may begin.
fn recent(latest: &HeapCircularBuffer<u32>, held: Held) -> Held
    requires most { length latest.now.items ≤ 91 }
    requires held { IsHeld latest.now.items held }
    ensures held { IsHeld latest.now.items result }
    ensures units { result.units ≡ min held.units 90 }
    ensures bytes { result.bytes ≤ held.bytes }
{
    if held.units <= 90 {
        return held;
    }
    Held {
        units: 90,
        bytes: held.bytes - first_of(latest, held.units),
    }
}

/// The least time for a unit after this many, where the last has arrived at a finish and some of those held are
/// given up.
fn time_after(pace: Pace, count: u64, finish: u64, held: Held, left: Held) -> u64
    requires usual { IsUsual pace × (count ≤ 2 ^ 40) × (finish < 2 ^ 50) }
    requires units { (left.units ≤ held.units) × (held.units ≤ count) }
    ensures kept { left.units ≡ held.units → result ≡ max (count * pace.unit) finish }
    ensures shed { left.units < held.units → result ≡ time_with_shed pace count finish left }
    ensures below { result < 2 ^ 50 }
{
    let lower = pace.start(count).max(finish);
    if left.units < held.units {
        return lower.max(pace.output(count - left.units as u64 - 1));
    }
    lower
}

impl Arrivals {
    ghost use Rattle.std.specs.Prelude.{IfOk};
    ghost use Rattle.mlp_fifo.specs.Placed.{begins, emptied};
    ghost use Rattle.mlp_fifo.specs.LeftFifo.{left_by, OthersAreOut};

    /// No unit yet.
    pub fn open(alloc: Global, kind: Kind, rate: u32) -> Result<Arrivals, Memory>
        requires { IsRate rate }
        ensures is { IfOk result (λ a. left_by a ≡ emptied kind rate) }
        ensures none { IfOk result (λ a. a.held.units ≡ 0) }
    {
        let latest = HeapCircularBuffer::with_capacity(alloc, KEPT).map_err(|_| Memory)?;
        Ok(Arrivals {
            kind,
            rate,
            pace: Pace::of(kind, rate),
            count: 0,
            finish: 0,
            latest,
            held: Held { units: 0, bytes: 0 },
        })
    }

    /// No unit any more.
    pub fn reset(&mut self, kind: Kind, rate: u32)
        requires { IsRate rate }
        ensures is { left_by self.new ≡ emptied kind rate }
        ensures none { self.new.held.units ≡ 0 }
    {
        self.latest.clear();
        self.kind = kind;
        self.rate = rate;
        self.pace = Pace::of(kind, rate);
        self.count = 0;
        self.finish = 0;
        self.held = Held { units: 0, bytes: 0 };
    }

    /// The least time for a unit of this many bytes.
    pub fn next(&self, bytes: u32) -> Begin
        requires bytes { bytes ≤ 8190 }
        requires count { self.now.count < 2 ^ 40 }
        requires out { OthersAreOut self.now }
        ensures held { IsShed self.now.latest.items self.now.held bytes self.now.pace.size result.held }
        ensures gone { IsGone self.now.pace self.now.count result.time result.held.units }
        ensures is { result.time ≡ begins (left_by self.now) bytes }
        ensures start { self.now.count * self.now.pace.unit ≤ result.time }
        ensures below { result.time < 2 ^ 50 }
    {
        let held = shed(&self.latest, self.held, bytes, self.pace.size);
        let time = time_after(self.pace, self.count, self.finish, self.held, held);
        Begin { time, held }
    }

    /// One unit more, which has arrived at a finish. `held` are those before it that may still be held.
    pub fn keep(&mut self, bytes: u32, finish: u64, held: Held)
        requires count { self.old.count < 2 ^ 40 }
        requires held { IsHeld self.old.latest.items held }
        requires fits { held.bytes + bytes ≤ self.old.pace.size }
        requires finish { finish < 2 ^ 50 }
        ensures stream { (self.new.kind ≡ self.old.kind) × (self.new.rate ≡ self.old.rate) }
        ensures pace { self.new.pace ≡ self.old.pace }
        ensures count { self.new.count ≡ self.old.count + 1 }
        ensures finish { self.new.finish ≡ finish }
        ensures latest { self.new.latest.items ≡ keep_last 91 (self.old.latest.items ++ bytes ∷ []) }
        ensures units { self.new.held.units ≡ min held.units 90 + 1 }
    {
        let held = recent(&self.latest, held);
        self.latest.push_back(bytes);
        self.held = Held {
            units: held.units + 1,
            bytes: held.bytes + bytes,
        };
        self.count += 1;
        self.finish = finish;
    }
}
