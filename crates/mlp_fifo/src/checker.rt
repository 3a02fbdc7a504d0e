//! The check of a stream's timings, one access unit at a time.
ghost use Rattle.std.specs.Prelude.{◌≡◌, ◌+◌, ◌*◌, ◌%◌, ◌<◌, ◌≤◌, ◌^◌, ◌&&◌, [], IfOk, IfSome, IsTrue, is_some};
ghost use Rattle.mlp_fifo.specs.Pace.{IsRate};
ghost use Rattle.mlp_fifo.specs.LeftFifo.{OthersAreOut};
ghost use Rattle.mlp_fifo.specs.Arrivals.{IsHeld, IsGone};
ghost use Rattle.mlp_fifo.specs.Timed.{LeavesTimed, TellsTimed, LeavesWith, checked_by};
ghost use Rattle.mlp_fifo.specs.Checked.{empty_checker, time_with_low, is_output, admits, checked_after};

use crate::arrivals::{Arrivals, Held};
use mlp_syntax::{Kind, Memory};
use std::alloc::Global;
use std::marker::Model;

/// Access units with their timings, checked one after the other. A clause sees it as what the units before leave.
#[derive(Drop)]
pub struct Checker {
    arrivals: Arrivals,
    timed: bool,
}

impl Model for Checker {
    ghost use Rattle.std.specs.Prelude.{IsTrue};
    ghost use Rattle.mlp_fifo.specs.LeftFifo.{OthersAreOut};
    ghost use Rattle.mlp_fifo.specs.Timed.{LeftChecker, checked_by};

    ghost Value = { LeftChecker };

    ghost view = { λ c. checked_by c.arrivals c.timed };

    ghost invariant = { λ c. IsTrue c.timed → OthersAreOut c.arrivals };
}

/// The time from `start` on, and less than 2^16 later, whose low 16 bits are these.
#[tactic(auto, unfolding(crate::specs::Checked::time_with_low))]
fn time_from(start: u64, low: u16) -> u64
    requires { start < 2 ^ 48 }
    ensures is { result ≡ time_with_low start low }
    ensures least { start ≤ result }
    ensures below { result < start + 65536 }
{
    let low = u64::from(low);
    let before = start % 65536;
    if before <= low {
        start - before + low
    } else {
        start - before + 65536 + low
    }
}

/// Whether an output timing, if there is one, is the low 16 bits of when the unit is output.
fn is_output(output: Option<u16>, out: u64) -> bool
    ensures { result ≡ is_output output out }
{
    match output {
        Some(timing) => u64::from(timing) == out % 65536,
        None => true,
    }
}

/// The units that may still be held as a unit begins, where it and those before it have the timing of a stream.
fn admitted(
    timed: bool,
    before: &Arrivals,
    time: u64,
    output: Option<u16>,
    bytes: u32,
) -> Option<Held>
    requires bytes { bytes ≤ 8190 }
    requires count { before.now.count < 2 ^ 40 }
    requires time { (before.now.count * before.now.pace.unit ≤ time) × (time < 2 ^ 49) }
    requires out { IsTrue timed → OthersAreOut before.now }
    ensures held { IfSome result (IsHeld before.now.latest.items) }
    ensures fits { IfSome result (λ held. held.bytes + bytes ≤ before.now.pace.size) }
    ensures gone { IfSome result (λ held. IsGone before.now.pace before.now.count time held.units) }
    ensures is { is_some result ≡ (timed && admits before.now.pace (checked_by before.now timed) time bytes output) }
{
    if !timed {
        return None;
    }
    let begin = before.next(bytes);
    if time < begin.time {
        return None;
    }
    let out = before.pace.output(before.count);
    if out < time + before.pace.duration(bytes) {
        return None;
    }
    if !is_output(output, out) {
        return None;
    }
    Some(begin.held)
}

impl Checker {
    /// No unit yet, of a stream of this kind at one of the six rates. It takes all memory that it ever needs.
    pub fn open(alloc: Global, kind: Kind, rate: u32) -> Result<Checker, Memory>
        requires { IsRate rate }
        ensures is { IfOk result (λ c. c ≡ empty_checker kind rate) }
        ensures left { IfOk result (LeavesTimed kind rate []) }
    {
        let arrivals = Arrivals::open(alloc, kind, rate)?;
        Ok(Checker {
            arrivals,
            timed: true,
        })
    }

    /// Forgets all units, for a stream of this kind at one of the six rates. It takes no memory.
    pub fn reset(&mut self, kind: Kind, rate: u32)
        requires { IsRate rate }
        ensures is { self.new ≡ empty_checker kind rate }
        ensures left { LeavesTimed kind rate [] self.new }
    {
        self.arrivals.reset(kind, rate);
        self.timed = true;
    }

    /// Takes the next access unit, of 1 to 8190 bytes, with its input timing and the output timing of its first
    /// substream's restart header. Answers whether all units so far have the timing of a stream.
    pub fn unit(&mut self, input: u16, output: Option<u16>, bytes: u32) -> bool
        requires bytes { bytes ≤ 8190 }
        requires count { self.old.count < 2 ^ 40 }
        ensures step { self.new ≡ checked_after self.old (record { input = input; output = output; bytes = bytes }) }
        ensures timed { TellsTimed self.old (record { input = input; output = output; bytes = bytes }) result }
        ensures left { LeavesWith self.old (record { input = input; output = output; bytes = bytes }) self.new }
        ensures same { result ≡ self.new.timed }
        ensures stream { (self.new.kind ≡ self.old.kind) × (self.new.rate ≡ self.old.rate) }
        ensures counts { self.new.count ≡ self.old.count + 1 }
    {
        let pace = self.arrivals.pace;
        let time = time_from(pace.start(self.arrivals.count), input);
        let finish = time + pace.duration(bytes);
        if let Some(held) = admitted(self.timed, &self.arrivals, time, output, bytes) {
            self.arrivals.keep(bytes, finish, held);
            return true;
        }
        self.timed = false;
        self.arrivals
            .keep(bytes, finish, Held { units: 0, bytes: 0 });
        false
    }
}
