//! The earliest schedule, one access unit at a time.
ghost use Rattle.std.specs.Prelude.{◌≡◌, ◌+◌, ◌<◌, ◌≤◌, ◌^◌, pos, [], ◌∷◌, ◌++◌, IfOk, IfErr, OnOk, OnErr};
ghost use Rattle.mlp_fifo.specs.Pace.{IsRate, pace_of};
ghost use Rattle.mlp_fifo.specs.Schedule.{out_of};
ghost use Rattle.mlp_fifo.specs.LeftFifo.{Leaves, LastBegins, HasNone, EachHistory};
ghost use Rattle.mlp_fifo.specs.Placed.{begins, placed, answered, emptied};

use crate::arrivals::Arrivals;
use mlp_syntax::{Kind, Memory, NoRoom};
use std::alloc::Global;
use std::marker::Model;

/// A player's buffer, into which access units are placed one after the other.
/// A clause sees it as what the units placed before leave.
#[derive(Drop)]
pub struct Fifo {
    arrivals: Arrivals,
}

impl Model for Fifo {
    ghost use Rattle.mlp_fifo.specs.LeftFifo.{LeftFifo, left_by, OthersAreOut};

    ghost Value = { LeftFifo };

    ghost view = { λ f. left_by f.arrivals };

    ghost invariant = { λ f. OthersAreOut f.arrivals };
}

impl Fifo {
    /// An empty buffer for a stream of this kind at one of the six rates. It takes all memory that it ever needs.
    pub fn open(alloc: Global, kind: Kind, rate: u32) -> Result<Fifo, Memory>
        requires { IsRate rate }
        ensures is { IfOk result (λ f. f ≡ emptied kind rate) }
        ensures left { IfOk result (Leaves kind rate []) }
    {
        let arrivals = Arrivals::open(alloc, kind, rate)?;
        Ok(Fifo { arrivals })
    }

    /// Empties the buffer, for a stream of this kind at one of the six rates. It takes no memory.
    pub fn reset(&mut self, kind: Kind, rate: u32)
        requires { IsRate rate }
        ensures is { self.new ≡ emptied kind rate }
        ensures left { Leaves kind rate [] self.new }
    {
        self.arrivals.reset(kind, rate);
    }

    /// Places the next access unit, of 1 to 8190 bytes, and answers when it begins to arrive: its time in the earliest
    /// schedule of all units placed, in sample periods.
    ///
    /// # Errors
    ///
    /// `NoRoom` exactly where these units have no schedule. Nothing is changed then.
    pub fn place(&mut self, bytes: u32) -> Result<i64, NoRoom>
        requires bytes { bytes ≤ 8190 }
        requires count { self.old.count < 2 ^ 40 }
        ensures is { placed self.old bytes ≡ answered result self.new }
        ensures time { IfOk result (λ t. t ≡ pos (begins self.old bytes)) }
        ensures placed { EachHistory self.old (λ kind rate b. IfOk result (LastBegins kind rate (b ++ bytes ∷ []))) }
        ensures left { EachHistory self.old
            (λ kind rate b. OnOk result (Leaves kind rate (b ++ bytes ∷ []) self.new)) }
        ensures none { EachHistory self.old (λ kind rate b. OnErr result (HasNone kind rate (b ++ bytes ∷ []))) }
        ensures named { IfErr result (λ e. e ≡ record { unit = self.old.count; bytes = bytes }) }
        ensures stream { OnOk result ((self.new.kind ≡ self.old.kind) × (self.new.rate ≡ self.old.rate)) }
        ensures counts { OnOk result (self.new.count ≡ self.old.count + 1) }
        ensures unchanged { OnErr result (self.new ≡ self.old) }
    {
        let begin = self.arrivals.next(bytes);
        let finish = begin.time + self.arrivals.pace.duration(bytes);
        if self.arrivals.pace.output(self.arrivals.count) < finish {
            return Err(NoRoom {
                unit: self.arrivals.count,
                bytes,
            });
        }
        self.arrivals.keep(bytes, finish, begin.held);
        Ok(begin.time as i64)
    }

    /// When the next access unit is output, in sample periods. A restart header in it tells the low 16 bits.
    pub fn next_output(&self) -> u64
        requires { self.now.count ≤ 2 ^ 40 }
        ensures { result ≡ out_of (pace_of self.now.kind self.now.rate) self.now.count }
    {
        self.arrivals.pace.output(self.arrivals.count)
    }
}
