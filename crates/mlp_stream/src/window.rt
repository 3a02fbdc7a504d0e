//! A window on the input.
ghost use Rattle.std.specs.Prelude.{◌≡◌, ◌+◌, ◌-◌, ◌<◌, ◌≤◌, [], length, take, drop, OnOk, Err, IfErr, IsTrue, IsFalse};
ghost use Rattle.mlp_io.specs.Causes.{HasCause};
ghost use Rattle.mlp_stream.specs.Sides.{side};
ghost use Rattle.mlp_io.specs.Limit.{limit};
ghost use Rattle.mlp_stream.specs.Sizes.{most_of_unit};
ghost use Rattle.mlp_stream.specs.Held.{Held, Refills, Fails, RestIs, kept};

use crate::stop::Stop;
use mlp_io::{LIMIT, Source, fill};
use std::marker::Model;

/// The most bytes of an access unit.
const UNIT: usize = 8190;

/// The room of a window: two access units.
const ROOM: usize = 2 * UNIT;

/// Whether more bytes may come.
#[derive(Clone, Copy, Debug, PartialEq, Eq)]
pub enum Rest {
    /// The input wasn't read to its end.
    More,
    /// The window has the last of the input.
    Ended,
    /// The window has the last bytes up to the limit, and the input goes on.
    Over,
}

/// The bytes that were taken from an input and aren't used yet.
#[derive(Drop)]
pub struct Window {
    room: [u8; ROOM],
    start: usize,
    end: usize,
    taken: u64,
    rest: Rest,
}

impl Model for Window {
    ghost use Rattle.std.specs.Prelude.{◌≤◌, ◌-◌, take, drop};
    ghost use Rattle.mlp_io.specs.Limit.{limit};
    ghost use Rattle.mlp_stream.specs.Sizes.{window_room};
    ghost use Rattle.mlp_stream.specs.Held.{Held};

    ghost Value = { Held };

    ghost view = { λ w. let bytes = take (w.end - w.start) (drop w.start w.room) in
        record { bytes = bytes; taken = w.taken; rest = w.rest } };

    ghost invariant = { λ w. (w.start ≤ w.end) × (w.end ≤ window_room) × (w.taken ≤ limit) };
}

/// Moves the bytes of a range to the front.
fn to_front(room: &mut [u8], start: usize, end: usize)
    requires { (start ≤ end) × (end ≤ length room.old) }
    ensures { take (end - start) room.new ≡ take (end - start) (drop start room.old) }
{
    room.copy_within(start..end, 0);
}

/// Whether more may come, where now so many were taken, and so many came of so many that were wanted.
fn rest_after(taken: u64, count: usize, want: usize) -> Rest
    ensures { RestIs taken count want result }
{
    if taken > LIMIT {
        Rest::Over
    } else if count < want {
        Rest::Ended
    } else {
        Rest::More
    }
}

/// How many of the bytes that came are kept: the one past the limit isn't.
fn kept(rest: Rest, count: usize) -> usize
    requires { rest ≡ Rest.Over → 0 < count }
    ensures { result ≡ kept rest count }
{
    match rest {
        Rest::Over => count - 1,
        Rest::More | Rest::Ended => count,
    }
}

impl Window {
    /// An empty window on an input of which so many bytes were taken before.
    pub fn new(taken: u64) -> Window
        requires { taken ≤ limit }
        ensures { result ≡ record { bytes = []; taken = taken; rest = Rest.More } }
    {
        Window {
            room: [0; ROOM],
            start: 0,
            end: 0,
            taken,
            rest: Rest::More,
        }
    }

    pub fn bytes(&self) -> &[u8]
        ensures { result.now ≡ self.now.bytes }
    {
        &self.room[self.start..self.end]
    }

    pub fn rest(&self) -> Rest
        ensures { result ≡ self.now.rest }
    {
        self.rest
    }

    pub fn skip(&mut self, count: usize)
        requires { count ≤ length self.old.bytes }
        ensures { self.new ≡ record self.old { bytes = drop count self.old.bytes } }
    {
        self.start += count;
    }

    /// Whether more bytes are wanted for a unit, and may come.
    pub fn is_short(&self) -> bool
        ensures short { IsTrue result → (self.now.rest ≡ Rest.More) × (length self.now.bytes < most_of_unit) }
        ensures enough { IsFalse result → self.now.rest ≡ Rest.More → most_of_unit ≤ length self.now.bytes }
        ensures within { self.now.taken ≤ limit }
    {
        matches!(self.rest, Rest::More) && self.end - self.start < UNIT
    }

    /// Takes bytes from the input, as many as there is room for.
    pub fn refill<S: Source>(&mut self, input: &mut S) -> Result<(), Stop>
        requires { (self.old.rest ≡ Rest.More) × (length self.old.bytes < most_of_unit) }
        ensures ok { OnOk result (Refills self.old self.new (side S.left input.old input.new)) }
        ensures err { let read = side S.left input.old input.new in
            IfErr result (λ stop. (stop ≡ Stop.ReadFault) × Fails self.old read) }
        ensures cause { HasCause (S.faults input.old) (S.faults input.new) result }
    {
        to_front(&mut self.room, self.start, self.end);
        self.end -= self.start;
        self.start = 0;
        let want = (ROOM - self.end).min((LIMIT + 1 - self.taken) as usize);
        match fill(input, &mut self.room[self.end..self.end + want]) {
            Ok(count) => {
                let rest = rest_after(self.taken + count as u64, count, want);
                let count = kept(rest, count);
                self.rest = rest;
                self.taken += count as u64;
                self.end += count;
                Ok(())
            }
            Err(_) => Err(Stop::ReadFault),
        }
    }
}
