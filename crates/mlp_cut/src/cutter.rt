//! Cutting a stream.
ghost use Rattle.std.specs.Prelude.{◌≡◌, ◌<◌, ◌≤◌, [], true, length, Some, IfErr, OnErr};
ghost use Rattle.mlp_cut.specs.Cut.{is_inside, lacks_restart};
ghost use Rattle.mlp_cut.specs.Cutting.{cut_out};
ghost use Rattle.mlp_cut.specs.Cutter.{held_with, opened, last_of, cut_step, cut_count};
ghost use Rattle.mlp_io.specs.Limit.{limit};
ghost use Rattle.mlp_stream.specs.Moves.{said, moved};

use mlp_answers::{no_unit, refusal_of};
use mlp_outline::Outliner;
use mlp_stream::{Refusal, Session};
use mlp_syntax::{MajorSync, UnitBytes};
use std::marker::Model;

/// Whether the unit of this number is in the cut.
fn is_inside(first: u64, count: u64, number: u64) -> bool
    ensures { result ≡ is_inside first count number }
{
    number >= first && number - first < count
}

/// Whether the cut begins at this unit, has units, and the unit has no major sync.
fn lacks_restart(first: u64, count: u64, number: u64, major: &Option<MajorSync>) -> bool
    ensures { result ≡ lacks_restart first count number major.now }
{
    number == first && count != 0 && major.is_none()
}

/// Replaces `out` by the bytes of a unit, where it is in the cut.
fn put_piece(
    first: u64,
    count: u64,
    number: u64,
    major: &Option<MajorSync>,
    unit: &[u8],
    out: &mut UnitBytes,
) -> Result<(), Refusal>
    requires { length unit.now ≤ 8190 }
    ensures piece { cut_out first count number major.now unit.now ≡ said result out.new.items }
    ensures none { OnErr result (out.new.items ≡ []) }
{
    out.clear();
    if lacks_restart(first, count, number, major) {
        return Err(Refusal::NoRestart { unit: first });
    }
    if is_inside(first, count, number) {
        let _fits = out.try_extend_from_slice(unit);
    }
    Ok(())
}

/// Takes the next unit, and replaces `out` by its bytes, where it is in the cut.
fn take_unit(
    first: u64,
    count: u64,
    outliner: &mut Outliner,
    next: &[u8],
    out: &mut UnitBytes,
) -> Result<usize, Refusal>
    requires { outliner.old.units < limit }
    ensures unit { let held = held_with first count in
        cut_step (held outliner.old) true next.now ≡ moved result out.new.items (held outliner.new) }
    ensures none { OnErr result (out.new.items ≡ []) }
{
    out.clear();
    let number = outliner.units();
    match outliner.unit(next) {
        Ok((size, outer)) => {
            match put_piece(first, count, number, &outer.major, &next[..size], out) {
                Ok(()) => Ok(size),
                Err(refusal) => Err(refusal),
            }
        }
        Err(declined) => Err(refusal_of(declined)),
    }
}

/// What is said behind so many units.
fn last_word(refusal: Option<Refusal>, first: u64, count: u64, units: u64) -> Result<(), Refusal>
    ensures { last_of refusal first count units ≡ said result [] }
{
    if let Some(refusal) = refusal {
        return Err(refusal);
    }
    if units == 0 {
        return Err(no_unit());
    }
    if units < first || units - first < count {
        return Err(Refusal::NotThere { units });
    }
    Ok(())
}

/// Cuts a stream: writes `count` of its access units, from the unit of number `first` on, byte for byte. All that it keeps
/// has a fixed size.
///
/// A cut that has units begins at one with a major sync. The outer parts of all units are read, also of those behind the
/// cut; no segment is read, and a terminator ends nothing.
#[derive(Drop)]
pub struct Cutter {
    first: u64,
    count: u64,
    outliner: Outliner,
    refusal: Option<Refusal>,
}

impl Model for Cutter {
    ghost use Rattle.mlp_cut.specs.Cutter.{Held};

    ghost Value = { Held };

    ghost view = { λ s. record { first = s.first; count = s.count; read = s.outliner; refusal = s.refusal } };
}

impl Cutter {
    /// A cutter that has taken no unit.
    pub fn open(first: u64, count: u64) -> Cutter
        ensures { result ≡ opened first count }
    {
        Cutter {
            first,
            count,
            outliner: Outliner::open(),
            refusal: None,
        }
    }
}

/// A refusal of `unit` is one of its outer part, or [`Refusal::NoRestart`]. At the end it is [`Refusal::NotThere`], that of
/// a stream without a unit, or the one that came before.
impl Session for Cutter {
    ghost use Rattle.mlp_cut.specs.Cutter.{cut_step, cut_last, cut_count};
    ghost use Rattle.mlp_cut.specs.SessionLaws.{cut_lawful};

    ghost step = { cut_step };

    ghost last = { cut_last };

    ghost count = { cut_count };

    ghost lawful = { cut_lawful };

    fn waits(&self, next: &[u8]) -> bool {
        self.refusal.is_none() && self.outliner.waits(next)
    }

    fn unit(&mut self, next: &[u8], out: &mut UnitBytes) -> Result<usize, Refusal>
        requires some { 0 < length next.now }
        requires room { cut_count self.old < limit }
        ensures unit { cut_step self.old true next.now ≡ moved result out.new.items self.new }
        ensures kept { IfErr result (λ r. (out.new.items ≡ []) × (self.new.refusal ≡ Some r)) }
    {
        out.clear();
        if let Some(refusal) = self.refusal {
            return Err(refusal);
        }
        match take_unit(self.first, self.count, &mut self.outliner, next, out) {
            Ok(size) => Ok(size),
            Err(refusal) => {
                self.refusal = Some(refusal);
                Err(refusal)
            }
        }
    }

    fn end(&self, out: &mut UnitBytes) -> Result<(), Refusal> {
        out.clear();
        last_word(self.refusal, self.first, self.count, self.outliner.units())
    }
}
