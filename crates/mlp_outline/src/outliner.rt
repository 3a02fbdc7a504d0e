//! Reading the outer parts of a stream's units, one after the other.
ghost use Rattle.std.specs.Option.{option_copied};
ghost use Rattle.std.specs.Prelude.{◌≡◌, ◌≤◌, ◌<◌, ◌^◌, take, length, Err, IfOk, IfSome};
ghost use Rattle.mlp_major.specs.MajorSync.{IsUsable};
ghost use Rattle.mlp_unit.specs.AccessUnit.{in_force, substreams_of};
ghost use Rattle.mlp_unit.specs.Shape.{unit_with, body_place, HasCount, HoldsSegments};
ghost use Rattle.mlp_unit.specs.Written.{FirstUsable};
ghost use Rattle.mlp_unit.specs.Outline.{outline};
ghost use Rattle.mlp_layout.specs.Streams.{outer_fault};
ghost use Rattle.mlp_walk.specs.Next.{fault_of, next_of};
ghost use Rattle.mlp_outline.specs.Outlining.{nothing_read, next_outline, outlined_of, after_outline, waits};

use crate::next::is_open;
use arrayvec::ArrayVec;
use mlp_syntax::{Broken, Fault, MajorSync, Outer};
use mlp_unit::next_outer;
use mlp_walk::Refusal;
use std::marker::Model;

/// The fault of the outer part of the unit of this number.
pub fn outer_refusal(number: u64, broken: Broken) -> Refusal
    ensures { result ≡ Refusal.Fault (fault_of number (outer_fault broken)) }
{
    Refusal::Fault(Fault {
        unit: number,
        substream: 0,
        field: broken.field,
        bit: broken.bit,
    })
}

/// The same major sync once more.
pub fn copied_sync(sync: &MajorSync) -> MajorSync
    ensures { result ≡ sync.now }
{
    let mut extension: ArrayVec<u8, 32> = ArrayVec::new();
    let _full = extension.try_extend_from_slice(&sync.extension);
    MajorSync {
        format: sync.format,
        flags: sync.flags,
        reserved: sync.reserved,
        variable: sync.variable,
        peak: sync.peak,
        substreams: sync.substreams,
        carried: sync.carried,
        extended: sync.extended,
        info: sync.info,
        meaning: sync.meaning,
        extension,
    }
}

/// Keeps the major sync of a unit, where it is the stream's first one.
pub fn keep_first(first: &mut Option<MajorSync>, major: &Option<MajorSync>)
    ensures { first.new ≡ in_force first.old major.now }
{
    if first.is_none()
        && let Some(sync) = major
    {
        *first = Some(copied_sync(sync));
    }
}

/// The next unit's length in bytes, and its outer part, behind so many units with this first major sync.
fn outer_behind(
    number: u64,
    first: Option<&MajorSync>,
    next: &[u8],
) -> Result<(usize, Outer), Refusal>
    requires few { substreams_of (option_copied first) ≤ 4 }
    ensures next { next_of outline None number (option_copied first.entry) next.now ≡ outlined_of next.now result }
    ensures within { IfOk result (λ x. (4 ≤ x.0) × (x.0 ≤ 8190) × (x.0 ≤ length next.now)) }
    ensures body { IfOk result (λ x. x.1.body ≡ body_place (unit_with (take x.0 next.now) x.1)) }
    ensures count { IfOk result (λ x. HasCount (option_copied first.entry) x.1) }
    ensures ends { IfOk result (λ x. HoldsSegments (take x.0 next.now) x.1) }
    ensures usable { IfOk result (λ x. IfSome x.1.major IsUsable) }
{
    match next_outer(next, first) {
        Ok(taken) => Ok(taken),
        Err(broken) => Err(outer_refusal(number, broken)),
    }
}

/// A reader of a stream's outer parts: no segment is read. All that it keeps has a fixed size.
#[derive(Drop)]
pub struct Outliner {
    units: u64,
    first: Option<MajorSync>,
    refusal: Option<Refusal>,
}

impl Model for Outliner {
    ghost use Rattle.mlp_unit.specs.Written.{FirstUsable};
    ghost use Rattle.mlp_outline.specs.Outlining.{Outlined};

    ghost Value = { Outlined };

    ghost view = { λ o. record { units = o.units; first = o.first; refusal = o.refusal } };

    ghost invariant = { λ o. FirstUsable o.first };
}

impl Outliner {
    /// A reader that has taken no unit.
    pub fn open() -> Outliner
        ensures { result ≡ nothing_read }
    {
        Outliner {
            units: 0,
            first: None,
            refusal: None,
        }
    }

    /// The number of units taken.
    pub fn units(&self) -> u64
        ensures { result ≡ self.now.units }
    {
        self.units
    }

    /// The stream's first major sync, once a unit was taken.
    pub fn first(&self) -> Option<&MajorSync>
        ensures first { option_copied result ≡ self.now.first }
        ensures usable { FirstUsable self.now.first }
    {
        self.first.as_ref()
    }

    /// Whether the next unit depends on bytes behind these.
    pub fn waits(&self, next: &[u8]) -> bool
        ensures { result ≡ waits self.now next.now }
    {
        self.refusal.is_none() && is_open(next)
    }

    /// Takes one unit, and answers its length in bytes, 4 to 8190, and its outer part. `next` is the rest of the stream
    /// or at least its first 8190 bytes.
    ///
    /// # Errors
    ///
    /// The first rule of the outer parts that the unit breaks. Every later call answers that same refusal.
    pub fn unit(&mut self, next: &[u8]) -> Result<(usize, Outer), Refusal>
        requires count { self.old.units < 2 ^ 40 }
        ensures unit { next_outline self.old next.now ≡ outlined_of next.now result }
        ensures held { self.new ≡ after_outline self.old (next_outline self.old next.now) }
        ensures within { IfOk result (λ x. (4 ≤ x.0) × (x.0 ≤ 8190) × (x.0 ≤ length next.now)) }
        ensures body { IfOk result (λ x. x.1.body ≡ body_place (unit_with (take x.0 next.now) x.1)) }
        ensures segments { IfOk result (λ x. HoldsSegments (take x.0 next.now) x.1) }
        ensures entries { IfOk result (λ x. HasCount self.old.first x.1) }
        ensures usable { IfOk result (λ x. IfSome x.1.major IsUsable) }
    {
        if let Some(refusal) = self.refusal {
            return Err(refusal);
        }
        match outer_behind(self.units, self.first.as_ref(), next) {
            Ok((size, outer)) => {
                keep_first(&mut self.first, &outer.major);
                self.units += 1;
                Ok((size, outer))
            }
            Err(refusal) => {
                self.refusal = Some(refusal);
                Err(refusal)
            }
        }
    }
}
