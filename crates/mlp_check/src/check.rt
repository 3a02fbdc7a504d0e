//! The session of `check`.
ghost use Rattle.std.specs.Prelude.{◌≡◌, ◌+◌, ◌<◌, ◌≤◌, ◌^◌, IfOk, IfSome};
ghost use Rattle.mlp_major.specs.MajorSync.{IsUsable};
ghost use Rattle.mlp_check.specs.Check.{begun, timed_after, one_if};

use crate::report::{Report, put_report};
use arrayvec::ArrayVec;
use mlp_answers::refusal_of;
use mlp_fifo::Checker;
use mlp_major::{kind_of, sample_rate};
use mlp_present::Decoder;
use mlp_stream::{Refusal, Session};
use mlp_syntax::{Kind, MajorSync, Memory, Outer, UnitBytes};
use mlp_unit::stream_rate;
use std::alloc::Global;
use std::marker::Model;

/// Begins a stream at its first unit, which has this major sync.
fn begin(number: u64, major: &Option<MajorSync>, checker: &mut Checker)
    requires { IfSome major.now IsUsable }
    ensures { checker.new ≡ begun number major.now checker.old }
{
    if let Some(major) = major
        && number == 0
    {
        checker.reset(kind_of(&major.format), sample_rate(major));
    }
}

/// Checks the timing of the unit of this number, of which `outer` was read. Answers whether all units so far have the
/// timing of a stream.
fn check_timing(number: u64, outer: &Outer, output: Option<u16>, checker: &mut Checker) -> bool
    requires usable { IfSome outer.now.major IsUsable }
    requires short { outer.now.head.words < 4096 }
    requires count { (checker.old.count ≡ number) × (number < 2 ^ 40) }
    ensures is { checker.new ≡ timed_after number outer.now.head outer.now.major output checker.old }
    ensures timed { result ≡ checker.new.timed }
    ensures count { checker.new.count ≡ number + 1 }
{
    begin(number, &outer.major, checker);
    checker.unit(outer.head.timing, output, 2 * u32::from(outer.head.words))
}

fn one_if(holds: bool) -> u64
    ensures { result ≡ one_if holds }
{
    if holds { 1 } else { 0 }
}

/// Checks a stream: reads all of it as a decoder of a presentation does, and tells at the end what it holds and whether
/// it keeps its timing. It takes all memory that it needs as it is opened.
#[derive(Drop)]
pub struct Check {
    decoder: Decoder,
    frames: ArrayVec<[i32; 8], 160>,
    checker: Checker,
    timed: bool,
    given: u64,
    restarts: u64,
}

impl Model for Check {
    ghost use Rattle.mlp_check.specs.Check.{CheckState, IsChecking};

    ghost Value = { CheckState };

    ghost view = { λ s. record { held = s.decoder; checker = s.checker; frames = s.given; restarts = s.restarts } };

    ghost invariant = { λ s. IsChecking s.decoder s.checker s.timed s.given s.restarts };
}

impl Check {
    ghost use Rattle.mlp_check.specs.Check.{check_opened, report_of};

    /// A session that has taken no unit, for a presentation from 0 to 2.
    ///
    /// # Errors
    ///
    /// `Memory` where there is none for the checker of timings.
    pub fn open(alloc: Global, presentation: u8) -> Result<Check, Memory>
        requires { presentation ≤ 2 }
        ensures { IfOk result (λ s. s ≡ check_opened presentation) }
    {
        // the first unit tells kind and rate
        let checker = Checker::open(alloc, Kind::Fba, 48000)?;
        Ok(Check {
            decoder: Decoder::open(presentation),
            frames: ArrayVec::new(),
            checker,
            timed: true,
            given: 0,
            restarts: 0,
        })
    }

    /// What the units taken hold.
    pub fn report(&self) -> Report
        ensures { result ≡ report_of self.now }
    {
        Report {
            units: self.decoder.units(),
            frames: self.given,
            channels: self.decoder.channels(),
            rate: stream_rate(self.decoder.major()),
            restarts: self.restarts,
            timed: self.timed,
        }
    }
}

impl Session for Check {
    ghost use Rattle.mlp_check.specs.Check.{check_step, check_last, check_count};
    ghost use Rattle.mlp_check.specs.CheckLaws.{check_lawful};

    ghost step = { check_step };

    ghost last = { check_last };

    ghost count = { check_count };

    ghost lawful = { check_lawful };

    fn waits(&self, next: &[u8]) -> bool {
        self.decoder.waits(next)
    }

    fn unit(&mut self, next: &[u8], out: &mut UnitBytes) -> Result<usize, Refusal> {
        out.clear();
        let number = self.decoder.units();
        match self.decoder.unit(next, &mut self.frames) {
            Ok(size) => {
                let output = self.decoder.last_output_timing();
                let outer = self.decoder.last_outer().unwrap();
                self.timed = check_timing(number, outer, output, &mut self.checker);
                self.restarts += one_if(outer.major.is_some());
                self.given += self.frames.len() as u64;
                Ok(size)
            }
            Err(refusal) => Err(refusal_of(refusal)),
        }
    }

    fn end(&self, out: &mut UnitBytes) -> Result<(), Refusal> {
        out.clear();
        match self.decoder.end() {
            Ok(()) => {
                put_report(&self.report(), out);
                Ok(())
            }
            Err(refusal) => Err(refusal_of(refusal)),
        }
    }
}
