//! Retiming a stream.
ghost use Rattle.std.specs.Option.{option_copied};
ghost use Rattle.std.specs.Prelude.{◌≡◌, ◌+◌, ◌*◌, ◌<◌, ◌≤◌, ◌^◌, [], true, false, length, take, option_map, is_none, is_some, IfOk, IfErr, IfSome, OnOk, OnErr, MatchResult, Some, None, Ok, Err};
ghost use Rattle.mlp_io.specs.Limit.{limit};
ghost use Rattle.mlp_bits.specs.Bits.{bits_of};
ghost use Rattle.mlp_major.specs.MajorSync.{IsUsable};
ghost use Rattle.mlp_substream.specs.Checks.{bytes_of};
ghost use Rattle.mlp_unit.specs.AccessUnit.{in_force, stream_kind, stream_rate};
ghost use Rattle.mlp_unit.specs.Written.{Writable, unit_size, written_unit, FirstUsable};
ghost use Rattle.mlp_cut.specs.Cut.{unit_bytes};
ghost use Rattle.mlp_stream.specs.Moves.{moved};
ghost use Rattle.mlp_answers.specs.Reading.{refusal_of};
ghost use Rattle.mlp_fifo.specs.Pace.{pace_of};
ghost use Rattle.mlp_fifo.specs.Schedule.{out_of};
ghost use Rattle.mlp_fifo.specs.Placed.{placed, answered};
ghost use Rattle.mlp_walk.specs.Next.{next_of};
ghost use Rattle.mlp_present.specs.Decoding.{Held, opened, is_open_behind};
ghost use Rattle.mlp_present.specs.Parts.{BreaksOuter};
ghost use Rattle.mlp_retime.specs.Top.{highest, top};
ghost use Rattle.mlp_retime.specs.Stamping.{IsCounted, HoldsUnit, rewritten};
ghost use Rattle.mlp_retime.specs.Retimer.{buffer_at, IsPlaced, PutsUnit, TellsHighest, Begins, TakesTop, IsTop, retime_step, retime_count};

use crate::stamping::{restart_place, stamp_body};
use arrayvec::ArrayVec;
use mlp_answers::refusal_of;
use mlp_fifo::Fifo;
use mlp_major::{kind_of, sample_rate};
use mlp_outline::{next_outer, outer_refusal};
use mlp_present::Decoder;
use mlp_stream::{Refusal, Session};
use mlp_syntax::{Kind, MajorSync, Memory, NoRoom, Outer, Segment, UnitBytes};
use mlp_unit::write_unit;
use std::alloc::Global;
use std::marker::Model;

/// The bits of bytes tell the bytes.
fn law_bits(bytes: &[u8])
    ensures { bytes_of (bits_of bytes.now) ≡ bytes.now }
{}

/// Replaces `out` by a unit with this input timing and this body.
fn put_unit(input: u16, outer: &Outer, body: &[u8], out: &mut UnitBytes)
    requires writable { Writable outer.now.major outer.now.entries.items body.now }
    requires counted { IsCounted outer.now.major outer.now.entries.items }
    requires size { unit_size outer.now.major outer.now.entries.items body.now ≤ 8190 }
    ensures { out.new.items ≡ unit_bytes (written_unit input outer.now.major outer.now.entries.items body.now) }
{
    let _fits = write_unit(input, outer.major.as_ref(), &outer.entries, body, out);
    law_bits(out.as_slice());
}

/// How many substreams are read: a fourth one has no presentation of its own.
fn substreams(first: &MajorSync) -> u8
    requires { IsUsable first.now }
    ensures { result ≡ highest (Some first.now) + 1 }
{
    first.substreams.min(3)
}

/// The highest presentation by the first unit's major sync.
fn highest_by(major: &Option<MajorSync>) -> u8
    requires { IfSome major.now IsUsable }
    ensures { result ≡ highest major.now }
{
    match major {
        None => 0,
        Some(major) => substreams(major) - 1,
    }
}

/// Replaces `out` by a unit with these timings. `body` is of no use behind it.
fn put_retimed(
    first: &MajorSync,
    input: u16,
    output: u16,
    unit: &[u8],
    outer: &Outer,
    segment: &mut Segment,
    body: &mut UnitBytes,
    out: &mut UnitBytes,
)
    requires usable { IsUsable first.now }
    requires holds { HoldsUnit (highest (Some first.now) + 1) unit.now outer.now }
    ensures { out.new.items
        ≡ unit_bytes (rewritten first.now (highest (Some first.now) + 1) input output unit.now outer.now) }
{
    if outer.major.is_none() {
        put_unit(input, outer, &unit[outer.body as usize..], out);
        return;
    }
    let place = restart_place(first);
    stamp_body(
        &place,
        substreams(first),
        output,
        unit,
        outer,
        segment,
        body,
    );
    law_bits(body.as_slice());
    put_unit(input, outer, body, out);
}

/// The timings of a unit, as its fields tell them: the low 16 bits of sample periods.
#[derive(Clone, Copy)]
struct Timings {
    input: u16,
    output: u16,
}

/// Places the next unit, which has this many words.
fn place_unit(words: u16, fifo: &mut Fifo) -> Result<Timings, NoRoom>
    requires short { words < 4096 }
    requires count { fifo.old.count < 2 ^ 40 }
    ensures { MatchResult result (IsPlaced fifo.old (2 * words) fifo.new) (λ e. placed fifo.old (2 * words) ≡ Err e) }
{
    let output = (fifo.next_output() % 65536) as u16;
    let time = fifo.place(2 * u32::from(words))?;
    Ok(Timings {
        input: (time as u64 % 65536) as u16,
        output,
    })
}

/// Empties the buffer before the first unit, for a stream with this first major sync.
fn begin_buffer(number: u64, first: &MajorSync, fifo: &mut Fifo)
    requires { IsUsable first.now }
    ensures { fifo.new ≡ buffer_at number first.now fifo.old }
{
    if number == 0 {
        fifo.reset(kind_of(&first.format), sample_rate(first));
    }
}

/// Places the unit of this number, and replaces `out` by the unit with its timings.
///
/// # Errors
///
/// `NoRoom` exactly where the units up to this one have no schedule. Then `out` is unchanged.
fn put_next(
    number: u64,
    first: &MajorSync,
    unit: &[u8],
    outer: &Outer,
    fifo: &mut Fifo,
    segment: &mut Segment,
    body: &mut UnitBytes,
    out: &mut UnitBytes,
) -> Result<(), NoRoom>
    requires usable { IsUsable first.now }
    requires holds { HoldsUnit (highest (Some first.now) + 1) unit.now outer.now }
    requires short { outer.now.head.words < 4096 }
    requires number { (number < 2 ^ 40) × (0 < number → fifo.old.count ≡ number) }
    ensures puts { MatchResult result
        (λ _. PutsUnit first.now (buffer_at number first.now fifo.old) unit.now outer.now fifo.new out.new.items)
        (λ e. placed (buffer_at number first.now fifo.old) (2 * outer.now.head.words) ≡ Err e) }
    ensures kept { OnErr result (out.new ≡ out.old) }
{
    begin_buffer(number, first, fifo);
    let timings = place_unit(outer.head.words, fifo)?;
    put_retimed(
        first,
        timings.input,
        timings.output,
        unit,
        outer,
        segment,
        body,
        out,
    );
    Ok(())
}

/// The highest presentation that the first unit tells.
fn highest_of(next: &[u8]) -> Result<u8, mlp_walk::Refusal>
    ensures told { MatchResult result (TellsHighest next.now) (BreaksOuter false 0 None next.now) }
    ensures most { IfOk result (λ k. k ≤ 2) }
{
    match next_outer(next, None) {
        Ok((_, outer)) => Ok(highest_by(&outer.major)),
        Err(broken) => Err(outer_refusal(0, broken)),
    }
}

/// Before the first unit makes the decoder that of the highest presentation.
fn begin_decoder(next: &[u8], decoder: &mut Decoder) -> Result<(), mlp_walk::Refusal>
    requires { IsTop decoder.old }
    ensures begins { MatchResult result (λ _. Begins decoder.old next.now decoder.new)
        (λ refusal. next_of top None decoder.old.units decoder.old.left next.now ≡ Err refusal) }
    ensures usable { FirstUsable decoder.new.left.sync }
{
    if decoder.units() > 0 {
        return Ok(());
    }
    let k = highest_of(next)?;
    decoder.reset(k);
    Ok(())
}

/// Takes the next unit, and answers its length in bytes.
fn take_next(
    decoder: &mut Decoder,
    frames: &mut ArrayVec<[i32; 8], 160>,
    next: &[u8],
) -> Result<usize, mlp_walk::Refusal>
    requires is_top { IsTop decoder.old }
    requires count { decoder.old.units < 2 ^ 40 }
    ensures taken { MatchResult result (λ size. TakesTop decoder.old next.now size decoder.new)
        (λ refusal. next_of top None decoder.old.units decoder.old.left next.now ≡ Err refusal) }
    ensures usable { FirstUsable decoder.new.left.sync }
    ensures is_top { OnOk result (IsTop decoder.new) }
    ensures within { IfOk result (λ size. (4 ≤ size) × (size ≤ 8190) × (size ≤ length next.now)) }
{
    begin_decoder(next, decoder)?;
    decoder.unit(next, frames)
}

/// Retimes a stream: it writes each access unit with the timings of the earliest schedule of all of them. It takes all
/// memory that it needs as it is opened; what it keeps besides has a fixed size, some 700 KB.
///
/// It refuses what a decoder of the highest presentation refuses. A fourth substream and extra data aren't looked at.
#[derive(Drop)]
pub struct Retimer {
    decoder: Decoder,
    frames: ArrayVec<[i32; 8], 160>,
    fifo: Fifo,
    segment: Segment,
    body: UnitBytes,
    refusal: Option<Refusal>,
}

impl Model for Retimer {
    ghost use Rattle.mlp_retime.specs.Retimer.{RetimeState, IsRetiming};

    ghost Value = { RetimeState };

    ghost view = { λ s. record { held = s.decoder; fifo = s.fifo; refusal = s.refusal } };

    ghost invariant = { λ s. IsRetiming s.decoder s.fifo s.refusal };
}

impl Retimer {
    ghost use Rattle.mlp_retime.specs.Retimer.{retime_opened};

    /// A retimer that has taken no unit.
    ///
    /// # Errors
    ///
    /// `Memory` where there is none for the buffer.
    pub fn open(alloc: Global) -> Result<Retimer, Memory>
        ensures { IfOk result (λ s. s ≡ retime_opened) }
    {
        // the first unit tells the presentation, kind and rate
        let fifo = Fifo::open(alloc, Kind::Fba, 48000)?;
        Ok(Retimer {
            decoder: Decoder::open(0),
            frames: ArrayVec::new(),
            fifo,
            segment: Segment::default(),
            body: ArrayVec::new(),
            refusal: None,
        })
    }
}

/// Behind a refusal every later call of `unit` answers that same refusal, and so does `end`.
impl Session for Retimer {
    ghost use Rattle.mlp_retime.specs.Retimer.{retime_step, retime_last, retime_count};
    ghost use Rattle.mlp_retime.specs.SessionLaws.{retime_lawful};

    ghost step = { retime_step };

    ghost last = { retime_last };

    ghost count = { retime_count };

    ghost lawful = { retime_lawful };

    fn waits(&self, next: &[u8]) -> bool {
        self.refusal.is_none() && self.decoder.waits(next)
    }

    fn unit(&mut self, next: &[u8], out: &mut UnitBytes) -> Result<usize, Refusal>
        requires some { 0 < length next.now }
        requires room { retime_count self.old < limit }
        ensures unit { retime_step self.old true next.now ≡ moved result out.new.items self.new }
        ensures kept { IfErr result (λ r. (out.new.items ≡ []) × (self.new.refusal ≡ Some r)) }
    {
        out.clear();
        if let Some(refusal) = self.refusal {
            return Err(refusal);
        }
        let number = self.decoder.units();
        match take_next(&mut self.decoder, &mut self.frames, next) {
            Ok(size) => {
                let first = self.decoder.major().unwrap();
                let outer = self.decoder.last_outer().unwrap();
                match put_next(
                    number,
                    first,
                    &next[..size],
                    outer,
                    &mut self.fifo,
                    &mut self.segment,
                    &mut self.body,
                    out,
                ) {
                    Ok(()) => Ok(size),
                    Err(no_room) => {
                        self.refusal = Some(Refusal::NoRoom(no_room));
                        Err(Refusal::NoRoom(no_room))
                    }
                }
            }
            Err(declined) => {
                let refusal = refusal_of(declined);
                self.refusal = Some(refusal);
                Err(refusal)
            }
        }
    }

    fn end(&self, out: &mut UnitBytes) -> Result<(), Refusal> {
        out.clear();
        if let Some(refusal) = self.refusal {
            return Err(refusal);
        }
        match self.decoder.end() {
            Ok(()) => Ok(()),
            Err(refusal) => Err(refusal_of(refusal)),
        }
    }
}
