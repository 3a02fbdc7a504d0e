//! What goes on from one unit to the next, and how a unit is sent.
ghost use Rattle.std.specs.Prelude.{◌≡◌, ◌≤◌, ◌<◌, ◌+◌, ◌^◌, Ok, None, Some, All, take, length, replicate, pos, OnOk, if◌then◌else◌};
ghost use Rattle.std.specs.Option.{option_copied};
ghost use Rattle.mlp_predict.specs.Prediction.{zeros};
ghost use Rattle.mlp_fifo.specs.Pace.{IsRate, unit_of};
ghost use Rattle.mlp_fifo.specs.Placed.{placed};
ghost use Rattle.mlp_bits.specs.Bits.{bits_of};
ghost use Rattle.mlp_substream.specs.Checks.{bytes_of};
ghost use Rattle.mlp_fold.specs.Profile.{checked, AreMixed};
ghost use Rattle.mlp_fold.specs.Mix.{AreSamples};
ghost use Rattle.mlp_encode.specs.Numbers.{has_sync, low_zeros};
ghost use Rattle.mlp_encode.specs.Sync.{sync_of};
ghost use Rattle.mlp_encode.specs.Unit.{AreNext, filled, coded, major_of, body_size, unit_bytes, next_sent};
ghost use Rattle.mlp_encode.specs.Encoding.{IsEncoding, IsMade, IsBody, going_of, body_with, placed_bytes, answered};

use crate::numbers::has_sync;
use crate::sync::sync_of;
use crate::unit::{Written, checks_behind, send_substreams, terminator_of};
use arrayvec::ArrayVec;
use mlp_bits::BitWriter;
use mlp_fifo::{Fifo, Pace};
use mlp_fold::{CodedFrame, Profile, code_frames};
use mlp_params::State;
use mlp_predict::Predictor;
use mlp_substream::Place;
use mlp_syntax::{MajorSync, Memory, NoRoom, Segment, UnitBytes};
use mlp_unit::write_unit;
use std::alloc::Global;

/// What the units sent so far leave to the next one.
#[derive(Drop)]
pub struct Progress {
    pub profile: Profile,
    /// The number of units.
    pub units: u64,
    /// What is in force in each substream, as it is sent.
    pub sending: [Option<State>; 3],
    /// The same, as it is written.
    pub writing: [Option<State>; 3],
    /// The latest outputs and differences of each channel.
    pub pasts: [Predictor<8, 4>; 8],
    /// The running check of each presentation.
    pub checks: [u32; 3],
    pub fifo: Fifo,
}

/// What is written over in each unit.
#[derive(Drop)]
pub struct Scratch {
    pub coded: [CodedFrame; 160],
    pub written: Written,
}

impl Scratch {
    /// Room for a unit.
    pub fn new() -> Scratch {
        Scratch {
            coded: [CodedFrame {
                values: [0; 8],
                bypass: 0,
            }; 160],
            written: Written {
                segment: Segment::default(),
                writer: BitWriter::new(),
                entries: ArrayVec::new(),
                bytes: ArrayVec::new(),
            },
        }
    }
}

/// Nothing is in force in any substream.
fn forget(states: &mut [Option<State>; 3])
    ensures { states.new ≡ replicate 3 None }
{
    for j in 0..3 {
        states[j] = None;
    }
}

/// The pasts of all channels become zeros.
fn forget_pasts(pasts: &mut [Predictor<8, 4>; 8])
    ensures { pasts.new ≡ replicate 8 (zeros 8 4) }
{
    for channel in 0..8 {
        pasts[channel].reset();
    }
}

impl Progress {
    ghost use Rattle.std.specs.Prelude.{IfOk, Ok};
    ghost use Rattle.mlp_fold.specs.Profile.{checked};
    ghost use Rattle.mlp_encode.specs.Left.{going};
    ghost use Rattle.mlp_encode.specs.Encoding.{IsEncoding, going_of};

    /// No unit yet. It takes all memory that it ever needs.
    pub fn open(alloc: Global, profile: Profile) -> Result<Progress, Memory>
        requires { checked profile ≡ Ok tt }
        ensures is { IfOk result (λ x. going_of x ≡ going profile) }
        ensures lawful { IfOk result IsEncoding }
    {
        let fifo = Fifo::open(alloc, profile.kind, profile.rate)?;
        Ok(Progress {
            profile,
            units: 0,
            sending: [None, None, None],
            writing: [None, None, None],
            pasts: [
                Predictor::new(),
                Predictor::new(),
                Predictor::new(),
                Predictor::new(),
                Predictor::new(),
                Predictor::new(),
                Predictor::new(),
                Predictor::new(),
            ],
            checks: [0; 3],
            fifo,
        })
    }

    /// The same, in place.
    pub fn reset(&mut self, profile: Profile)
        requires { checked profile ≡ Ok tt }
        ensures is { going_of self.new ≡ going profile }
        ensures lawful { IsEncoding self.new }
    {
        self.fifo.reset(profile.kind, profile.rate);
        self.profile = profile;
        self.units = 0;
        forget(&mut self.sending);
        forget(&mut self.writing);
        forget_pasts(&mut self.pasts);
        self.checks = [0; 3];
    }
}

/// The number of frames of a unit: 40, 80 or 160.
fn unit_frames(profile: &Profile) -> u16
    requires { IsRate profile.now.rate }
    ensures is { result ≡ unit_of profile.now.rate }
    ensures most { result ≤ 160 }
{
    Pace::of(profile.kind, profile.rate).unit as u16
}

/// Codes frames of zeros.
fn code_silence(profile: &Profile, coding: &mut [CodedFrame])
    requires profile { AreMixed profile.now.mix profile.now.depth profile.now.channels }
    ensures { coding.new
        ≡ coded profile.now (replicate (length coding.old) (replicate 8 (pos 0))) }
{
    for i in 0..coding.len() {
        coding[i] = mlp_fold::coded(profile.mix, profile.depth, profile.channels, &[0; 8]);
    }
}

/// Codes the frames of a unit, filled up with frames of zeros. All of them have so many.
fn code_unit(profile: &Profile, rows: &[[i32; 8]], count: usize, coding: &mut [CodedFrame; 160])
    requires profile { AreMixed profile.now.mix profile.now.depth profile.now.channels }
    requires count { count ≡ unit_of profile.now.rate }
    requires most { count ≤ 160 }
    requires few { length rows.now ≤ count }
    requires samples { let p = profile.now in
        All (AreSamples (low_zeros p.depth) p.channels) rows.now }
    ensures { take count coding.new ≡ coded profile.now (filled profile.now rows.now) }
{
    let there = rows.len();
    code_frames(
        profile.mix,
        profile.depth,
        profile.channels,
        rows,
        &mut coding[..there],
    );
    code_silence(profile, &mut coding[there..count]);
}

/// There are the pasts of eight channels.
fn law_pasts(pasts: &[Predictor<8, 4>; 8])
    ensures { length pasts.now ≡ 8 }
{}

/// Makes the next unit, of these frames.
fn make_unit(progress: &mut Progress, rows: &[[i32; 8]], last: bool, scratch: &mut Scratch)
    requires progress { IsEncoding progress.old }
    requires frames { AreNext progress.old.profile rows.now last }
    requires count { progress.old.units ≤ 2 ^ 40 }
    ensures { let g = going_of progress.old in
        IsMade g rows.now last (body_with (major_of g) scratch.new.written) progress.new }
{
    let profile = &progress.profile;
    let all = unit_frames(profile);
    let count = usize::from(all);
    let major = has_sync(progress.units);
    code_unit(profile, rows, count, &mut scratch.coded);
    send_substreams(
        profile,
        &Place {
            format: profile.kind,
            unit_frames: all,
            major,
        },
        progress.units,
        progress.fifo.next_output(),
        &progress.checks,
        &scratch.coded[..count],
        terminator_of(profile.kind, all - rows.len() as u16, last),
        &mut progress.sending,
        &mut progress.writing,
        &mut progress.pasts,
        &mut scratch.written,
    );
    checks_behind(profile, major, rows, &mut progress.checks);
    law_pasts(&progress.pasts);
}

/// The major sync of the unit of this number, if it has one.
fn major_of(profile: &Profile, unit: u64) -> Option<MajorSync>
    requires { IsRate profile.now.rate }
    ensures { result ≡ (if has_sync unit then Some (sync_of profile.now) else None) }
{
    if has_sync(unit) {
        Some(sync_of(profile))
    } else {
        None
    }
}

/// How many bytes a unit has.
fn unit_size(major: Option<&MajorSync>, written: &Written) -> u32
    requires { IsBody (body_with (option_copied major) written.now) }
    ensures { result ≡ body_size (body_with (option_copied major.entry) written.now) }
{
    let sync = match major {
        None => 0,
        Some(major) => 28 + major.extension.len(),
    };
    (4 + sync + 2 * written.entries.len() + written.bytes.len()) as u32
}

/// The bits of bytes tell the bytes.
fn law_bits(bytes: &[u8])
    ensures { bytes_of (bits_of bytes.now) ≡ bytes.now }
{}

/// Replaces `out` by a unit that begins to arrive at a time, in sample periods.
fn write_sent(major: Option<&MajorSync>, time: u64, written: &Written, out: &mut UnitBytes)
    requires { IsBody (body_with (option_copied major) written.now) }
    ensures { out.new.items ≡ unit_bytes time (body_with (option_copied major.entry) written.now) }
{
    let timing = (time % 65536) as u16;
    let _too_long = write_unit(timing, major, &written.entries, &written.bytes, out);
    law_bits(out.as_slice());
}

/// Places a unit that was made, and replaces `out` by it.
fn place_unit(
    major: Option<&MajorSync>,
    written: &Written,
    fifo: &mut Fifo,
    out: &mut UnitBytes,
) -> Result<(), NoRoom>
    requires body { IsBody (body_with (option_copied major) written.now) }
    requires count { fifo.old.count < 2 ^ 40 }
    ensures placed { let body = body_with (option_copied major.entry) written.now in
        placed_bytes body (placed fifo.old (body_size body))
        ≡ answered result out.new.items fifo.new }
    ensures counts { OnOk result (fifo.new.count ≡ fifo.old.count + 1) }
    ensures kind { OnOk result (fifo.new.kind ≡ fifo.old.kind) }
    ensures rate { OnOk result (fifo.new.rate ≡ fifo.old.rate) }
{
    let time = fifo.place(unit_size(major, written))?;
    write_sent(major, time.unsigned_abs(), written, out);
    Ok(())
}

/// Sends the next unit, of these frames, and replaces `out` by it.
pub fn send_next(
    progress: &mut Progress,
    rows: &[[i32; 8]],
    last: bool,
    scratch: &mut Scratch,
    out: &mut UnitBytes,
) -> Result<(), NoRoom>
    requires progress { IsEncoding progress.old }
    requires frames { AreNext progress.old.profile rows.now last }
    requires count { progress.old.units < 2 ^ 40 }
    ensures sent { next_sent (Ok (going_of progress.old)) rows.now last
        ≡ answered result out.new.items (Ok (going_of progress.new)) }
    ensures lawful { OnOk result (IsEncoding progress.new) }
{
    make_unit(progress, rows, last, scratch);
    let major = major_of(&progress.profile, progress.units);
    place_unit(major.as_ref(), &scratch.written, &mut progress.fifo, out)?;
    progress.units += 1;
    Ok(())
}
