//! What is sent of a unit: its frames filled up, restarts, terminators and segments, and the running checks behind it.
ghost use Rattle.std.specs.Prelude.{Ok, ◌≡◌, ◌≤◌, ◌<◌, ◌+◌, ◌-◌, ◌/◌, ◌*◌, ◌%◌, ◌^◌, ◌++◌, ◌∷◌, [], ℕ, None, Some, true, false, All, map, take, length, slice_index_or, is_some, if◌then◌else◌};
ghost use Rattle.std.specs.List.{range_with_len};
ghost use Rattle.mlp_output.specs.Output.{check_of};
ghost use Rattle.mlp_fifo.specs.Pace.{IsRate, unit_of, pace_of};
ghost use Rattle.mlp_fifo.specs.Schedule.{out_of};
ghost use Rattle.mlp_fold.specs.Profile.{AreMixed};
ghost use Rattle.mlp_fold.specs.Mix.{AreSamples, presented_of};
ghost use Rattle.mlp_fold.specs.Substreams.{substreams_of};
ghost use Rattle.mlp_bits.specs.Bits.{bits_of};
ghost use Rattle.mlp_substream.specs.Segment.{segment as segment_layout, unknown};
ghost use Rattle.arrayvec.specs.ArrayVec.{array_vec_len};
ghost use Rattle.std.specs.Option.{IsSomeAnd};
ghost use Rattle.mlp_encode.specs.Numbers.{low_zeros};
ghost use Rattle.mlp_encode.specs.Blocks.{segment_sent};
ghost use Rattle.mlp_encode.specs.Lawful.{SendsSegment, IsSentSegment, IsEnd, place_in, segment_most};
ghost use Rattle.mlp_fold.specs.Profile.{checked};
ghost use Rattle.mlp_encode.specs.Numbers.{has_sync};
ghost use Rattle.mlp_encode.specs.Lawful.{AreCodedBy, AreInForce};
ghost use Rattle.mlp_encode.specs.Unit.{IsSentUnit, AreWhole, bytes_in, end_word, terminator_of, check_in, restart_in, entry_at, check_with};

use crate::numbers::has_sync;
use crate::segments::send_segment;
use crate::sync::restart_of;
use arrayvec::ArrayVec;
use mlp_bits::BitWriter;
use mlp_fold::{CodedFrame, Profile, sum_presented};
use mlp_output::folded;
use mlp_params::State;
use mlp_predict::Predictor;
use mlp_substream::{Place, write_segment_with};
use mlp_syntax::{DirEntry, Kind, Restart, Segment, UnitBytes};

/// The second word of the terminator, which in TrueHD says how many frames were filled up.
fn end_word(kind: Kind, more: u16) -> u16
    requires { more ≤ 160 }
    ensures { result ≡ end_word kind more }
{
    match kind {
        Kind::Fbb => 0xD234,
        Kind::Fba => 0x2000 + more,
    }
}

/// The terminator of a unit in which so many frames were filled up, if it is the last one.
pub fn terminator_of(kind: Kind, more: u16, last: bool) -> Option<u16>
    requires { more ≤ 160 }
    ensures { result ≡ (if last then Some (end_word kind more) else None) }
{
    if last {
        Some(end_word(kind, more))
    } else {
        None
    }
}

/// The check that a restart carries. No interval ends before the first unit.
fn check_in(unit: u64, running: u32) -> u8
    ensures { result ≡ check_in unit running }
{
    if unit == 0 { 0 } else { folded(running) }
}

/// The restart of a substream, in a unit with a major sync, by the running checks of the presentations. `output` is
/// when the unit is output, in sample periods.
pub fn restart_in(
    profile: &Profile,
    unit: u64,
    output: u64,
    checks: &[u32; 3],
    substream: u8,
) -> Option<Restart>
    requires substream { substream ≤ 2 }
    requires output { output ≡ out_of (pace_of profile.now.kind profile.now.rate) unit }
    ensures { result ≡ restart_in profile.now unit checks.now substream }
{
    if has_sync(unit) {
        let timing = (output % 65536) as u16;
        let check = check_in(unit, checks[usize::from(substream)]);
        Some(restart_of(substream, timing, check))
    } else {
        None
    }
}

/// An entry of a segment that ends at this byte of the body.
fn entry_at(sync: bool, end: usize) -> DirEntry
    requires { end ≤ 8190 }
    ensures { result ≡ entry_at sync (end / 2) }
{
    DirEntry {
        extra: None,
        restart_absent: !sync,
        checked: true,
        reserved: false,
        end: (end / 2) as u16,
    }
}

/// What of a unit was written: the entries and the bytes of its segments. The segment is the latest.
#[derive(Drop)]
pub struct Written {
    pub segment: Segment,
    /// What the segment was written with.
    pub writer: BitWriter,
    /// One for each segment. An end is counted in words.
    pub entries: ArrayVec<DirEntry, 4>,
    pub bytes: UnitBytes,
}

/// Writes what is sent of a substream in a unit behind what was written of the substreams below. `sending` and `writing`
/// are both what is in force in it, and `place` is where the segment stands.
pub fn send_substream(
    profile: &Profile,
    place: &Place,
    substream: u8,
    restart: Option<Restart>,
    frames: &[CodedFrame],
    terminator: Option<u16>,
    sending: &mut Option<State>,
    writing: &mut Option<State>,
    pasts: &mut [Predictor<8, 4>; 8],
    out: &mut Written,
)
    requires sends { SendsSegment profile.now substream restart sending.old frames.now }
    requires place { place.now ≡ place_in profile.now (is_some restart) }
    requires end { IsEnd profile.now terminator }
    requires same { writing.old ≡ sending.old }
    requires entries { array_vec_len out.old.entries < 4 }
    requires room { array_vec_len out.old.bytes + segment_most profile.now substream ≤ 8190 }
    ensures sent { let sent = segment_sent substream profile.now restart sending.old pasts.old frames.now terminator in
        IsSomeAnd sent (λ s. IsSentSegment s out.new.segment sending.new pasts.new) }
    ensures same { writing.new ≡ sending.new }
    ensures bits { bits_of out.new.bytes.items ≡ bits_of out.old.bytes.items
        ++ (segment_layout place.now unknown sending.old true).spelling out.new.segment }
    ensures room { array_vec_len out.new.bytes
        ≤ array_vec_len out.old.bytes + segment_most profile.now substream }
    ensures entries { let end = array_vec_len out.new.bytes / 2 in
        out.new.entries.items ≡ out.old.entries.items ++ entry_at (is_some restart) end ∷ [] }
{
    send_segment(
        profile,
        substream,
        restart,
        frames,
        terminator,
        sending,
        pasts,
        &mut out.segment,
    );
    let _too_long = write_segment_with(
        &mut out.writer,
        place,
        writing,
        &out.segment,
        &mut out.bytes,
    );
    out.entries.push(entry_at(place.major, out.bytes.len()));
}

/// How many bytes there are, each below 256.
fn count_of(bytes: &[u8]) -> usize
    ensures count { result ≡ length bytes.now }
    ensures small { (i : ℕ) → slice_index_or bytes.now i 0 < 2 ^ 8 }
{
    bytes.len()
}

/// Writes the segments of the unit of this number, in place of what was written before. `output` is when the unit is
/// output, in sample periods, `checks` are the running checks, and `sending` and `writing` are both what is in force in
/// each substream.
pub fn send_substreams(
    profile: &Profile,
    place: &Place,
    unit: u64,
    output: u64,
    checks: &[u32; 3],
    frames: &[CodedFrame],
    terminator: Option<u16>,
    sending: &mut [Option<State>; 3],
    writing: &mut [Option<State>; 3],
    pasts: &mut [Predictor<8, 4>; 8],
    out: &mut Written,
)
    requires profile { checked profile.now ≡ Ok tt }
    requires place { place.now ≡ place_in profile.now (has_sync unit) }
    requires output { output ≡ out_of (pace_of profile.now.kind profile.now.rate) unit }
    requires frames { AreCodedBy profile.now frames.now }
    requires end { IsEnd profile.now terminator }
    requires force { AreInForce profile.now unit (take (substreams_of profile.now.channels) sending.old) }
    requires same { writing.old ≡ sending.old }
    ensures sent { IsSentUnit profile.now unit checks.now frames.now terminator sending.old pasts.old
        sending.new pasts.new out.new.entries.items out.new.bytes.items }
    ensures whole { AreWhole profile.now
        (bytes_in profile.now unit checks.now frames.now terminator sending.old pasts.old) }
    ensures same { writing.new ≡ sending.new }
    ensures next { AreInForce profile.now (unit + 1) (take (substreams_of profile.now.channels) sending.new) }
{
    out.entries.clear();
    out.bytes.clear();
    for j in 0..mlp_fold::substreams(profile.channels) {
        let at = usize::from(j);
        let restart = restart_in(profile, unit, output, checks, j);
        let made = &mut sending[at];
        let written = &mut writing[at];
        send_substream(
            profile, place, j, restart, frames, terminator, made, written, pasts, out,
        );
        let _count = count_of(&out.bytes);
    }
}

/// The 24 bits of a word, times 2 to its channel.
fn part_of(word: u32, channel: u8) -> u32
    requires { channel < 8 }
    ensures { result ≡ word % 2 ^ 24 * 2 ^ channel }
{
    (word & 0xFF_FFFF) << channel
}

/// The running check that a unit begins with. A restart begins it anew.
fn check_before(sync: bool, running: u32) -> u32
    ensures { result ≡ (if sync then 0 else running) }
{
    if sync { 0 } else { running }
}

/// The running check of a presentation behind the frames of a unit, channel by channel.
fn check_behind(profile: &Profile, sync: bool, k: u8, running: u32, frames: &[[i32; 8]]) -> u32
    requires shape { AreMixed profile.now.mix profile.now.depth profile.now.channels }
    requires k { k < substreams_of profile.now.channels }
    requires samples { All (AreSamples (24 - profile.now.depth) profile.now.channels) frames.now }
    ensures { let p = profile.now in result ≡ check_of (if sync then 0 else running)
        (map (presented_of p.mix (low_zeros p.depth) p.channels k) frames.now) }
{
    let mut check = check_before(sync, running);
    for c in 0..mlp_fold::channels_of(k) {
        let sum = sum_presented(profile.mix, profile.depth, profile.channels, k, c, frames);
        check ^= part_of(sum, c);
    }
    check
}

/// The running checks of all presentations behind the frames of a unit.
pub fn checks_behind(profile: &Profile, sync: bool, frames: &[[i32; 8]], checks: &mut [u32; 3])
    requires shape { AreMixed profile.now.mix profile.now.depth profile.now.channels }
    requires samples { All (AreSamples (24 - profile.now.depth) profile.now.channels) frames.now }
    ensures { let count = substreams_of profile.now.channels in take count checks.new
        ≡ map (check_with profile.now sync checks.old frames.now) (range_with_len 0 count) }
{
    for k in 0..mlp_fold::substreams(profile.channels) {
        let at = usize::from(k);
        checks[at] = check_behind(profile, sync, k, checks[at], frames);
    }
}
