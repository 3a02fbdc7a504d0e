//! Reading the outer part of an access unit.
ghost use Rattle.std.specs.Option.{option_copied};
ghost use Rattle.std.specs.Prelude.{◌≡◌, ◌≤◌, ◌+◌, ◌*◌, ◌/◌, ◌%◌, ◌&&◌, IsTrue, true, [], nat_le, is_some, Some, None, MatchResult, IfOk, IfSome, length, Ok, Err, take, drop};
ghost use Rattle.mlp_bits.specs.Bits.{bits_of};
ghost use Rattle.mlp_layout.specs.Reading.{Gives};
ghost use Rattle.mlp_layout.specs.Layout.{next_is};
ghost use Rattle.mlp_layout.specs.Combined.{first_fault, present};
ghost use Rattle.mlp_major.specs.MajorSync.{major_sync, sync, IsUsable};
ghost use Rattle.mlp_unit.specs.AccessUnit.{head as head_layout, in_force, stream_kind, substreams_of, major_size, behind_sync, parts, rules};
ghost use Rattle.mlp_unit.specs.Frame.{frame_of};
ghost use Rattle.mlp_unit.specs.Shape.{unit_of, unit_with, body_place, HasCount, HoldsSegments, GivesOuter, GivesNext};

use crate::directory::read_entries;
use crate::head::{first_head, framed_head};
use crate::rules::{first_bad_end, first_extra_word, first_restart_flag};
use crate::stream::{in_force, stream_kind};
use arrayvec::ArrayVec;
use mlp_bits::{BitReader, nibble_parity};
use mlp_layout::broken;
use mlp_major::{SYNC, read_sync};
use mlp_syntax::{Broken, DirEntry, Field, FormatInfo, Kind, MajorSync, Outer, UnitHead};

/// Whether the unit has 8 bytes at least, and the bits behind its head are those of a sync.
fn has_sync(unit: &[u8]) -> bool
    requires { length unit.now ≤ 8190 }
    ensures { result ≡ (nat_le 8 (length unit.now) && next_is 31 sync (drop 32 (bits_of unit.now))) }
{
    if unit.len() < 8 {
        return false;
    }
    let mut r = BitReader::new(&unit[4..]);
    let Ok(bits) = r.take(31) else {
        return false;
    };
    bits == SYNC
}

/// Reads the major sync, which is there, into `major`. It is kept out of the way of the units without one.
#[inline(never)]
#[tactic(auto, unfolding(mlp_layout::specs::Layout::seen, mlp_layout::specs::Layout::made, mlp_layout::specs::Combined::chosen, mlp_layout::specs::Combined::present))]
fn read_major(
    unit: &[u8],
    first: Option<&MajorSync>,
    major: &mut Option<MajorSync>,
    r: &mut BitReader,
) -> Result<(), Broken>
    requires same { r.old.all ≡ bits_of unit.now }
    requires whole { r.old.place % 8 ≡ 0 }
    requires room { r.old.place + 32 ≤ 8 * length unit.now }
    ensures read { Gives (λ x. major.new) r.old r.new result
        ((present true (major_sync (option_copied first.entry))).read r.old.all r.old.place) }
    ensures usable { IfOk result (λ x. IfSome major.new IsUsable) }
{
    *major = Some(read_sync(unit, first, r)?);
    Ok(())
}

/// Reads the major sync into `major`, where one is there.
#[inline(always)]
#[tactic(auto, unfolding(mlp_layout::specs::Layout::seen, mlp_layout::specs::Layout::made, mlp_layout::specs::Combined::chosen, mlp_layout::specs::Combined::present))]
fn read_present(
    there: bool,
    unit: &[u8],
    first: Option<&MajorSync>,
    major: &mut Option<MajorSync>,
    r: &mut BitReader,
) -> Result<(), Broken>
    requires none { major.old ≡ None }
    requires same { r.old.all ≡ bits_of unit.now }
    requires whole { r.old.place % 8 ≡ 0 }
    requires room { IsTrue there → r.old.place + 32 ≤ 8 * length unit.now }
    ensures read { Gives (λ x. major.new) r.old r.new result
        ((present there (major_sync (option_copied first.entry))).read r.old.all r.old.place) }
    ensures usable { IfOk result (λ x. IfSome major.new IsUsable) }
{
    if there {
        return read_major(unit, first, major, r);
    }
    Ok(())
}

/// Reads the entries behind the major sync, or behind the head where there is none.
#[inline(always)]
fn read_behind_sync(
    unit: &[u8],
    first: Option<&MajorSync>,
    head: UnitHead,
    major: &Option<MajorSync>,
    entries: &mut ArrayVec<DirEntry, 4>,
    r: &mut BitReader,
) -> Result<(), Broken>
    requires empty { entries.old.items ≡ [] }
    requires same { r.old.all ≡ bits_of unit.now }
    requires size { length unit.now ≡ 2 * head.words }
    requires place { r.old.place ≡ 32 + 8 * major_size major.now }
    requires few { substreams_of (in_force (option_copied first) major.now) ≤ 4 }
    ensures read { MatchResult result
        (λ x. (behind_sync (option_copied first.entry) head major.now).read r.old.all r.old.place
        ≡ Ok (unit_of unit.now head major.now entries.new.items (r.new.place / 8), 8 * length unit.now))
        (λ e. (behind_sync (option_copied first.entry) head major.now).read r.old.all r.old.place ≡ Err e) }
    ensures body { IfOk result
        (λ x. r.new.place / 8 ≡ body_place (unit_of unit.now head major.now entries.new.items (r.new.place / 8))) }
{
    let Some(sync) = in_force(first, major) else {
        return Err(broken(Field::FirstSync, r.place()));
    };
    read_entries(sync.substreams, entries, r)?;
    let _body = r.place();
    Ok(())
}

/// The byte of the unit at which the directory begins.
fn directory_start(major: &Option<MajorSync>) -> u32
    ensures { result ≡ 4 + major_size major.now }
{
    match major {
        None => 4,
        Some(major) => 32 + major.extension.len() as u32,
    }
}

/// The rules on the directory, in their order. Bits are counted from the unit's first.
#[inline(always)]
fn check_directory(
    unit: &[u8],
    first: Option<&MajorSync>,
    head: UnitHead,
    major: &Option<MajorSync>,
    entries: &[DirEntry],
    body: usize,
) -> Result<(), Broken>
    requires framed { frame_of unit.now ≡ Ok (length unit.now) }
    requires read { (parts (option_copied first)).read (bits_of unit.now) 0
        ≡ Ok (unit_of unit.now head major.now entries.now body, 8 * length unit.now) }
    requires body { body ≡ body_place (unit_of unit.now head major.now entries.now body) }
    requires few { length entries.now ≤ 4 }
    ensures { MatchResult result (λ x. first_fault (rules (option_copied first.entry))
        (unit_of unit.now head major.now entries.now body) ≡ None)
        (λ e. first_fault (rules (option_copied first.entry)) (unit_of unit.now head major.now entries.now body)
        ≡ Some (e.field, e.bit)) }
{
    let start = directory_start(major);
    let kind = stream_kind(in_force(first, major));
    if let Some(place) = first_extra_word(kind, 8 * start, entries) {
        return Err(broken(Field::ExtraWord, place));
    }
    if nibble_parity(&unit[..4], &unit[start as usize..body]) != 0xF {
        return Err(broken(Field::UnitParity, 0));
    }
    if let Some(place) = first_restart_flag(major.is_some(), 8 * start, entries) {
        return Err(broken(Field::RestartFlag, place + 1));
    }
    let last = (unit.len() - body) / 2;
    if let Some(place) = first_bad_end(last, 8 * start, entries) {
        return Err(broken(Field::DirectoryEnd, place + 4));
    }
    Ok(())
}

/// The outer part of a unit with this head, which was read from its first bytes.
#[inline(always)]
fn read_framed(unit: &[u8], head: UnitHead, first: Option<&MajorSync>) -> Result<Outer, Broken>
    requires framed { frame_of unit.now ≡ Ok (length unit.now) }
    requires head { head_layout.read (bits_of unit.now) 0 ≡ Ok (head, 32) }
    requires few { substreams_of (option_copied first) ≤ 4 }
    ensures read { GivesOuter (option_copied first.entry) unit.now result }
    ensures body { IfOk result (λ o. o.body ≡ body_place (unit_with unit.now o)) }
    ensures count { IfOk result (HasCount (option_copied first.entry)) }
    ensures ends { IfOk result (HoldsSegments unit.now) }
    ensures usable { IfOk result (λ o. IfSome o.major IsUsable) }
{
    let mut major: Option<MajorSync> = None;
    let mut entries: ArrayVec<DirEntry, 4> = ArrayVec::new();
    let mut r = BitReader::new(unit);
    r.skip(32);
    read_present(has_sync(unit), unit, first, &mut major, &mut r)?;
    read_behind_sync(unit, first, head, &major, &mut entries, &mut r)?;
    let body = r.place() / 8;
    check_directory(unit, first, head, &major, &entries, body as usize)?;
    Ok(Outer {
        head,
        major,
        entries,
        body,
    })
}

/// The outer part of an access unit. `first` is the stream's first major sync, and `None` for the first unit.
///
/// `frame` gave exactly this length.
///
/// # Errors
///
/// The first rule that fails: of the head, of the major sync, where one is there, and then of the directory.
#[inline(never)]
pub fn read_outer(unit: &[u8], first: Option<&MajorSync>) -> Result<Outer, Broken>
    requires framed { frame_of unit.now ≡ Ok (length unit.now) }
    requires few { substreams_of (option_copied first) ≤ 4 }
    ensures read { GivesOuter (option_copied first.entry) unit.now result }
    ensures body { IfOk result (λ o. o.body ≡ body_place (unit_with unit.now o)) }
    ensures count { IfOk result (HasCount (option_copied first.entry)) }
    ensures ends { IfOk result (HoldsSegments unit.now) }
    ensures usable { IfOk result (λ o. IfSome o.major IsUsable) }
{
    let head = first_head(unit)?;
    read_framed(unit, head, first)
}

/// The next unit's length in bytes, and its outer part: what `frame` and `read_outer` say, with the head read once.
/// `next` is the rest of a stream or at least its first 8190 bytes.
///
/// # Errors
///
/// Those of `frame`, and then those of `read_outer`.
#[inline(never)]
pub fn next_outer(next: &[u8], first: Option<&MajorSync>) -> Result<(usize, Outer), Broken>
    requires few { substreams_of (option_copied first) ≤ 4 }
    ensures read { GivesNext (option_copied first.entry) next.now result }
    ensures frame { IfOk result (λ x. frame_of next.now ≡ Ok x.0) }
    ensures body { IfOk result (λ x. x.1.body ≡ body_place (unit_with (take x.0 next.now) x.1)) }
    ensures count { IfOk result (λ x. HasCount (option_copied first.entry) x.1) }
    ensures ends { IfOk result (λ x. HoldsSegments (take x.0 next.now) x.1) }
    ensures usable { IfOk result (λ x. IfSome x.1.major IsUsable) }
{
    let head = framed_head(next)?;
    let size = 2 * usize::from(head.words);
    let outer = read_framed(&next[..size], head, first)?;
    Ok((size, outer))
}
