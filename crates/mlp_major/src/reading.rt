//! Reading a major sync.
ghost use Rattle.std.specs.Option.{option_copied};
ghost use Rattle.std.specs.Prelude.{◌≡◌, ◌∷◌, [], ◌≤◌, ◌+◌, ◌*◌, ◌%◌, MatchResult, IfOk, length, take, Ok, Err};
ghost use Rattle.mlp_bits.specs.Bits.{bits_of, number as spelled};
ghost use Rattle.mlp_layout.specs.Reading.{Gives, with_front};
ghost use Rattle.mlp_layout.specs.Layout.{number_of};
ghost use Rattle.mlp_layout.specs.Combined.{times};
ghost use Rattle.mlp_major.specs.MajorSync.{extension, fields, checked_sync, judged_sync, major_sync, is_fba, IsUsable};

use crate::format::{SYNC, read_format, read_kind};
use crate::rules::{check_rules, is_same_kind};
use arrayvec::ArrayVec;
use mlp_bits::{BitReader, check16};
use mlp_layout::{broken, byte, flag, number, wide, word};
use mlp_syntax::{Broken, Field, Kind, MajorSync};

/// A major sync with the signature that it has in the bits.
#[derive(Drop)]
pub struct SignedSync {
    pub signature: u16,
    pub major: MajorSync,
}

/// A byte, and behind it so many others.
fn read_bytes(first: u8, count: u8, r: &mut BitReader) -> Result<ArrayVec<u8, 32>, Broken>
    requires { count ≤ 31 }
    ensures { Gives (λ v. v.items) r.old r.new result
        (with_front (first ∷ []) ((times count (number_of 8)).read r.old.all r.old.place)) }
{
    let mut bytes: ArrayVec<u8, 32> = ArrayVec::new();
    bytes.push(first);
    for _ in 0..count {
        let next = byte(8, r)?;
        bytes.push(next);
    }
    Ok(bytes)
}

/// The bytes between channel meaning and check.
#[tactic(auto, unfolding(mlp_layout::specs::Layout::item, mlp_layout::specs::Layout::made, mlp_layout::specs::Combined::chosen, crate::specs::MajorSync::extension))]
fn read_extension(long: bool, r: &mut BitReader) -> Result<ArrayVec<u8, 32>, Broken>
    ensures { Gives (λ v. v.items) r.old r.new result ((extension long).read r.old.all r.old.place) }
{
    if !long {
        return Ok(ArrayVec::new());
    }
    let first = byte(8, r)?;
    read_bytes(first, 1 + 2 * (first / 16), r)
}

fn is_fba(kind: Kind) -> bool
    ensures { result ≡ is_fba kind }
{
    match kind {
        Kind::Fbb => false,
        Kind::Fba => true,
    }
}

/// All fields before the check.
#[tactic(auto, unfolding(mlp_layout::specs::Layout::part, mlp_layout::specs::Layout::ruled, mlp_layout::specs::Layout::made, mlp_layout::specs::Combined::fixed, crate::specs::MajorSync::fields))]
fn read_fields(r: &mut BitReader) -> Result<SignedSync, Broken>
    ensures { Gives (λ s. s) r.old r.new result (fields.read r.old.all r.old.place) }
{
    let at = r.place();
    let sync = number(31, r)?;
    if sync != SYNC {
        return Err(broken(Field::SyncKind, at));
    }
    let kind = read_kind(r)?;
    let format = read_format(kind, r)?;
    let signature = word(16, r)?;
    let flags = word(16, r)?;
    let reserved = word(16, r)?;
    let variable = flag(r)?;
    let peak = word(15, r)?;
    let substreams = byte(4, r)?;
    let carried = byte(2, r)?;
    let extended = byte(2, r)?;
    let info = byte(8, r)?;
    let meaning = wide(r)?;
    let extension = read_extension(is_fba(kind) && meaning % 2 == 1, r)?;
    Ok(SignedSync {
        signature,
        major: MajorSync {
            format,
            flags,
            reserved,
            variable,
            peak,
            substreams,
            carried,
            extended,
            info,
            meaning,
            extension,
        },
    })
}

/// The fields, where all are there and the check behind them holds.
fn read_checked(bytes: &[u8], r: &mut BitReader) -> Result<SignedSync, Broken>
    requires same { r.old.all ≡ bits_of bytes.now }
    requires whole { r.old.place % 8 ≡ 0 }
    ensures { Gives (λ s. s) r.old r.new result (checked_sync.read r.old.all r.old.place) }
{
    let at = r.place();
    let Ok(signed) = read_fields(r) else {
        return Err(broken(Field::MajorCrc, at));
    };
    let end = r.place();
    let Ok(check) = word(16, r) else {
        return Err(broken(Field::MajorCrc, at));
    };
    if check != check16(&bytes[at as usize / 8..end as usize / 8]) {
        return Err(broken(Field::MajorCrc, at));
    }
    Ok(signed)
}

/// The checked fields, and then the rules on them.
fn read_judged(
    bytes: &[u8],
    first: Option<&MajorSync>,
    r: &mut BitReader,
) -> Result<MajorSync, Broken>
    requires same { r.old.all ≡ bits_of bytes.now }
    requires whole { r.old.place % 8 ≡ 0 }
    ensures read { Gives (λ m. m) r.old r.new result
        ((judged_sync (option_copied first.entry)).read r.old.all r.old.place) }
    ensures usable { IfOk result IsUsable }
{
    let at = r.place();
    let signed = read_checked(bytes, r)?;
    if signed.signature != 0xB752 {
        return Err(broken(Field::Signature, at + 64));
    }
    let major = signed.major;
    if let Err(fault) = check_rules(first, &major) {
        return Err(broken(fault.field, at + fault.bit));
    }
    Ok(major)
}

/// The number that the first four bytes are.
fn first_word(bytes: &[u8]) -> u32
    requires low { 4 ≤ length bytes.now }
    requires high { length bytes.now ≤ 8190 }
    ensures { result ≡ spelled (take 32 (bits_of bytes.now)) }
{
    let mut r = BitReader::new(bytes);
    let Ok(word) = r.take(32) else {
        return 0;
    };
    word
}

/// The major sync at the reader's place in these bytes, or the first rule that fails;
/// `first` is the stream's first one.
///
/// # Errors
///
/// Those of `read_major`, with bits counted from the first of these bytes.
#[tactic(auto, unfolding(mlp_layout::specs::Layout::opening, crate::specs::MajorSync::major_sync))]
pub fn read_sync(
    bytes: &[u8],
    first: Option<&MajorSync>,
    r: &mut BitReader,
) -> Result<MajorSync, Broken>
    requires same { r.old.all ≡ bits_of bytes.now }
    requires whole { r.old.place % 8 ≡ 0 }
    requires room { r.old.place + 32 ≤ 8 * length bytes.now }
    ensures read { Gives (λ m. m) r.old r.new result
        ((major_sync (option_copied first.entry)).read r.old.all r.old.place) }
    ensures usable { IfOk result IsUsable }
{
    let at = r.place();
    if !is_same_kind(first, first_word(&bytes[at as usize / 8..])) {
        return Err(broken(Field::SyncKind, at));
    }
    read_judged(bytes, first, r)
}

/// The major sync behind a head, and its length in bytes, or the first rule that fails, with bits counted from the
/// sync's first. `first` is the stream's first major sync, and `None` for that one itself.
///
/// The sync must be there: its first 31 bits are those of the sync word.
///
/// # Errors
///
/// SyncKind, MajorCrc, Signature, Rate, Quant, GroupRate, Substreams or SyncChanged,
/// whichever fails first in this order.
pub fn read_major(
    after_head: &[u8],
    first: Option<&MajorSync>,
) -> Result<(MajorSync, usize), Broken>
    requires low { 4 ≤ length after_head.now }
    requires high { length after_head.now ≤ 8190 }
    ensures read { MatchResult result
        (λ x. (major_sync (option_copied first.entry)).read (bits_of after_head.now) 0 ≡ Ok (x.0, 8 * x.1))
        (λ e. (major_sync (option_copied first.entry)).read (bits_of after_head.now) 0 ≡ Err e) }
    ensures usable { IfOk result (λ x. IsUsable x.0) }
{
    let mut r = BitReader::new(after_head);
    let major = read_sync(after_head, first, &mut r)?;
    let length = r.place() as usize / 8;
    Ok((major, length))
}
