//! Reading the directory.
ghost use Rattle.std.specs.Prelude.{◌≡◌, ◌≤◌, ◌*◌, MatchResult, Ok, Err, [], length};
ghost use Rattle.mlp_bits.specs.Bits.{bits_of};
ghost use Rattle.mlp_layout.specs.Reading.{Gives};
ghost use Rattle.mlp_layout.specs.Layout.{number_of, whole};
ghost use Rattle.mlp_layout.specs.Combined.{present};
ghost use Rattle.mlp_syntax.specs.declared.fault.Field.TheVariants as rule;
ghost use Rattle.mlp_unit.specs.Directory.{entry, directory, lone_directory};

use crate::rules::first_extra_word;
use arrayvec::ArrayVec;
use mlp_bits::BitReader;
use mlp_layout::{broken, word};
use mlp_syntax::{Broken, DirEntry, Field, Kind};

#[tactic(auto, unfolding(mlp_layout::specs::Layout::seen, mlp_layout::specs::Layout::made, mlp_layout::specs::Combined::chosen, mlp_layout::specs::Combined::present))]
fn read_extra(there: bool, r: &mut BitReader) -> Result<Option<u16>, Broken>
    ensures { Gives (λ x. x) r.old r.new result ((present there (number_of 16)).read r.old.all r.old.place) }
{
    if !there {
        return Ok(None);
    }
    let extra = word(16, r)?;
    Ok(Some(extra))
}

/// An entry, whose first word is read as one number, or DirectoryShort.
#[inline(always)]
fn read_entry(r: &mut BitReader) -> Result<DirEntry, Broken>
    ensures { Gives (λ x. x) r.old r.new result ((whole rule.DirectoryShort entry).read r.old.all r.old.place) }
{
    let at = r.place();
    let Ok(first) = word(16, r) else {
        return Err(broken(Field::DirectoryShort, at));
    };
    let Ok(extra) = read_extra(first / 32768 == 1, r) else {
        return Err(broken(Field::DirectoryShort, at));
    };
    Ok(DirEntry {
        extra,
        restart_absent: first / 16384 % 2 == 1,
        checked: first / 8192 % 2 == 1,
        reserved: first / 4096 % 2 == 1,
        end: first % 4096,
    })
}

/// Reads so many entries, or DirectoryShort.
#[inline(always)]
#[tactic(auto, unfolding(crate::specs::Directory::directory))]
pub fn read_entries(
    count: u8,
    entries: &mut ArrayVec<DirEntry, 4>,
    r: &mut BitReader,
) -> Result<(), Broken>
    requires few { count ≤ 4 }
    requires empty { entries.old.items ≡ [] }
    ensures { Gives (λ x. entries.new.items) r.old r.new result ((directory count).read r.old.all r.old.place) }
{
    for _ in 0..count {
        let next = read_entry(r)?;
        entries.push(next);
    }
    Ok(())
}

/// The entries of a directory at the front of these bytes and their length in bytes.
///
/// # Errors
///
/// DirectoryShort where the bytes end inside an entry or its extra word; ExtraWord where MLP has one.
pub fn read_directory(
    kind: Kind,
    substreams: u8,
    bytes: &[u8],
) -> Result<(ArrayVec<DirEntry, 4>, usize), Broken>
    requires some { 1 ≤ substreams }
    requires few { substreams ≤ 4 }
    requires small { length bytes.now ≤ 8190 }
    ensures { MatchResult result
        (λ x. (lone_directory kind substreams).read (bits_of bytes.now) 0 ≡ Ok (x.0.items, 8 * x.1))
        (λ e. (lone_directory kind substreams).read (bits_of bytes.now) 0 ≡ Err e) }
{
    let mut r = BitReader::new(bytes);
    let mut entries: ArrayVec<DirEntry, 4> = ArrayVec::new();
    read_entries(substreams, &mut entries, &mut r)?;
    if let Some(place) = first_extra_word(kind, 0, &entries) {
        return Err(broken(Field::ExtraWord, place));
    }
    let length = r.place() as usize / 8;
    Ok((entries, length))
}
