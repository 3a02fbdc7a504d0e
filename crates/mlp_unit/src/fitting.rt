//! Whether a unit can be written.
ghost use Rattle.std.specs.Option.{option_copied};
ghost use Rattle.std.specs.Prelude.{◌≡◌, ◌↔◌, IsTrue, length};
ghost use Rattle.mlp_layout.specs.Layout.{next_is};
ghost use Rattle.mlp_major.specs.MajorSync.{sync};
ghost use Rattle.mlp_unit.specs.Directory.{entry as entry_layout, directory};
ghost use Rattle.mlp_unit.specs.Written.{MajorFits, CountFits, Writable};

use crate::rules::first_bad_end;
use crate::writing::entry_word;
use mlp_major::{SYNC, fits};
use mlp_syntax::{DirEntry, MajorSync};

fn major_fits(major: Option<&MajorSync>) -> bool
    ensures { IsTrue result ↔ MajorFits (option_copied major.entry) }
{
    match major {
        None => true,
        Some(major) => fits(major),
    }
}

/// Whether these are as many entries as a major sync tells, where one is there.
fn count_fits(major: Option<&MajorSync>, count: usize) -> bool
    ensures { IsTrue result ↔ CountFits (option_copied major.entry) count }
{
    match major {
        None => true,
        Some(major) => count == usize::from(major.substreams),
    }
}

fn entry_fits(entry: &DirEntry) -> bool
    ensures { IsTrue result ↔ entry_layout.Fits entry.now }
{
    match entry.extra {
        None => entry.end < 4096,
        Some(_extra) => entry.end < 4096,
    }
}

fn entries_fit(entries: &[DirEntry]) -> bool
    ensures { IsTrue result ↔ (directory (length entries.now)).Fits entries.now }
{
    for entry in entries {
        if !entry_fits(entry) {
            return false;
        }
    }
    true
}

/// Whether a directory begins as a major sync does.
fn is_like_sync(entries: &[DirEntry]) -> bool
    requires { (directory (length entries.now)).Fits entries.now }
    ensures { result ≡ next_is 31 sync ((directory (length entries.now)).spelling entries.now) }
{
    if entries.is_empty() {
        return false;
    }
    let first = entries[0];
    match first.extra {
        None => false,
        Some(extra) => (u32::from(entry_word(&first)) * 65536 + u32::from(extra)) / 2 == SYNC,
    }
}

/// Whether these can be a unit's: a major sync that fits or none; one to four entries, as many as the major sync tells,
/// whose ends have 12 bits, don't fall and lie within the body; a body of whole words; and without a major sync a
/// directory that doesn't begin as one.
pub fn is_writable(major: Option<&MajorSync>, entries: &[DirEntry], body: &[u8]) -> bool
    ensures { IsTrue result ↔ Writable (option_copied major.entry) entries.now body.now }
{
    if entries.is_empty() || entries.len() > 4 || body.len() % 2 == 1 {
        return false;
    }
    if !major_fits(major) {
        return false;
    }
    if !count_fits(major, entries.len()) {
        return false;
    }
    if !entries_fit(entries) {
        return false;
    }
    if first_bad_end(body.len() / 2, 0, entries).is_some() {
        return false;
    }
    major.is_some() || !is_like_sync(entries)
}
