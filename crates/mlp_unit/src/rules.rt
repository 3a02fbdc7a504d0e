//! The rules on a directory.
ghost use Rattle.std.specs.Prelude.{◌≡◌, ◌≤◌, ◌+◌, ◌*◌, length, IfSome};
ghost use Rattle.mlp_unit.specs.Directory.{entry_size, first_failing, may_stand};
ghost use Rattle.mlp_unit.specs.AccessUnit.{is_restart_flag, first_bad_end};

use mlp_syntax::{DirEntry, Kind};

/// How many bits an entry takes.
fn entry_bits(entry: &DirEntry) -> u32
    ensures { result ≡ 8 * entry_size entry.now }
{
    if entry.extra.is_some() { 32 } else { 16 }
}

/// The place of the first entry with an extra word that its kind doesn't have. The directory begins at this place.
pub fn first_extra_word(kind: Kind, place: u32, entries: &[DirEntry]) -> Option<u32>
    requires place { place ≤ 65520 }
    requires few { length entries.now ≤ 4 }
    ensures first { result ≡ first_failing (may_stand kind) place entries.now }
    ensures near { IfSome result (λ at. at ≤ 65648) }
{
    let mut at = place;
    for entry in entries {
        if kind == Kind::Fbb && entry.extra.is_some() {
            return Some(at);
        }
        at += entry_bits(entry);
    }
    None
}

/// The place of the first entry that says "restart absent" in a unit with a major sync, or doesn't in one without.
pub fn first_restart_flag(major: bool, place: u32, entries: &[DirEntry]) -> Option<u32>
    requires place { place ≤ 65520 }
    requires few { length entries.now ≤ 4 }
    ensures first { result ≡ first_failing (is_restart_flag major) place entries.now }
    ensures near { IfSome result (λ at. at ≤ 65648) }
{
    let mut at = place;
    for entry in entries {
        if entry.restart_absent == major {
            return Some(at);
        }
        at += entry_bits(entry);
    }
    None
}

/// The place of the first entry whose end is below the one before it, or past the last word.
pub fn first_bad_end(last: usize, place: u32, entries: &[DirEntry]) -> Option<u32>
    requires place { place ≤ 65520 }
    requires few { length entries.now ≤ 4 }
    ensures first { result ≡ first_bad_end 0 last place entries.now }
    ensures near { IfSome result (λ at. at ≤ 65648) }
{
    let mut at = place;
    let mut before = 0;
    for entry in entries {
        let end = usize::from(entry.end);
        if end < before || end > last {
            return Some(at);
        }
        before = end;
        at += entry_bits(entry);
    }
    None
}
