//! Writing an access unit.
ghost use Rattle.std.specs.Option.{option_copied};
ghost use Rattle.std.specs.Prelude.{◌≡◌, ◌≤◌, ◌<◌, ◌+◌, ◌*◌, ◌↔◌, ◌++◌, length, IsErr, OnErr, OnOk};
ghost use Rattle.arrayvec.specs.ArrayVec.{array_vec_len};
ghost use Rattle.mlp_bits.specs.Bits.{bits, bits_of};
ghost use Rattle.mlp_unit.specs.Directory.{entry as entry_layout, entry_size, extra_bits, directory, directory_size};
ghost use Rattle.mlp_unit.specs.AccessUnit.{major_size, SumIs, parity_of};
ghost use Rattle.mlp_unit.specs.Written.{MajorFits, Writable, SpellsUnit, major_text, unit_size, written_unit};

use mlp_major::write_major;
use mlp_syntax::{DirEntry, MajorSync, UnitBytes, UnitTooLong};

/// The first word of an entry.
pub fn entry_word(entry: &DirEntry) -> u16
    requires { entry.now.end < 4096 }
    ensures { entry_layout.spelling entry.now ≡ bits 16 result ++ extra_bits entry.now.extra }
{
    let extra = u16::from(entry.extra.is_some());
    let restart_absent = u16::from(entry.restart_absent);
    let checked = u16::from(entry.checked);
    let reserved = u16::from(entry.reserved);
    (((extra * 2 + restart_absent) * 2 + checked) * 2 + reserved) * 4096 + entry.end
}

/// The sum of the four half bytes of a word, without carries.
fn nibbles(word: u16) -> u8
    ensures sum { SumIs (bits 16 word) result }
    ensures small { result < 16 }
{
    let high = (word / 256) as u8;
    let low = (word % 256) as u8;
    ((high / 16) ^ (high % 16)) ^ ((low / 16) ^ (low % 16))
}

/// The sum of the half bytes of an entry and its extra word, without carries.
fn entry_nibbles(entry: &DirEntry) -> u8
    requires { entry.now.end < 4096 }
    ensures sum { SumIs (entry_layout.spelling entry.now) result }
    ensures small { result < 16 }
{
    let sum = nibbles(entry_word(entry));
    match entry.extra {
        None => sum,
        Some(extra) => sum ^ nibbles(extra),
    }
}

/// The parity of a unit whose check nibble is 0.
fn parity(words: u16, timing: u16, entries: &[DirEntry]) -> u8
    requires words { words < 4096 }
    requires entries { (directory (length entries.now)).Fits entries.now }
    ensures sum { result ≡ parity_of (record { check = 0; words = words; timing = timing }) entries.now }
    ensures small { result < 16 }
{
    let mut sum = nibbles(words) ^ nibbles(timing);
    for entry in entries {
        sum ^= entry_nibbles(entry);
    }
    sum
}

/// Appends a word, its high byte first.
fn push_word(word: u16, out: &mut UnitBytes)
    requires { array_vec_len out.old + 2 ≤ 8190 }
    ensures bits { bits_of out.new.items ≡ bits_of out.old.items ++ bits 16 word }
    ensures len { array_vec_len out.new ≡ array_vec_len out.old + 2 }
{
    out.push((word / 256) as u8);
    out.push((word % 256) as u8);
}

/// Appends bytes.
fn push_bytes(bytes: &[u8], out: &mut UnitBytes)
    requires { array_vec_len out.old + length bytes.now ≤ 8190 }
    ensures { out.new.items ≡ out.old.items ++ bytes.now }
{
    let _full = out.try_extend_from_slice(bytes);
}

fn push_entry(entry: &DirEntry, out: &mut UnitBytes)
    requires end { entry.now.end < 4096 }
    requires room { array_vec_len out.old + entry_size entry.now ≤ 8190 }
    ensures bits { bits_of out.new.items ≡ bits_of out.old.items ++ entry_layout.spelling entry.now }
    ensures len { array_vec_len out.new ≡ array_vec_len out.old + entry_size entry.now }
{
    push_word(entry_word(entry), out);
    if let Some(extra) = entry.extra {
        push_word(extra, out);
    }
}

fn push_directory(entries: &[DirEntry], out: &mut UnitBytes)
    requires fits { (directory (length entries.now)).Fits entries.now }
    requires room { array_vec_len out.old + directory_size entries.now ≤ 8190 }
    ensures bits { bits_of out.new.items
        ≡ bits_of out.old.items ++ (directory (length entries.now)).spelling entries.now }
    ensures len { array_vec_len out.new ≡ array_vec_len out.old + directory_size entries.now }
{
    for entry in entries {
        push_entry(entry, out);
    }
}

fn push_major(major: Option<&MajorSync>, out: &mut UnitBytes)
    requires fits { MajorFits (option_copied major) }
    requires room { array_vec_len out.old + major_size (option_copied major) ≤ 8190 }
    ensures bits { bits_of out.new.items ≡ bits_of out.old.items ++ major_text (option_copied major.entry) }
    ensures len { array_vec_len out.new ≡ array_vec_len out.old + major_size (option_copied major.entry) }
{
    let _place = out.len();
    if let Some(major) = major {
        let _too_long = write_major(major, out);
    }
}

fn major_length(major: Option<&MajorSync>) -> usize
    ensures length { result ≡ major_size (option_copied major.entry) }
    ensures small { result ≤ 60 }
{
    match major {
        None => 0,
        Some(major) => 28 + major.extension.len(),
    }
}

fn directory_length(entries: &[DirEntry]) -> usize
    requires { length entries.now ≤ 4 }
    ensures length { result ≡ directory_size entries.now }
    ensures small { result ≤ 16 }
{
    let mut length = 0;
    for entry in entries {
        length += if entry.extra.is_some() { 4 } else { 2 };
    }
    length
}

/// Replaces `out` by the one spelling of an access unit: its length, check nibble and the major sync's check are made.
///
/// # Errors
///
/// `UnitTooLong` exactly where the unit would pass 8190 bytes; then `out` is unchanged.
pub fn write_unit(
    timing: u16,
    major: Option<&MajorSync>,
    entries: &[DirEntry],
    body: &[u8],
    out: &mut UnitBytes,
) -> Result<(), UnitTooLong>
    requires { Writable (option_copied major) entries.now body.now }
    ensures too_long { IsErr result ↔ (8190 < unit_size (option_copied major.entry) entries.now body.now) }
    ensures kept { OnErr result (out.new ≡ out.old) }
    ensures written { OnOk result
        (SpellsUnit (written_unit timing (option_copied major.entry) entries.now body.now) out.new.items) }
{
    let front = 4 + major_length(major) + directory_length(entries);
    if body.len() > 8190 - front {
        return Err(UnitTooLong);
    }
    let words = ((front + body.len()) / 2) as u16;
    let check = parity(words, timing, entries) ^ 0xF;
    out.clear();
    push_word(u16::from(check) * 4096 + words, out);
    push_word(timing, out);
    push_major(major, out);
    push_directory(entries, out);
    push_bytes(body, out);
    Ok(())
}
