//! The line of an access unit.
ghost use Rattle.std.specs.Prelude.{◌≡◌, ◌+◌, ◌*◌, ◌≤◌, ◌++◌, [], length, IfSome, codes, decimal};
ghost use Rattle.mlp_major.specs.MajorSync.{kind_of, IsUsable};
ghost use Rattle.mlp_unit.specs.Shape.{unit_with, HoldsSegments};
ghost use Rattle.mlp_sessions.specs.ListLine.{kind_name, sync_text, end_text, ends_text, extra_bytes, unit_line};

use crate::text::{put_number, put_text};
use mlp_major::sample_rate;
use mlp_syntax::{DirEntry, FormatInfo, MajorSync, Outer, UnitBytes};
use mlp_unit::segment_range;

fn kind_name(format: &FormatInfo) -> &'static [u8]
    ensures text { result.now ≡ kind_name (kind_of format.now) }
    ensures short { length result.now ≤ 6 }
{
    match format {
        FormatInfo::Fbb(_) => b"mlp",
        FormatInfo::Fba(_) => b"truehd",
    }
}

/// Puts what a major sync tells behind the bytes.
fn put_sync(major: &Option<MajorSync>, out: &mut UnitBytes)
    requires room { length out.old.items ≤ 1000 }
    requires usable { IfSome major.now IsUsable }
    ensures text { out.new.items ≡ out.old.items ++ sync_text major.now }
    ensures short { length out.new.items ≤ length out.old.items + 65 }
{
    let Some(major) = major else {
        return;
    };
    put_text(out, b" sync ");
    put_text(out, kind_name(&major.format));
    put_text(out, b" ");
    put_number(out, u64::from(sample_rate(major)));
    put_text(out, b" substreams ");
    put_number(out, u64::from(major.substreams));
}

/// Puts the end of an entry behind the bytes.
fn put_end(entry: &DirEntry, out: &mut UnitBytes)
    requires { length out.old.items ≤ 2000 }
    ensures text { out.new.items ≡ out.old.items ++ end_text entry.now }
    ensures short { length out.new.items ≤ length out.old.items + 21 }
{
    put_text(out, b" ");
    put_number(out, u64::from(entry.end));
}

/// Puts the ends of the entries behind the bytes.
fn put_ends(entries: &[DirEntry], out: &mut UnitBytes)
    requires room { length out.old.items ≤ 1500 }
    requires few { length entries.now ≤ 4 }
    ensures text { out.new.items ≡ out.old.items ++ ends_text entries.now }
    ensures short { length out.new.items ≤ length out.old.items + 84 }
{
    for entry in entries {
        put_end(entry, out);
    }
}

/// The bytes behind the last segment of a unit.
fn extra_bytes(unit: &[u8], outer: &Outer) -> usize
    requires small { length unit.now ≤ 8190 }
    requires inside { HoldsSegments unit.now outer.now }
    ensures { result ≡ extra_bytes (unit_with unit.now outer.now) }
{
    let substreams = outer.entries.len();
    if substreams == 0 {
        return unit.len() - outer.body as usize;
    }
    let (_, end) = segment_range(outer, (substreams - 1) as u8);
    unit.len() - end as usize
}

/// Puts what the line tells of a unit's head behind the bytes.
fn put_head(number: u64, outer: &Outer, out: &mut UnitBytes)
    requires { out.old.items ≡ [] }
    ensures text { out.new.items ≡ codes "unit " ++ decimal number
        ++ codes " bytes " ++ decimal (2 * outer.now.head.words) ++ codes " time " ++ decimal outer.now.head.timing }
    ensures short { length out.new.items ≤ 100 }
{
    put_text(out, b"unit ");
    put_number(out, number);
    put_text(out, b" bytes ");
    put_number(out, 2 * u64::from(outer.head.words));
    put_text(out, b" time ");
    put_number(out, u64::from(outer.head.timing));
}

/// Replaces `out` by the line of the unit of this number, of which `outer` was read.
pub fn unit_line(number: u64, unit: &[u8], outer: &Outer, out: &mut UnitBytes)
    requires small { length unit.now ≤ 8190 }
    requires inside { HoldsSegments unit.now outer.now }
    requires usable { IfSome outer.now.major IsUsable }
    ensures { out.new.items ≡ unit_line number (unit_with unit.now outer.now) }
{
    out.clear();
    put_head(number, outer, out);
    put_sync(&outer.major, out);
    put_text(out, b" ends");
    put_ends(outer.entries.as_slice(), out);
    put_text(out, b" extra ");
    put_number(out, extra_bytes(unit, outer) as u64);
    put_text(out, b"\n");
}
