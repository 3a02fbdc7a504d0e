//! Other output timings in the restarts of a unit.
ghost use Rattle.std.specs.Prelude.{◌≡◌, ◌+◌, ◌*◌, ◌<◌, ◌≤◌, ◌++◌, [], true, length, drop, map, option_map, Some};
ghost use Rattle.mlp_bits.specs.Bits.{bits_of};
ghost use Rattle.mlp_major.specs.MajorSync.{kind_of, IsUsable};
ghost use Rattle.mlp_unit.specs.Shape.{end_before, HoldsSegments};
ghost use Rattle.mlp_substream.specs.Blocks.{IsPlace};
ghost use Rattle.mlp_substream.specs.Timings.{stamp, stamp_head, stamped};
ghost use Rattle.mlp_contents.specs.Units.{place_by};
ghost use Rattle.mlp_retime.specs.Stamping.{restamped, restamped_from};

use mlp_major::{frames_per_unit, kind_of};
use mlp_substream::{Known, Place, read_segment_into, write_segment};
use mlp_syntax::{BlockHead, FormatInfo, Kind, MajorSync, Outer, Segment, UnitBytes};
use mlp_unit::{segment_bytes, segment_range};

/// The place of the segments of a unit with a major sync, in a stream with this first one.
pub fn restart_place(first: &MajorSync) -> Place
    requires { IsUsable first.now }
    ensures value { result ≡ place_by (Some first.now) (Some first.now) }
    ensures place { IsPlace result }
{
    Place {
        format: kind_of(&first.format),
        unit_frames: frames_per_unit(first),
        major: true,
    }
}

fn stamp_head(output: u16, head: &mut BlockHead)
    ensures { head.new ≡ stamp_head output head.old }
{
    if let Some(restart) = &mut head.restart {
        restart.output_timing = output;
    }
}

fn stamp_heads(output: u16, heads: &mut [BlockHead])
    ensures { heads.new ≡ map (stamp_head output) heads.old }
{
    for head in heads.iter_mut() {
        stamp_head(output, head);
    }
}

/// Puts an output timing into each restart of a segment.
fn stamp(output: u16, segment: &mut Segment)
    ensures { segment.new ≡ stamped output segment.old }
{
    stamp_heads(output, segment.blocks.as_mut_slice());
}

/// Appends bytes.
fn push_bytes(bytes: &[u8], out: &mut UnitBytes)
    requires { length out.old.items + length bytes.now ≤ 8190 }
    ensures { out.new.items ≡ out.old.items ++ bytes.now }
{
    let _full = out.try_extend_from_slice(bytes);
}

/// The bytes from one on.
fn bytes_from(bytes: &[u8], start: usize) -> &[u8]
    requires { start ≤ length bytes.now }
    ensures { result.now ≡ drop start bytes.now }
{
    &bytes[start..]
}

/// Appends a segment of a unit with a major sync, with another output timing in its restarts.
fn push_stamped(
    place: &Place,
    output: u16,
    bytes: &[u8],
    checked: bool,
    segment: &mut Segment,
    out: &mut UnitBytes,
)
    requires place { IsPlace place.now }
    requires room { length out.old.items + length bytes.now ≤ 8190 }
    ensures text { bits_of out.new.items
        ≡ bits_of out.old.items ++ restamped place.now output checked (bits_of bytes.now) }
    ensures size { length out.new.items ≡ length out.old.items + length bytes.now }
{
    let unknown = Known {
        max_matrix: None,
        covered: None,
        lossless: None,
        first: None,
    };
    let mut before = None;
    let Ok(()) = read_segment_into(place, &unknown, &mut before, bytes, checked, segment) else {
        push_bytes(bytes, out);
        return;
    };
    stamp(output, segment);
    let mut state = None;
    let _fits = write_segment(place, &mut state, segment, out);
}

/// Appends the first so many segments of a unit with a major sync, with another output timing in their restarts.
fn push_segments(
    place: &Place,
    count: u8,
    output: u16,
    unit: &[u8],
    outer: &Outer,
    segment: &mut Segment,
    out: &mut UnitBytes,
)
    requires place { IsPlace place.now }
    requires there { count ≤ length outer.now.entries.items }
    requires inside { HoldsSegments unit.now outer.now }
    requires small { length unit.now ≤ 8190 }
    requires none { out.old.items ≡ [] }
    ensures text { bits_of out.new.items ≡ restamped_from place.now output unit.now outer.now 0 count }
    ensures size { length out.new.items ≡ 2 * end_before outer.now.entries.items count }
{
    for substream in 0..count {
        let bytes = segment_bytes(unit, outer, substream);
        let checked = outer.entries[usize::from(substream)].checked;
        push_stamped(place, output, bytes, checked, segment, out);
    }
}

/// Replaces `out` by what stands behind the directory of a unit with a major sync, with another output timing in the restarts
/// of its first so many segments.
pub fn stamp_body(
    place: &Place,
    count: u8,
    output: u16,
    unit: &[u8],
    outer: &Outer,
    segment: &mut Segment,
    out: &mut UnitBytes,
)
    requires place { IsPlace place.now }
    requires some { 0 < count }
    requires there { count ≤ length outer.now.entries.items }
    requires inside { HoldsSegments unit.now outer.now }
    requires small { length unit.now ≤ 8190 }
    ensures text { bits_of out.new.items ≡ restamped_from place.now output unit.now outer.now 0 count
        ++ bits_of (drop (outer.now.body + 2 * end_before outer.now.entries.items count) unit.now) }
    ensures size { length out.new.items + outer.now.body ≡ length unit.now }
{
    out.clear();
    push_segments(place, count, output, unit, outer, segment, out);
    let (_, end) = segment_range(outer, count - 1);
    push_bytes(bytes_from(unit, end as usize), out);
}
