//! Where the segments lie.
ghost use Rattle.std.specs.Prelude.{◌≡◌, ◌-◌, ◌<◌, ◌≤◌, length, take, drop};
ghost use Rattle.mlp_bits.specs.Bits.{bits_of};
ghost use Rattle.mlp_unit.specs.Shape.{end_at, end_before, range_of, HoldsSegments, segment_bits};

use mlp_syntax::{DirEntry, Outer};

fn end_at(entries: &[DirEntry], at: usize) -> u16
    requires { at < length entries.now }
    ensures { result ≡ end_at entries.now at }
{
    entries[at].end
}

fn end_before(entries: &[DirEntry], at: usize) -> u16
    requires { at < length entries.now }
    ensures { result ≡ end_before entries.now at }
{
    if at == 0 { 0 } else { end_at(entries, at - 1) }
}

/// The first byte of a substream's segment, and the byte past its last, counted from the unit's first byte.
pub fn segment_range(outer: &Outer, substream: u8) -> (u32, u32)
    requires exists { substream < length outer.now.entries.items }
    requires body { outer.now.body ≤ 8190 }
    ensures { result ≡ range_of outer.now substream }
{
    let at = substream as usize;
    let start = u32::from(end_before(&outer.entries, at));
    let end = u32::from(end_at(&outer.entries, at));
    (outer.body + 2 * start, outer.body + 2 * end)
}

/// The bytes from one to before another.
fn part(bytes: &[u8], start: usize, end: usize) -> &[u8]
    requires rising { start ≤ end }
    requires inside { end ≤ length bytes.now }
    ensures { result.now ≡ take (end - start) (drop start bytes.now) }
{
    &bytes[start..end]
}

/// The bytes of a substream's segment, of those of the unit that `outer` was read from.
pub fn segment_bytes<'a>(unit: &'a [u8], outer: &Outer, substream: u8) -> &'a [u8]
    requires exists { substream < length outer.now.entries.items }
    requires inside { HoldsSegments unit.now outer.now }
    ensures { bits_of result.now ≡ segment_bits unit.now outer.now substream }
{
    let at = substream as usize;
    let start = outer.body as usize + 2 * usize::from(end_before(&outer.entries, at));
    let end = outer.body as usize + 2 * usize::from(end_at(&outer.entries, at));
    part(unit, start, end)
}
