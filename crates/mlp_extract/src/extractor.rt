//! Extracting a presentation.
ghost use Rattle.std.specs.Option.{option_copied};
ghost use Rattle.std.specs.Prelude.{◌≡◌, ◌<◌, ◌≤◌, [], true, length, option_map, IfSome, IfErr, Some};
ghost use Rattle.mlp_io.specs.Limit.{limit};
ghost use Rattle.mlp_bits.specs.Bits.{bits_of};
ghost use Rattle.mlp_major.specs.MajorSync.{smaller};
ghost use Rattle.mlp_substream.specs.Checks.{bytes_of};
ghost use Rattle.mlp_unit.specs.Shape.{unit_with};
ghost use Rattle.mlp_stream.specs.Moves.{moved};
ghost use Rattle.mlp_answers.specs.Reading.{refusal_of};
ghost use Rattle.mlp_present.specs.Decoding.{opened};
ghost use Rattle.mlp_extract.specs.Extract.{extracted_bytes};
ghost use Rattle.mlp_extract.specs.Extractor.{HoldsPresentation, extract_step, extract_count};

use arrayvec::ArrayVec;
use mlp_answers::refusal_of;
use mlp_major::narrow;
use mlp_present::Decoder;
use mlp_stream::{Refusal, Session};
use mlp_syntax::{MajorSync, Outer, UnitBytes};
use mlp_unit::{segment_range, write_unit};
use std::marker::Model;

/// The major sync of the smaller stream, where the unit has one.
fn narrowed(major: &Option<MajorSync>, presentation: u8) -> Option<MajorSync>
    requires { presentation ≤ 2 }
    ensures { result ≡ option_map (smaller presentation) major.now }
{
    match major {
        None => None,
        Some(major) => Some(narrow(major, presentation)),
    }
}

/// The bits of bytes tell the bytes.
fn law_bits(bytes: &[u8])
    ensures { bytes_of (bits_of bytes.now) ≡ bytes.now }
{}

/// Replaces `out` by what the presentation needs of a unit.
fn put_unit(presentation: u8, unit: &[u8], outer: &Outer, out: &mut UnitBytes)
    requires { HoldsPresentation presentation unit.now outer.now }
    ensures { out.new.items ≡ extracted_bytes presentation (unit_with unit.now outer.now) }
{
    let major = narrowed(&outer.major, presentation);
    let entries = &outer.entries[..usize::from(presentation) + 1];
    let (_, end) = segment_range(outer, presentation);
    let body = &unit[outer.body as usize..end as usize];
    let _fits = write_unit(outer.head.timing, major.as_ref(), entries, body, out);
    law_bits(out.as_slice());
}

/// Replaces `out` by what the presentation needs of the latest unit, where there is one.
fn put_latest(presentation: u8, unit: &[u8], latest: Option<&Outer>, out: &mut UnitBytes)
    requires { IfSome (option_copied latest) (HoldsPresentation presentation unit.now) }
    ensures { IfSome (option_copied latest.entry)
        (λ outer. out.new.items ≡ extracted_bytes presentation (unit_with unit.now outer)) }
{
    if let Some(outer) = latest {
        put_unit(presentation, unit, outer, out);
    }
}

/// Extracts a presentation: of each access unit it writes the segments that the presentation needs. All that it keeps has a
/// fixed size, some 110 KB.
///
/// It refuses what a decoder of the presentation refuses. The segments of higher substreams aren't looked at.
#[derive(Drop)]
pub struct Extractor {
    presentation: u8,
    decoder: Decoder,
    frames: ArrayVec<[i32; 8], 160>,
}

impl Model for Extractor {
    ghost use Rattle.mlp_present.specs.Decoding.{Held};
    ghost use Rattle.mlp_extract.specs.Extractor.{IsExtracting};

    ghost Value = { Held };

    ghost view = { λ s. s.decoder };

    ghost invariant = { λ s. IsExtracting s.presentation s.decoder };
}

impl Extractor {
    /// An extractor that has taken no unit, for a presentation from 0 to 2.
    pub fn open(presentation: u8) -> Extractor
        requires { presentation ≤ 2 }
        ensures { result ≡ opened presentation }
    {
        Extractor {
            presentation,
            decoder: Decoder::open(presentation),
            frames: ArrayVec::new(),
        }
    }
}

/// Behind a refusal every later call of `unit` answers that same refusal, and so does `end`.
impl Session for Extractor {
    ghost use Rattle.mlp_extract.specs.Extractor.{extract_step, extract_last, extract_count};
    ghost use Rattle.mlp_extract.specs.SessionLaws.{extract_lawful};

    ghost step = { extract_step };

    ghost last = { extract_last };

    ghost count = { extract_count };

    ghost lawful = { extract_lawful };

    fn waits(&self, next: &[u8]) -> bool {
        self.decoder.waits(next)
    }

    fn unit(&mut self, next: &[u8], out: &mut UnitBytes) -> Result<usize, Refusal>
        requires some { 0 < length next.now }
        requires room { extract_count self.old < limit }
        ensures unit { extract_step self.old true next.now ≡ moved result out.new.items self.new }
        ensures kept { IfErr result (λ r. (out.new.items ≡ []) × (option_map refusal_of self.new.refusal ≡ Some r)) }
    {
        out.clear();
        match self.decoder.unit(next, &mut self.frames) {
            Ok(size) => {
                put_latest(
                    self.presentation,
                    &next[..size],
                    self.decoder.last_outer(),
                    out,
                );
                Ok(size)
            }
            Err(refusal) => Err(refusal_of(refusal)),
        }
    }

    fn end(&self, out: &mut UnitBytes) -> Result<(), Refusal> {
        out.clear();
        match self.decoder.end() {
            Ok(()) => Ok(()),
            Err(refusal) => Err(refusal_of(refusal)),
        }
    }
}
