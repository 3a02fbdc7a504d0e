//! Reading the head of an access unit.
ghost use Rattle.std.specs.Prelude.{◌≡◌, ◌*◌, MatchResult, IfOk, Ok, Err};
ghost use Rattle.mlp_bits.specs.Bits.{bits_of};
ghost use Rattle.mlp_layout.specs.Reading.{Gives};
ghost use Rattle.mlp_unit.specs.AccessUnit.{head};
ghost use Rattle.mlp_unit.specs.Frame.{frame_of};

use mlp_bits::BitReader;
use mlp_layout::{broken, number};
use mlp_syntax::{Broken, Field, UnitHead};

/// The head, which is read as one number, or UnitHeader or UnitLength.
pub fn read_head(r: &mut BitReader) -> Result<UnitHead, Broken>
    ensures { Gives (λ x. x) r.old r.new result (head.read r.old.all r.old.place) }
{
    let at = r.place();
    let Ok(first) = number(32, r) else {
        return Err(broken(Field::UnitHeader, at));
    };
    let words = (first / 65536 % 4096) as u16;
    if words < 2 {
        return Err(broken(Field::UnitLength, at + 4));
    }
    Ok(UnitHead {
        check: (first / 268435456) as u8,
        words,
        timing: (first % 65536) as u16,
    })
}

/// The head that stands at the front of these bytes, or UnitHeader or UnitLength.
pub fn first_head(next: &[u8]) -> Result<UnitHead, Broken>
    ensures { MatchResult result (λ h. head.read (bits_of next.now) 0 ≡ Ok (h, 32))
        (λ e. head.read (bits_of next.now) 0 ≡ Err e) }
{
    let mut r = BitReader::new(&next[..next.len().min(8)]);
    read_head(&mut r)
}

/// The head of a unit all of whose bytes are there, or the fault of `frame`.
pub fn framed_head(next: &[u8]) -> Result<UnitHead, Broken>
    ensures head { IfOk result (λ h. head.read (bits_of next.now) 0 ≡ Ok (h, 32)) }
    ensures frame { MatchResult result (λ h. frame_of next.now ≡ Ok (2 * h.words))
        (λ e. frame_of next.now ≡ Err e) }
{
    let head = first_head(next)?;
    if 2 * usize::from(head.words) > next.len() {
        return Err(broken(Field::UnitLength, 4));
    }
    Ok(head)
}

/// The length in bytes of the access unit at the front of `next`, which is the rest of a stream or at least its first
/// 8190 bytes.
///
/// # Errors
///
/// UnitHeader where not all four bytes of a head are there; UnitLength where its length is below two words, or the unit
/// is longer than what is left.
pub fn frame(next: &[u8]) -> Result<usize, Broken>
    ensures { result ≡ frame_of next.now }
{
    let head = framed_head(next)?;
    Ok(2 * usize::from(head.words))
}
