//! What a unit's terminator drops, and the check of an interval.
ghost use Rattle.std.specs.Prelude.{◌≡◌, ◌<◌, ◌^◌};
ghost use Rattle.mlp_output.specs.Output.{dropped, folded};

use mlp_syntax::Kind;

/// How many frames a terminator with this second word drops from the end of its unit: none in MLP, and in TrueHD the
/// number of its low 13 bits, where bit 13 says that there is one. It may be above the frames of the unit.
pub fn dropped(kind: Kind, terminator: Option<u16>) -> usize
    ensures { result ≡ dropped kind terminator }
{
    match (kind, terminator) {
        (Kind::Fba, Some(word)) if (word >> 13) & 1 == 1 => usize::from(word & 0x1fff),
        _ => 0,
    }
}

/// A running check as the 8 bits of a restart header: its four bytes, added without carries.
pub fn folded(check: u32) -> u8
    ensures { result ≡ folded check }
{
    let [a, b, c, d] = check.to_le_bytes();
    a ^ b ^ (c ^ d)
}
