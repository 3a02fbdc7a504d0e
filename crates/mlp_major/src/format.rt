//! Reading the format info.
ghost use Rattle.std.specs.Prelude.{◌≡◌};
ghost use Rattle.mlp_layout.specs.Reading.{Gives};
ghost use Rattle.mlp_major.specs.MajorSync.{fbb, fba, format_info, kind_bit, kind_of};

use mlp_bits::BitReader;
use mlp_layout::{byte, number, word};
use mlp_syntax::{Broken, FormatFba, FormatFbb, FormatInfo, Kind};

/// The first 31 bits of a major sync. The next one tells the kind.
pub const SYNC: u32 = 0x7C3937DD;

/// The kind of the streams that have this format info.
pub fn kind_of(format: &FormatInfo) -> Kind
    ensures { result ≡ kind_of format.now }
{
    match format {
        FormatInfo::Fbb(_) => Kind::Fbb,
        FormatInfo::Fba(_) => Kind::Fba,
    }
}

#[tactic(auto, unfolding(mlp_layout::specs::Layout::part, mlp_layout::specs::Layout::made, crate::specs::MajorSync::fbb))]
fn read_fbb(r: &mut BitReader) -> Result<FormatFbb, Broken>
    ensures { Gives (λ x. x) r.old r.new result (fbb.read r.old.all r.old.place) }
{
    let quant1 = byte(4, r)?;
    let quant2 = byte(4, r)?;
    let rate1 = byte(4, r)?;
    let rate2 = byte(4, r)?;
    let carried = word(11, r)?;
    let arrangement = byte(5, r)?;
    Ok(FormatFbb {
        quant1,
        quant2,
        rate1,
        rate2,
        carried,
        arrangement,
    })
}

#[tactic(auto, unfolding(mlp_layout::specs::Layout::part, mlp_layout::specs::Layout::made, crate::specs::MajorSync::fba))]
fn read_fba(r: &mut BitReader) -> Result<FormatFba, Broken>
    ensures { Gives (λ x. x) r.old r.new result (fba.read r.old.all r.old.place) }
{
    let rate = byte(4, r)?;
    let carried = byte(4, r)?;
    let mod2 = byte(2, r)?;
    let mod6 = byte(2, r)?;
    let assign6 = byte(5, r)?;
    let mod8 = byte(2, r)?;
    let assign8 = word(13, r)?;
    Ok(FormatFba {
        rate,
        carried,
        mod2,
        mod6,
        assign6,
        mod8,
        assign8,
    })
}

/// The kind, which the last bit of the sync word tells.
#[tactic(auto, unfolding(mlp_layout::specs::Layout::seen, crate::specs::MajorSync::kind_bit))]
pub fn read_kind(r: &mut BitReader) -> Result<Kind, Broken>
    ensures { Gives (λ x. x) r.old r.new result (kind_bit.read r.old.all r.old.place) }
{
    let n = number(1, r)?;
    Ok(if n == 1 { Kind::Fbb } else { Kind::Fba })
}

/// The format info of this kind.
#[tactic(auto, unfolding(mlp_layout::specs::Layout::seen, crate::specs::MajorSync::format_info))]
pub fn read_format(kind: Kind, r: &mut BitReader) -> Result<FormatInfo, Broken>
    ensures { Gives (λ x. x) r.old r.new result ((format_info kind).read r.old.all r.old.place) }
{
    match kind {
        Kind::Fbb => {
            let format = read_fbb(r)?;
            Ok(FormatInfo::Fbb(format))
        }
        Kind::Fba => {
            let format = read_fba(r)?;
            Ok(FormatInfo::Fba(format))
        }
    }
}
