//! Whether a major sync has a spelling.
ghost use Rattle.std.specs.Prelude.{◌≡◌, ◌<◌, ◌↔◌, IsTrue, None};
ghost use Rattle.mlp_major.specs.MajorSync.{fbb, fba, format_info, kind_of, extension, is_long, major_sync};

use mlp_syntax::{FormatFba, FormatFbb, FormatInfo, MajorSync};

#[tactic(auto, unfolding(mlp_layout::specs::Layout::part, mlp_layout::specs::Layout::made, mlp_layout::specs::Layout::number_of, crate::specs::MajorSync::fbb))]
fn fbb_fits(format: &FormatFbb) -> bool
    ensures { IsTrue result ↔ fbb.Fits format.now }
{
    format.quant1 < 16
        && format.quant2 < 16
        && format.rate1 < 16
        && format.rate2 < 16
        && format.carried < 2048
        && format.arrangement < 32
}

#[tactic(auto, unfolding(mlp_layout::specs::Layout::part, mlp_layout::specs::Layout::made, mlp_layout::specs::Layout::number_of, crate::specs::MajorSync::fba))]
fn fba_fits(format: &FormatFba) -> bool
    ensures { IsTrue result ↔ fba.Fits format.now }
{
    format.rate < 16
        && format.carried < 16
        && format.mod2 < 4
        && format.mod6 < 4
        && format.assign6 < 32
        && format.mod8 < 4
        && format.assign8 < 8192
}

#[tactic(auto, unfolding(mlp_layout::specs::Layout::seen, crate::specs::MajorSync::format_info))]
fn format_fits(format: &FormatInfo) -> bool
    ensures { IsTrue result ↔ (format_info (kind_of format.now)).Fits format.now }
{
    match format {
        FormatInfo::Fbb(format) => fbb_fits(format),
        FormatInfo::Fba(format) => fba_fits(format),
    }
}

/// Whether these can be the bytes between channel meaning and check.
fn extension_fits(long: bool, bytes: &[u8]) -> bool
    ensures { IsTrue result ↔ (extension long).Fits bytes.now }
{
    if !long {
        return bytes.is_empty();
    }
    if bytes.is_empty() {
        return false;
    }
    bytes.len() == 2 + 2 * usize::from(bytes[0] / 16)
}

fn is_long(major: &MajorSync) -> bool
    ensures { result ≡ is_long (kind_of major.now.format) major.now.meaning }
{
    match major.format {
        FormatInfo::Fbb(_) => false,
        FormatInfo::Fba(_) => major.meaning % 2 == 1,
    }
}

fn numbers_fit(major: &MajorSync) -> bool
    ensures { IsTrue result ↔ ((major.now.peak < 32768) × (major.now.substreams < 16)
        × (major.now.carried < 4) × (major.now.extended < 4)) }
{
    major.peak < 32768 && major.substreams < 16 && major.carried < 4 && major.extended < 4
}

/// Whether a major sync can be written: each field has no more bits than its width, and an extension is there exactly
/// where the last bit of channel meaning tells of one in TrueHD, and is as long as its first byte says.
pub fn fits(major: &MajorSync) -> bool
    ensures { IsTrue result ↔ (major_sync None).Fits major.now }
{
    let _flags = major.flags;
    let _reserved = major.reserved;
    let _info = major.info;
    let _meaning = major.meaning;
    if !numbers_fit(major) {
        return false;
    }
    if !format_fits(&major.format) {
        return false;
    }
    extension_fits(is_long(major), &major.extension)
}
