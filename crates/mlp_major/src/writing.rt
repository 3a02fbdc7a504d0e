//! Writing a major sync.
ghost use Rattle.std.specs.Prelude.{◌≡◌, ◌≤◌, ◌<◌, ◌+◌, ◌*◌, ◌↔◌, ◌++◌, [], length, None, IsErr, OnErr, OnOk};
ghost use Rattle.mlp_bits.specs.Bits.{bits_of};
ghost use Rattle.mlp_layout.specs.Layout.{number_of};
ghost use Rattle.mlp_layout.specs.Writing.{Writes};
ghost use Rattle.mlp_major.specs.MajorSync.{fbb, fba, format_info, kind_of, kind_bit_of, fields, checked_sync, with_signature, major_sync};

use crate::format::SYNC;
use mlp_bits::{BitWriter, Full, check16};
use mlp_layout::{put_all, put_number, put_wide};
use mlp_syntax::{FormatFba, FormatFbb, FormatInfo, MajorSync, UnitBytes, UnitTooLong};

#[tactic(auto, unfolding(mlp_layout::specs::Layout::part, mlp_layout::specs::Layout::made, mlp_layout::specs::Layout::number_of, crate::specs::MajorSync::fbb))]
fn write_fbb(format: &FormatFbb, w: &mut BitWriter) -> Result<(), Full>
    requires { fbb.Fits format.now }
    ensures { Writes w.old w.new result (fbb.spelling format.now) }
{
    put_all(
        &[
            (u32::from(format.quant1), 4),
            (u32::from(format.quant2), 4),
            (u32::from(format.rate1), 4),
            (u32::from(format.rate2), 4),
            (u32::from(format.carried), 11),
            (u32::from(format.arrangement), 5),
        ],
        w,
    )
}

#[tactic(auto, unfolding(mlp_layout::specs::Layout::part, mlp_layout::specs::Layout::made, mlp_layout::specs::Layout::number_of, crate::specs::MajorSync::fba))]
fn write_fba(format: &FormatFba, w: &mut BitWriter) -> Result<(), Full>
    requires { fba.Fits format.now }
    ensures { Writes w.old w.new result (fba.spelling format.now) }
{
    put_all(
        &[
            (u32::from(format.rate), 4),
            (u32::from(format.carried), 4),
            (u32::from(format.mod2), 2),
            (u32::from(format.mod6), 2),
            (u32::from(format.assign6), 5),
            (u32::from(format.mod8), 2),
            (u32::from(format.assign8), 13),
        ],
        w,
    )
}

/// The bit that tells the kind, and the format info.
#[tactic(auto, unfolding(mlp_layout::specs::Layout::seen, crate::specs::MajorSync::format_info))]
fn write_format(format: &FormatInfo, w: &mut BitWriter) -> Result<(), Full>
    requires { (format_info (kind_of format.now)).Fits format.now }
    ensures { Writes w.old w.new result ((format_info (kind_of format.now)).spelling format.now) }
{
    match format {
        FormatInfo::Fbb(format) => write_fbb(format, w),
        FormatInfo::Fba(format) => write_fba(format, w),
    }
}

fn kind_bit(format: &FormatInfo) -> u32
    ensures { result ≡ kind_bit_of (kind_of format.now) }
{
    match format {
        FormatInfo::Fbb(_) => 1,
        FormatInfo::Fba(_) => 0,
    }
}

fn write_bytes(bytes: &[u8], w: &mut BitWriter) -> Result<(), Full>
    ensures { Writes w.old w.new result (bits_of bytes.now) }
{
    let _place = w.place();
    for byte in bytes {
        put_number(u32::from(*byte), 8, w)?;
    }
    Ok(())
}

/// All fields before the check.
fn write_fields(major: &MajorSync, w: &mut BitWriter) -> Result<(), Full>
    requires { fields.Fits (with_signature major.now) }
    ensures { Writes w.old w.new result (fields.spelling (with_signature major.now)) }
{
    put_all(&[(SYNC, 31), (kind_bit(&major.format), 1)], w)?;
    write_format(&major.format, w)?;
    put_all(
        &[
            (0xB752, 16),
            (u32::from(major.flags), 16),
            (u32::from(major.reserved), 16),
            (u32::from(major.variable), 1),
            (u32::from(major.peak), 15),
            (u32::from(major.substreams), 4),
            (u32::from(major.carried), 2),
            (u32::from(major.extended), 2),
            (u32::from(major.info), 8),
        ],
        w,
    )?;
    put_wide(major.meaning, w)?;
    write_bytes(&major.extension, w)
}

/// The fields, and the check over them.
fn write_checked(major: &MajorSync, w: &mut BitWriter) -> Result<(), Full>
    requires empty { w.old ≡ [] }
    requires fits { fields.Fits (with_signature major.now) }
    ensures { Writes w.old w.new result (checked_sync.spelling (with_signature major.now)) }
{
    write_fields(major, w)?;
    let check = check16(w.bytes());
    put_number(u32::from(check), 16, w)
}

/// Appends bytes.
fn push_all(bytes: &[u8], out: &mut UnitBytes)
    requires { length out.old.items + length bytes.now ≤ 8190 }
    ensures { out.new.items ≡ out.old.items ++ bytes.now }
{
    for byte in bytes {
        out.push(*byte);
    }
}

/// Appends the one spelling of a major sync, with its sync word, signature and check.
///
/// # Errors
///
/// `UnitTooLong` exactly where the bytes would pass 8190; then `out` is unchanged.
pub fn write_major(major: &MajorSync, out: &mut UnitBytes) -> Result<(), UnitTooLong>
    requires { (major_sync None).Fits major.now }
    ensures too_long { IsErr result
        ↔ (65520 < length (bits_of out.old.items ++ (major_sync None).spelling major.now)) }
    ensures kept { OnErr result (out.new ≡ out.old) }
    ensures appended { OnOk result
        (bits_of out.new.items ≡ bits_of out.old.items ++ (major_sync None).spelling major.now) }
{
    let length = 28 + major.extension.len();
    if out.len() + length > 8190 {
        return Err(UnitTooLong);
    }
    let mut w = BitWriter::new();
    let Ok(()) = write_checked(major, &mut w) else {
        return Err(UnitTooLong);
    };
    push_all(w.bytes(), out);
    Ok(())
}
