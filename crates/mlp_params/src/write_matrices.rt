//! Writing matrices.
ghost use Rattle.std.specs.Prelude.{◌≤◌, ◌<◌, ℕ, All, length, true};
ghost use Rattle.mlp_layout.specs.Combined.{signed_of, group, times};
ghost use Rattle.mlp_layout.specs.Writing.{Writes};
ghost use Rattle.mlp_syntax.specs.declared.major.Kind.{Kind};
ghost use Rattle.mlp_layout.specs.Allowed.{Allowed};
ghost use Rattle.mlp_params.specs.Matrices.{noise_shift_of, row, rows};

use crate::write_filters::{digit, write_absent, write_signed};
use arrayvec::ArrayVec;
use mlp_bits::{BitWriter, Full};
use mlp_layout::{put_all, put_flag, put_number};
use mlp_syntax::{MatrixRow, Restart};

/// A coefficient behind its flag.
fn write_coefficient(coefficient: &Option<i32>, width: u8, w: &mut BitWriter) -> Result<(), Full>
    requires width { width ≤ 16 }
    requires fits { (group true (signed_of width)).Fits coefficient.now }
    ensures { Writes w.old w.new result ((group true (signed_of width)).spelling coefficient.now) }
{
    match coefficient {
        None => write_absent(true, w),
        Some(given) => {
            put_flag(true, w)?;
            write_signed(*given, width, w)
        }
    }
}

fn write_coefficients(coeffs: &[Option<i32>], width: u8, w: &mut BitWriter) -> Result<(), Full>
    requires width { width ≤ 16 }
    requires coeffs { (n : ℕ) × (times n (group true (signed_of width))).Fits coeffs.now }
    ensures { (n : ℕ) → (times n (group true (signed_of width))).Fits coeffs.now →
        Writes w.old w.new result ((times n (group true (signed_of width))).spelling coeffs.now) }
{
    let _place = w.place();
    for coefficient in coeffs {
        write_coefficient(coefficient, width, w)?;
    }
    Ok(())
}

fn write_noise_shift(kind: u8, noise_shift: u8, w: &mut BitWriter) -> Result<(), Full>
    requires { (noise_shift_of kind).Fits noise_shift }
    ensures { Writes w.old w.new result ((noise_shift_of kind).spelling noise_shift) }
{
    let _place = w.place();
    if kind == 0 {
        return Ok(());
    }
    put_number(u32::from(noise_shift), 4, w)
}

fn write_row(restart: &Restart, given: &MatrixRow, w: &mut BitWriter) -> Result<(), Full>
    requires { Allowed (row restart.now) given.now }
    ensures { Writes w.old w.new result ((row restart.now).spelling given.now) }
{
    let dest = u32::from(given.dest);
    let frac = u32::from(given.frac);
    let bypass = digit(given.bypass);
    put_all(&[(dest, 4), (frac, 4), (bypass, 1)], w)?;
    write_coefficients(&given.coeffs, given.frac + 2, w)?;
    write_noise_shift(restart.kind, given.noise_shift, w)
}

fn write_rows(restart: &Restart, given: &[MatrixRow], w: &mut BitWriter) -> Result<(), Full>
    requires { All (Allowed (row restart.now)) given.now }
    ensures { Writes w.old w.new result ((times (length given.now) (row restart.now)).spelling given.now) }
{
    let _place = w.place();
    for matrix in given {
        write_row(restart, matrix, w)?;
    }
    Ok(())
}

/// The number of matrices and their rows.
pub fn write_matrices(
    restart: &Restart,
    given: &ArrayVec<MatrixRow, 8>,
    w: &mut BitWriter,
) -> Result<(), Full>
    requires { (format : Kind) × Allowed (rows format restart.now) given.now }
    ensures { (format : Kind) → Writes w.old w.new result ((rows format restart.now).spelling given.now) }
{
    put_number(given.len() as u32, 4, w)?;
    write_rows(restart, given, w)
}
