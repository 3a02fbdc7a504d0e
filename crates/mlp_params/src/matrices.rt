//! Reading matrices. Source: the MLP substream syntax as publicly documented.
ghost use Rattle.std.specs.Prelude.{◌≡◌, ◌+◌, ◌≤◌, ◌<◌, true};
ghost use Rattle.mlp_layout.specs.Reading.{Gives};
ghost use Rattle.mlp_layout.specs.Combined.{signed_of, times, group};
ghost use Rattle.mlp_params.specs.Matrices.{matrix_limit, sources, noise_shift_of, row, rows};

use crate::filters::read_signed;
use arrayvec::ArrayVec;
use mlp_bits::BitReader;
use mlp_layout::{broken, byte, flag};
use mlp_syntax::{Broken, Field, Kind, MatrixRow, Restart};

fn matrix_limit(kind: Kind) -> u8
    ensures value { result ≡ matrix_limit kind }
    ensures most { result ≤ 8 }
{
    match kind {
        Kind::Fbb => 6,
        Kind::Fba => 8,
    }
}

/// How many sources a row has.
fn sources(restart: &Restart) -> u8
    requires { restart.now.max_matrix ≤ 7 }
    ensures value { result ≡ sources restart.now }
    ensures most { result ≤ 10 }
{
    let noise = if restart.kind == 0 { 2 } else { 0 };
    restart.max_matrix + 1 + noise
}

/// A coefficient behind its flag.
#[tactic(auto, unfolding(mlp_layout::specs::Layout::part, mlp_layout::specs::Layout::seen, mlp_layout::specs::Layout::made, mlp_layout::specs::Combined::chosen, mlp_layout::specs::Combined::present, mlp_layout::specs::Combined::group))]
fn read_coefficient(width: u8, r: &mut BitReader) -> Result<Option<i32>, Broken>
    requires { width ≤ 16 }
    ensures { Gives (λ x. x) r.old r.new result ((group true (signed_of width)).read r.old.all r.old.place) }
{
    let given = flag(r)?;
    if !given {
        return Ok(None);
    }
    let value = read_signed(width, r)?;
    Ok(Some(value))
}

fn read_coefficients(
    count: u8,
    width: u8,
    r: &mut BitReader,
) -> Result<ArrayVec<Option<i32>, 10>, Broken>
    requires width { width ≤ 16 }
    requires room { count ≤ 10 }
    ensures { Gives (λ v. v.items) r.old r.new result
        ((times count (group true (signed_of width))).read r.old.all r.old.place) }
{
    let mut coeffs: ArrayVec<Option<i32>, 10> = ArrayVec::new();
    for _ in 0..count {
        let coefficient = read_coefficient(width, r)?;
        coeffs.push(coefficient);
    }
    Ok(coeffs)
}

#[tactic(auto, unfolding(mlp_layout::specs::Layout::ruled, mlp_layout::specs::Layout::made, mlp_layout::specs::Combined::chosen, crate::specs::Matrices::noise_shift_of))]
fn read_noise_shift(kind: u8, r: &mut BitReader) -> Result<u8, Broken>
    ensures { Gives (λ x. x) r.old r.new result ((noise_shift_of kind).read r.old.all r.old.place) }
{
    if kind == 0 {
        return Ok(0);
    }
    let at = r.place();
    let noise_shift = byte(4, r)?;
    if noise_shift != 0 {
        return Err(broken(Field::NoiseShift, at));
    }
    Ok(noise_shift)
}

#[tactic(auto, unfolding(mlp_layout::specs::Layout::part, mlp_layout::specs::Layout::ruled, mlp_layout::specs::Layout::made, crate::specs::Matrices::row))]
fn read_row(restart: &Restart, r: &mut BitReader) -> Result<MatrixRow, Broken>
    requires { restart.now.max_matrix ≤ 7 }
    ensures { Gives (λ x. x) r.old r.new result ((row restart.now).read r.old.all r.old.place) }
{
    let at = r.place();
    let dest = byte(4, r)?;
    if dest > restart.max_matrix {
        return Err(broken(Field::MatrixDest, at));
    }
    let at = r.place();
    let frac = byte(4, r)?;
    if frac > 14 {
        return Err(broken(Field::MatrixFrac, at));
    }
    let bypass = flag(r)?;
    let coeffs = read_coefficients(sources(restart), frac + 2, r)?;
    let noise_shift = read_noise_shift(restart.kind, r)?;
    Ok(MatrixRow {
        dest,
        frac,
        bypass,
        coeffs,
        noise_shift,
    })
}

fn read_rows(
    count: u8,
    restart: &Restart,
    r: &mut BitReader,
) -> Result<ArrayVec<MatrixRow, 8>, Broken>
    requires restart { restart.now.max_matrix ≤ 7 }
    requires room { count ≤ 8 }
    ensures { Gives (λ v. v.items) r.old r.new result ((times count (row restart.now)).read r.old.all r.old.place) }
{
    let mut rows: ArrayVec<MatrixRow, 8> = ArrayVec::new();
    for _ in 0..count {
        let row = read_row(restart, r)?;
        rows.push(row);
    }
    Ok(rows)
}

/// The number of matrices and their rows.
#[tactic(auto, unfolding(mlp_layout::specs::Layout::part, mlp_layout::specs::Layout::ruled, mlp_layout::specs::Layout::made, crate::specs::Matrices::rows))]
pub fn read_matrices(
    format: Kind,
    restart: &Restart,
    r: &mut BitReader,
) -> Result<ArrayVec<MatrixRow, 8>, Broken>
    requires { restart.now.max_matrix ≤ 7 }
    ensures { Gives (λ x. x) r.old r.new result ((rows format restart.now).read r.old.all r.old.place) }
{
    let at = r.place();
    let count = byte(4, r)?;
    if count > matrix_limit(format) {
        return Err(broken(Field::MatrixCount, at));
    }
    read_rows(count, restart, r)
}
