//! The rows and steps of the mixes.

ghost use Rattle.std.specs.Prelude.{◌≡◌, ◌≤◌, ◌<◌, ◌-◌, [], ◌∷◌, false, length, All};
ghost use Rattle.mlp_fold.specs.Rows.{row, on, left, right, rows_of, fold_rows, bypass_rows, steps_of};

use crate::profile::Mix;
use arrayvec::ArrayVec;
use mlp_syntax::MatrixRow;

/// A row with these coefficients.
fn row(dest: u8, frac: u8, bypass: bool, fields: &[Option<i32>]) -> MatrixRow
    requires { length fields.now ≤ 10 }
    ensures { result ≡ row dest frac bypass fields.now }
{
    let mut coeffs: ArrayVec<Option<i32>, 10> = ArrayVec::new();
    for i in 0..fields.len() {
        coeffs.push(fields[i]);
    }
    MatrixRow {
        dest,
        frac,
        bypass,
        coeffs,
        noise_shift: 0,
    }
}

/// Eight sources, and these coefficients on some, by number.
fn on(sources: &[(usize, i32)]) -> [Option<i32>; 8]
    requires { All (λ source. source.0 < 8) sources.now }
    ensures { result ≡ on sources.now }
{
    let mut coeffs = [None; 8];
    for i in 0..sources.len() {
        let (source, coeff) = sources[i];
        coeffs[source] = Some(coeff);
    }
    coeffs
}

/// The rows of the two front channels of Fold, where the surround channels have this coefficient.
fn front_rows(surround: i32, rows: &mut ArrayVec<MatrixRow, 8>)
    requires { rows.old.items ≡ [] }
    ensures { rows.new.items ≡ row 0 14 false (left surround) ∷ row 1 14 false (right surround) ∷ [] }
{
    let left = on(&[(0, 16384), (2, -11585), (4, surround)]);
    let right = on(&[(1, 16384), (2, -11585), (5, surround)]);
    rows.push(row(0, 14, false, &left));
    rows.push(row(1, 14, false, &right));
}

/// The rows of Fold.
fn fold_rows(substream: u8, channels: u8) -> ArrayVec<MatrixRow, 8>
    ensures { result.items ≡ fold_rows substream channels }
{
    let mut rows: ArrayVec<MatrixRow, 8> = ArrayVec::new();
    if substream == 0 {
        rows.push(row(0, 14, false, &[Some(6786), None, None, None]));
        rows.push(row(1, 14, false, &[None, Some(6786), None, None]));
        return rows;
    }
    if substream == 1 && channels == 6 {
        front_rows(-11585, &mut rows);
        return rows;
    }
    front_rows(-5793, &mut rows);
    if substream == 1 {
        rows.push(row(4, 14, false, &on(&[(4, 8192)])));
        rows.push(row(5, 14, false, &on(&[(5, 8192)])));
        return rows;
    }
    rows.push(row(4, 14, false, &on(&[(4, 16384), (6, -16384)])));
    rows.push(row(5, 14, false, &on(&[(5, 16384), (7, -16384)])));
    rows
}

/// The rows of Bypass.
fn bypass_rows(substream: u8) -> ArrayVec<MatrixRow, 8>
    ensures { result.items ≡ bypass_rows substream }
{
    let mut rows: ArrayVec<MatrixRow, 8> = ArrayVec::new();
    if substream == 0 {
        return rows;
    }
    rows.push(row(2, 0, true, &on(&[(2, 1)])));
    rows.push(row(3, 0, true, &on(&[(3, 1)])));
    rows.push(row(4, 0, true, &on(&[(4, 1)])));
    rows.push(row(5, 0, true, &on(&[(5, 1)])));
    rows
}

/// The matrix rows of a substream. In substreams 0 and 1 two noise sources stand behind the 2 or 6 channels.
pub fn rows(mix: Mix, substream: u8, channels: u8) -> ArrayVec<MatrixRow, 8>
    ensures { result.items ≡ rows_of mix substream channels }
{
    match mix {
        Mix::Split => ArrayVec::new(),
        Mix::Fold => fold_rows(substream, channels),
        Mix::Bypass => bypass_rows(substream),
        Mix::Side => {
            let mut rows: ArrayVec<MatrixRow, 8> = ArrayVec::new();
            rows.push(row(1, 0, false, &[Some(1), Some(1), None, None]));
            rows
        }
    }
}

/// A list of these steps.
fn listed(steps: &[u8]) -> ArrayVec<u8, 8>
    requires { length steps.now ≤ 8 }
    ensures { result.items ≡ steps.now }
{
    let mut list: ArrayVec<u8, 8> = ArrayVec::new();
    for i in 0..steps.len() {
        list.push(steps[i]);
    }
    list
}

/// The quantisation steps of a substream's channels, from the first on: the low bits that PCM of this depth doesn't
/// have, and in Bypass the bits that are sent beside the channels.
pub fn steps(mix: Mix, depth: u8, substream: u8) -> ArrayVec<u8, 8>
    requires { depth ≤ 24 }
    ensures { result.items ≡ steps_of mix (24 - depth) substream }
{
    let q = 24 - depth;
    if mix == Mix::Bypass {
        if substream == 0 {
            return listed(&[0, 0]);
        }
        return listed(&[0, 0, 1, 1, 1, 1]);
    }
    match substream {
        0 => listed(&[q; 2]),
        1 => listed(&[q; 6]),
        _ => listed(&[q; 8]),
    }
}
