//! Filters, prepared for sums.

ghost use Rattle.std.specs.Prelude.{◌≡◌, All, ◌<◌, ◌≤◌, ◌^◌, ◌-◌, ◌++◌, length, replicate, reverse, pos, ◌*ℤ◌, FitsSigned};
ghost use Rattle.std.specs.Int.{w32};
ghost use Rattle.mlp_predict.specs.Prediction.{IsCoefficient};
ghost use Rattle.mlp_predict.specs.Filters.{scaled, shift_where};

use mlp_syntax::Filter;

/// A field times 2^shift.
pub fn times(field: i32, shift: u8) -> i32
    requires shift { shift < 16 }
    requires fits { FitsSigned w32 (field *ℤ pos (2 ^ shift)) }
    ensures { result ≡ field *ℤ pos (2 ^ shift) }
{
    field * (1 << shift)
}

/// The coefficients of a filter with these fields, with zeros behind them.
pub fn taps<const M: usize>(fields: &[i32], coeff_shift: u8) -> [i32; M]
    requires room { length fields.now ≤ M }
    requires shift { coeff_shift < 16 }
    requires small { All IsCoefficient (scaled coeff_shift fields.now) }
    ensures value { result ≡ scaled coeff_shift fields.now ++ replicate (M - length fields.now) (pos 0) }
    ensures small { All IsCoefficient result }
{
    let mut taps = [0; M];
    for i in 0..fields.len() {
        taps[i] = times(fields[i], coeff_shift);
    }
    taps
}

/// The same coefficients, the last first, with zeros in front of them.
#[inline]
pub fn taps_back<const M: usize>(fields: &[i32], coeff_shift: u8) -> [i32; M]
    requires room { length fields.now ≤ M }
    requires shift { coeff_shift < 16 }
    requires small { All IsCoefficient (scaled coeff_shift fields.now) }
    ensures value { reverse result ≡ scaled coeff_shift fields.now ++ replicate (M - length fields.now) (pos 0) }
    ensures small { All IsCoefficient result }
{
    let mut back: [i32; M] = taps(fields, coeff_shift);
    back.reverse();
    back
}

/// The shift of both filters: that of one that is there.
#[inline]
pub fn shift_of<const F: usize, const I: usize>(fir: &Filter<F>, iir: &Filter<I>) -> u8
    ensures { result ≡ shift_where fir.now.coeffs.items fir.now.shift iir.now.shift }
{
    if fir.coeffs.is_empty() {
        iir.shift
    } else {
        fir.shift
    }
}
