//! The filters of a number on trial: what they write, and the middle of what they leave.

ghost use Rattle.std.specs.Prelude.{◌≡◌, ◌≤◌, ◌+◌, ◌+ℤ◌, Some, None, if◌then◌else◌, length, pos, neg_ℤ, ◌≤ℤ◌};
ghost use Rattle.mlp_arith.specs.Words.{floor_by};
ghost use Rattle.mlp_search.specs.Candidates.{limited, middle_of};
ghost use Rattle.mlp_params.specs.declared.state.ChannelState.{ChannelState};
ghost use Rattle.mlp_search.specs.Given.{IsPair, with_zeros};
ghost use Rattle.mlp_search.specs.Cost.{filter_bits, fir_bits, iir_bits};
ghost use Rattle.mlp_search.specs.Trial.{IsWriting, IsTrial};

use crate::giving::{fir_stays, iir_stays};
use crate::pair::PairRef;
use crate::survey::{Survey, survey_of};
use mlp_params::ChannelState;
use mlp_syntax::Filter;

/// What filters of a number write.
#[derive(Drop)]
pub struct Writing {
    /// Whether nothing is written.
    pub stays: bool,
    /// The bits of both filters where they are written.
    pub bits: u16,
}

/// The filters of a number over a block.
#[derive(Drop)]
pub struct Trial<'a> {
    pub number: u8,
    pub pair: PairRef<'a>,
    /// Whether they are written nowhere.
    pub stays: bool,
    /// The bits of both filters where they are written.
    pub bits: u16,
    /// What they leave, in quantisation steps.
    pub survey: Survey,
    /// The middle of the least and the greatest.
    pub middle: i16,
}

/// How many bits a filter without a state takes.
#[inline(always)]
fn filter_bits<const N: usize>(filter: &Filter<N>) -> u16
    requires few { N ≤ 8 }
    ensures value { result ≡ filter_bits filter.now }
    ensures few { result ≤ 2057 }
{
    let order = filter.coeffs.as_slice().len() as u16;
    if order == 0 {
        return 4;
    }
    17 + order * u16::from(filter.coeff_bits)
}

/// How many bits a FIR takes, where it is written.
#[inline(always)]
fn fir_bits(stays: bool, fir: &Filter<8>) -> u16
    ensures value { result ≡ fir_bits (if stays then None else Some fir.now) }
    ensures few { result ≤ 2057 }
{
    if stays { 0 } else { filter_bits(fir) }
}

/// How many bits an IIR takes, where it is written.
#[inline(always)]
fn iir_bits(stays: bool, iir: &Filter<4>) -> u16
    ensures value { result ≡ iir_bits (if stays then None else Some (with_zeros iir.now)) }
    ensures few { result ≤ 2065 }
{
    if stays {
        return 0;
    }
    if iir.coeffs.is_empty() {
        return 4;
    }
    filter_bits(iir) + 8
}

/// What the filters of a number write.
#[inline(always)]
pub(crate) fn writing_of(state: &ChannelState, number: u8, pair: &PairRef<'_>) -> Writing
    ensures { IsWriting state.now number pair.now result }
{
    let fir_stays = fir_stays(state, number, pair);
    let iir_stays = iir_stays(state, number, pair);
    Writing {
        stays: fir_stays && iir_stays,
        bits: fir_bits(fir_stays, pair.fir) + iir_bits(iir_stays, pair.iir),
    }
}

/// Half the sum of two values, rounded down.
fn half(least: i32, greatest: i32) -> i64
    ensures { result ≡ floor_by 1 (least +ℤ greatest) }
{
    (i64::from(least) + i64::from(greatest)) >> 1
}

/// A value brought into 15 signed bits.
fn limited(value: i64) -> i64
    ensures value { result ≡ limited value }
    ensures low { neg_ℤ (pos 16384) ≤ℤ result }
    ensures high { result ≤ℤ pos 16383 }
{
    if value < -16384 {
        return -16384;
    }
    if value > 16383 {
        return 16383;
    }
    value
}

/// Half the sum of the least and the greatest value, in 15 signed bits.
fn middle_of(least: i32, greatest: i32) -> i16
    ensures { result ≡ limited (floor_by 1 (least +ℤ greatest)) }
{
    limited(half(least, greatest)) as i16
}

/// The filters of a number, which leave these residuals.
#[inline(always)]
pub(crate) fn trial_of<'a>(
    step: u8,
    number: u8,
    pair: PairRef<'a>,
    writing: &Writing,
    residuals: &[i32],
) -> Trial<'a>
    requires pair { IsPair pair }
    requires step { step ≤ 8 }
    requires few { length residuals.now ≤ 160 }
    ensures trial { (force : ChannelState) → IsWriting force number pair.entry writing.now →
        IsTrial force step residuals.now result }
    ensures number { result.number ≡ number }
    ensures pair { result.pair ≡ pair.entry }
{
    let survey = survey_of(step, residuals);
    let middle = middle_of(survey.least, survey.greatest);
    Trial {
        number,
        pair,
        stays: writing.stays,
        bits: writing.bits,
        survey,
        middle,
    }
}
