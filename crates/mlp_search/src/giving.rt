//! What a choice writes.

ghost use Rattle.std.specs.Prelude.{◌≡◌};
ghost use Rattle.std.specs.Ordering.{int_eq};
ghost use Rattle.std.specs.Cmp.Lexicographic.{pointwise};
ghost use Rattle.mlp_search.specs.Given.{same_filter, fir_stays, iir_stays, with_zeros, fir_given, iir_given, offset_given, codes_alike, given};

use crate::choice::Choice;
use crate::pair::{Pair, PairRef};
use crate::reduction::zeros;
use mlp_params::ChannelState;
use mlp_syntax::{ChannelParams, Filter};

/// Whether two lists of coefficients are the same, one after the other: there are few.
#[inline(always)]
fn same_coeffs(a: &[i32], b: &[i32]) -> bool
    ensures { result ≡ pointwise int_eq a.now b.now }
{
    if a.len() != b.len() {
        return false;
    }
    for i in 0..a.len() {
        if a[i] != b[i] {
            return false;
        }
    }
    true
}

/// Whether two filters without a state are the same.
#[inline(always)]
fn same_filter(a: &Filter<8>, b: &Filter<8>) -> bool
    ensures { result ≡ same_filter a.now b.now }
{
    a.shift == b.shift
        && a.coeff_bits == b.coeff_bits
        && a.coeff_shift == b.coeff_shift
        && same_coeffs(a.coeffs.as_slice(), b.coeffs.as_slice())
}

/// Whether no FIR is written: that of filter 0, or one that is in force.
#[inline(always)]
pub(crate) fn fir_stays(state: &ChannelState, number: u8, pair: &PairRef<'_>) -> bool
    ensures { result ≡ fir_stays state.now number pair.now }
{
    number == 0 || same_filter(pair.fir, &state.fir)
}

/// Whether no IIR is written: that of filter 0, or where there is none and none is in force.
#[inline(always)]
pub(crate) fn iir_stays(state: &ChannelState, number: u8, pair: &PairRef<'_>) -> bool
    ensures { result ≡ iir_stays state.now number pair.now }
{
    number == 0 || (pair.iir.coeffs.is_empty() && state.iir.coeffs.is_empty())
}

/// A filter with a state of zeros, where it has coefficients.
fn with_zeros(mut filter: Filter<4>) -> Filter<4>
    ensures { result ≡ with_zeros filter }
{
    let order = filter.coeffs.as_slice().len();
    if order > 0 {
        filter.state = Some(zeros(order));
    }
    filter
}

/// Whether offset, book and low bits are those in force.
pub(crate) fn codes_alike(state: &ChannelState, choice: &Choice) -> bool
    ensures { result ≡ codes_alike state.now choice.now }
{
    choice.offset == state.offset && choice.book == state.book && choice.low == state.low
}

/// The offset, where it isn't the one in force.
fn offset_given(state: &ChannelState, offset: i16) -> Option<i16>
    ensures { result ≡ offset_given state.now offset }
{
    if offset == state.offset {
        None
    } else {
        Some(offset)
    }
}

/// What a choice of these filters writes: those of them, the offset, the book and the low bits that differ from those in
/// force. Nothing where all stays as it is.
pub(crate) fn given_of(state: &ChannelState, pair: Pair, choice: &Choice) -> Option<ChannelParams>
    ensures { result ≡ given state.now pair choice.now }
{
    let view = pair.view();
    let fir_stays = fir_stays(state, choice.filter, &view);
    let iir_stays = iir_stays(state, choice.filter, &view);
    if fir_stays && iir_stays && codes_alike(state, choice) {
        return None;
    }
    let Pair { fir, iir } = pair;
    Some(ChannelParams {
        fir: if fir_stays { None } else { Some(fir) },
        iir: if iir_stays {
            None
        } else {
            Some(with_zeros(iir))
        },
        offset: offset_given(state, choice.offset),
        book: choice.book,
        low: choice.low,
    })
}
