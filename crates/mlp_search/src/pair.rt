//! The filters of a channel, by number.

ghost use Rattle.std.specs.Prelude.{◌≡◌, ◌≤◌, ◌-◌, length, All, slice_get, Some, None, IfSome};
ghost use Rattle.mlp_arith.specs.Ranges.{Is26};
ghost use Rattle.mlp_params.specs.Filters.{absent};
ghost use Rattle.mlp_params.specs.States.{IsChannelState};
ghost use Rattle.mlp_predict.specs.Filters.{AreFilters};
ghost use Rattle.mlp_search.specs.Given.{IsPair};
ghost use Rattle.mlp_search.specs.Candidates.{filter_with, alone, beside_half, table, in_force, pair_of};

use arrayvec::ArrayVec;
use mlp_levinson::levinson;
use mlp_params::ChannelState;
use mlp_syntax::Filter;
use std::marker::Model;

/// Both filters of a channel, without states.
#[derive(Drop)]
pub struct Pair {
    /// The filter over the latest samples, of at most 8 coefficients.
    pub fir: Filter<8>,
    /// The filter over the latest differences, of at most 4 coefficients.
    pub iir: Filter<4>,
}

/// Both filters of a channel where they stand.
#[derive(Drop)]
pub struct PairRef<'a> {
    pub fir: &'a Filter<8>,
    pub iir: &'a Filter<4>,
}

impl<'a> Model for PairRef<'a> {
    ghost use Rattle.mlp_search.specs.declared.pair.Pair.{Pair};

    ghost Value = { Pair };

    ghost view = { λ pair. record { fir = pair.fir.now; iir = pair.iir.now } };
}

impl Pair {
    /// Both where they stand.
    pub(crate) fn view(&self) -> PairRef<'_>
        ensures { result ≡ self.now }
    {
        PairRef {
            fir: &self.fir,
            iir: &self.iir,
        }
    }
}

/// A list of the same coefficients.
#[inline(always)]
fn copied<const N: usize>(coeffs: &[i32]) -> ArrayVec<i32, N>
    requires { length coeffs.now ≤ N }
    ensures { result.items ≡ coeffs.now }
{
    let mut copy: ArrayVec<i32, N> = ArrayVec::new();
    let _fits = copy.try_extend_from_slice(coeffs);
    copy
}

/// A filter of these coefficients of so many bits.
#[inline(always)]
fn filter_with<const N: usize>(shift: u8, coeff_bits: u8, coeffs: &[i32]) -> Filter<N>
    requires { length coeffs.now ≤ N }
    ensures { result ≡ filter_with shift coeff_bits coeffs.now }
{
    Filter {
        shift,
        coeff_bits,
        coeff_shift: 0,
        coeffs: copied(coeffs),
        state: None,
    }
}

/// The same filter once more.
fn copied_filter<const N: usize>(filter: &Filter<N>) -> Filter<N>
    requires { filter.now.state ≡ None }
    ensures { result ≡ filter.now }
{
    Filter {
        shift: filter.shift,
        coeff_bits: filter.coeff_bits,
        coeff_shift: filter.coeff_shift,
        coeffs: copied(filter.coeffs.as_slice()),
        state: None,
    }
}

/// No filter.
#[inline(always)]
pub(crate) fn without<const N: usize>() -> Filter<N>
    ensures { result ≡ absent }
{
    filter_with(0, 0, &[])
}

/// A FIR without an IIR.
#[inline(always)]
fn alone(fir: Filter<8>) -> Pair
    ensures { result ≡ alone fir }
{
    Pair {
        fir,
        iir: without(),
    }
}

/// A FIR beside the IIR that takes half of the latest difference away.
#[inline(always)]
fn beside_half(fir: Filter<8>) -> Pair
    ensures { result ≡ beside_half fir }
{
    Pair {
        fir,
        iir: filter_with(2, 2, &[-2]),
    }
}

/// The filters of the table, by number.
#[inline(always)]
pub(crate) fn in_table(number: u8) -> Pair
    requires least { 1 ≤ number }
    requires most { number ≤ 9 }
    ensures { slice_get table (number - 1) ≡ Some result }
{
    match number {
        1 => alone(without()),
        2 => alone(filter_with(0, 2, &[1])),
        3 => alone(filter_with(0, 3, &[2, -1])),
        4 => alone(filter_with(0, 3, &[3, -3, 1])),
        5 => alone(filter_with(0, 4, &[4, -6, 4, -1])),
        6 => alone(filter_with(3, 4, &[7])),
        7 => alone(filter_with(3, 5, &[15, -7])),
        8 => beside_half(filter_with(2, 4, &[4])),
        _ => beside_half(filter_with(2, 5, &[8, -4])),
    }
}

/// The filters in force.
fn in_force(state: &ChannelState) -> Pair
    requires { IsChannelState state.now }
    ensures { result ≡ in_force state.now }
{
    Pair {
        fir: copied_filter(&state.fir),
        iir: copied_filter(&state.iir),
    }
}

/// The filters of a number: those in force, one of the table, or a computed FIR.
fn by_number(state: &ChannelState, step: u8, samples: &[i32], number: u8) -> Option<Pair>
    requires state { IsChannelState state.now }
    requires step { step ≤ 8 }
    requires few { length samples.now ≤ 160 }
    requires samples { All Is26 samples.now }
    ensures { result ≡ pair_of state.now step samples.now number }
{
    if number == 0 {
        return Some(in_force(state));
    }
    if number <= 9 {
        return Some(in_table(number));
    }
    if number > 17 {
        return None;
    }
    let fir = levinson(samples, step, number - 9)?;
    Some(alone(fir))
}

/// The filters of a number, which can be written and used.
pub(crate) fn pair_of(state: &ChannelState, step: u8, samples: &[i32], number: u8) -> Option<Pair>
    requires state { IsChannelState state.now }
    requires step { step ≤ 8 }
    requires few { length samples.now ≤ 160 }
    requires samples { All Is26 samples.now }
    ensures value { result ≡ pair_of state.now step samples.now number }
    ensures written { IfSome result IsPair }
    ensures usable { IfSome result (λ pair. AreFilters pair.fir pair.iir) }
{
    by_number(state, step, samples, number)
}
