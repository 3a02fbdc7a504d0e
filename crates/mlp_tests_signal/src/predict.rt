//! Predictions worked by hand.

ghost use Rattle.std.specs.Prelude.{◌≤◌, ◌<◌, length, All};
ghost use Rattle.mlp_predict.specs.Filters.{IsFilter, scaled};
ghost use Rattle.mlp_predict.specs.Prediction.{IsCoefficient};

use arrayvec::ArrayVec;
use mlp_predict::{History, Predictor, dot};
use mlp_syntax::{Filter, FilterState};

fn filter<const N: usize>(coeffs: &[i32], shift: u8, coeff_shift: u8) -> Filter<N>
    requires few { length coeffs.now ≤ N }
    requires shift { shift < 16 }
    requires coeff_shift { coeff_shift < 16 }
    requires small { All IsCoefficient (scaled coeff_shift coeffs.now) }
    ensures { IsFilter result }
{
    let mut fields: ArrayVec<i32, N> = ArrayVec::new();
    for i in 0..coeffs.len() {
        fields.push(coeffs[i]);
    }
    Filter {
        shift,
        coeff_bits: 16,
        coeff_shift,
        coeffs: fields,
        state: None,
    }
}

fn none<const N: usize>() -> Filter<N>
    ensures { IsFilter result }
{
    filter(&[], 0, 0)
}

/// A channel whose latest outputs are these, the latest first.
fn channel(latest: i32, before: i32) -> Predictor<8, 4> {
    let mut channel = Predictor::<8, 4>::new();
    channel.restore(&none(), &none(), 0, before);
    channel.restore(&none(), &none(), 0, latest);
    channel
}

#[test]
fn predicts_from_outputs(rt: HostRuntime) {
    let mut past = channel(9, 5);
    let fir: Filter<8> = filter(&[2, -1], 0, 0);
    assert_eq!(rt; past.predict(&fir, &none()), 13);
    assert_eq!(rt; past.restore(&fir, &none(), 0, -1), 12);

    // Sums are rounded down, and low bits cleared below 0 too.
    let eighths: Filter<8> = filter(&[7], 3, 0);
    let mut below = channel(-72, 0);
    assert_eq!(rt; channel(-1, 0).predict(&eighths, &none()), -1);
    assert_eq!(rt; channel(-1, 0).restore(&eighths, &none(), 0, 0), -1);
    assert_eq!(rt; below.predict(&eighths, &none()), -63);
    assert_eq!(rt; below.copied().reduce(&eighths, &none(), 3, -56), Some(8));
    assert_eq!(rt; below.restore(&eighths, &none(), 3, 8), -56);
    assert_eq!(rt; below.differences()[0], 7);

    let same: Filter<8> = filter(&[1], 0, 0);
    let mut low = channel(-1, 0);
    assert_eq!(rt; low.reduce(&same, &none(), 0, 2147483647), None);
    assert_eq!(rt; low.outputs()[0], -1);
}

#[test]
fn predicts_from_differences(rt: HostRuntime) {
    let mut past = channel(10, 0);
    let fir: Filter<8> = filter(&[4], 2, 0);
    let iir: Filter<4> = filter(&[-1], 2, 1);
    let mut values: ArrayVec<i32, 4> = ArrayVec::new();
    values.push(1);
    past.set_state(&FilterState {
        bits: 2,
        shift: 1,
        values,
    });
    assert_eq!(rt; past.predict(&fir, &iir), 9);
    assert_eq!(rt; past.restore(&fir, &iir, 1, 2), 10);
    assert_eq!(rt; past.differences()[0], 1);
}

#[test]
fn takes_blocks(rt: HostRuntime) {
    let fir: Filter<8> = filter(&[2, -1], 0, 0);
    let samples = [5, 9, 13, 18];
    let mut block = [0; 4];
    let mut channel = Predictor::<8, 4>::new();
    assert_eq!(rt;
        channel.residuals(&fir, &none(), 0, &samples, &mut block),
        true
    );
    assert_eq!(rt; block, [5, -1, 0, 1]);
    channel.restore_block(&fir, &none(), 0, &mut block);
    assert_eq!(rt; block, samples);
    assert_eq!(rt; channel.predict(&fir, &none()), 23);
    channel.reset();
    assert_eq!(rt; channel.outputs()[0], 0);

    let iir: Filter<4> = filter(&[1], 0, 0);
    let mut from_differences = [5, 3, 2];
    channel.restore_block(&none(), &iir, 0, &mut from_differences);
    assert_eq!(rt; from_differences, [5, 8, 5]);
    assert_eq!(rt; channel.differences()[1], 3);
    channel.reset();
    let mut residuals = [0; 3];
    assert_eq!(rt;
        channel.reduce_block(&none(), &iir, 0, &from_differences, &mut residuals),
        true
    );
    assert_eq!(rt; residuals, [5, 3, 2]);
    assert_eq!(rt; channel.outputs()[1], 8);
}

#[test]
fn keeps_the_latest(rt: HostRuntime) {
    let mut history = History::<3>::new();
    for value in 0..100 {
        history.push(value);
    }
    assert_eq!(rt; history.at(0), 99);
    assert_eq!(rt; history.at(2), 97);
    assert_eq!(rt; dot(&[1, 2], &[3, 4]), 11);
}
