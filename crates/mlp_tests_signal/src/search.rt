//! Choices worked by hand.

ghost use Rattle.mlp_params.specs.Filters.{absent};
ghost use Rattle.mlp_params.specs.InForce.{restarted_channel};
ghost use Rattle.mlp_params.specs.States.{IsChannelState};
ghost use Rattle.std.specs.Prelude.{◌≡◌, ◌≤◌, length, All};
ghost use Rattle.mlp_arith.specs.Ranges.{Is26};
ghost use Rattle.mlp_arith.specs.Words.{clear};

use arrayvec::ArrayVec;
use mlp_params::ChannelState;
use mlp_predict::Predictor;
use mlp_search::{Choice, choose, cost, reduced};
use mlp_syntax::Filter;

fn absent<const N: usize>() -> Filter<N>
    ensures { result ≡ absent }
{
    Filter {
        shift: 0,
        coeff_bits: 0,
        coeff_shift: 0,
        coeffs: ArrayVec::new(),
        state: None,
    }
}

/// What a restart puts in force in a channel.
fn restarted() -> ChannelState
    ensures value { result ≡ restarted_channel }
    ensures lawful { IsChannelState result }
{
    ChannelState {
        fir: absent(),
        iir: absent(),
        offset: 0,
        book: 0,
        low: 24,
    }
}

/// A block of samples.
fn words(samples: &[i16]) -> ArrayVec<i32, 160>
    requires { length samples.now ≤ 160 }
    ensures same { length result.items ≡ length samples.now }
    ensures few { All Is26 result.items }
    ensures whole { All (λ x. clear 0 x ≡ x) result.items }
{
    let mut words = ArrayVec::new();
    for sample in samples {
        words.push(i32::from(*sample));
    }
    words
}

/// The choice behind a restart, at step 0.
fn first_choice(filters: bool, samples: &[i16]) -> Choice
    requires { length samples.now ≤ 160 }
{
    let history = Predictor::<8, 4>::new();
    choose(&restarted(), &history, 0, filters, &words(samples))
}

/// Its cost.
fn first_cost(choice: &Choice, samples: &[i16]) -> Option<u64>
    requires { length samples.now ≤ 160 }
{
    let history = Predictor::<8, 4>::new();
    cost(&restarted(), &history, 0, choice, &words(samples))
}

#[test]
fn chooses_for_zeros(rt: HostRuntime) {
    let stays = Choice {
        low: 24,
        ..Choice::default()
    };
    assert_eq!(rt; first_cost(&stays, &[0; 8]), Some(193));
    let cheapest = Choice {
        bits: 11,
        ..Choice::default()
    };
    assert_eq!(rt; first_cost(&cheapest, &[0; 8]), Some(11));
    assert_eq!(rt; first_choice(true, &[0; 8]), cheapest);
    assert_eq!(rt; first_choice(false, &[0; 8]), cheapest);
}

#[test]
fn chooses_computed_filters(rt: HostRuntime) {
    let wave = [
        3, 2333, 3841, 3997, 2743, 526, -1882, -3619, -4088, -3117, -1039, 1396, 3344, 4111, 3434,
        1543,
    ];
    let second = Choice {
        filter: 11,
        book: 3,
        low: 9,
        offset: 0,
        bits: 226,
    };
    assert_eq!(rt; first_choice(true, &wave), second);

    let slope = [
        -34, -69, -102, -131, -160, -188, -214, -244, -269, -292, -318, -337, -358, -383, -400,
        -421, -434, -451, -466, -484, -496, -510, -518, -529,
    ];
    let first = Choice {
        filter: 10,
        book: 1,
        low: 0,
        offset: -37,
        bits: 144,
    };
    assert_eq!(rt; first_choice(true, &slope), first);
}

/// Residuals by a choice, and whether it has a cost.
fn left_by(
    history: &mut Predictor<8, 4>,
    choice: &Choice,
    samples: &[i16],
    out: &mut [i32],
) -> Option<u64>
    requires few { length samples.now ≤ 160 }
    requires room { length out.old ≡ length samples.now }
{
    let state = restarted();
    let block = words(samples);
    let bits = cost(&state, history, 2, choice, &block)?;
    let _given = reduced(&state, history, 2, choice, &block, out);
    Some(bits)
}

#[test]
fn follows_a_wave(rt: HostRuntime) {
    let wave = [
        -4, 412, 708, 824, 716, 416, 4, -408, -712, -828, -724, -428, -20, 396, 704, 828, 728, 432,
        20, -392, -704, -824, -732, -440,
    ];
    let mut history = Predictor::<8, 4>::new();
    let computed = Choice {
        filter: 11,
        book: 3,
        low: 6,
        offset: 0,
        bits: 200,
    };
    let mut residuals = [0; 24];
    assert_eq!(rt;
        left_by(&mut history, &computed, &wave, &mut residuals),
        Some(200)
    );
    assert_eq!(rt; &residuals[..6], [-4, 420, 24, 32, 0, -16].as_slice());
    assert_eq!(rt;
        history.outputs(),
        [-440, -732, -824, -704, -392, 20, 432, 728].as_slice()
    );
    assert_eq!(rt; history.differences(), [21, -10, -16, -37].as_slice());

    // An IIR begins with a state of zeros.
    let paired = Choice {
        filter: 9,
        book: 1,
        low: 6,
        offset: 0,
        bits: 0,
    };
    let mut later = [0; 4];
    assert_eq!(rt;
        left_by(&mut history, &paired, &[-32, 380, 700, 832], &mut later),
        Some(94)
    );
    assert_eq!(rt; later, [116, 64, -60, -216]);
    assert_eq!(rt; history.differences(), [-218, -61, 62, 116].as_slice());
}
