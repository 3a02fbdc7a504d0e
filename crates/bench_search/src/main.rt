//! Chooses filters and codes for the blocks of a signal, each behind the outputs of those before it, and prints the sum of
//! the bits.
#![tactic(auto)]

ghost use Rattle.std.specs.Prelude.{◌≡◌, ◌≤◌, ◌<◌, length, All};
ghost use Rattle.mlp_arith.specs.Ranges.{Is26};
ghost use Rattle.mlp_arith.specs.Words.{clear};
ghost use Rattle.mlp_params.specs.Filters.{absent};
ghost use Rattle.mlp_params.specs.InForce.{restarted_channel};
ghost use Rattle.mlp_params.specs.States.{IsChannelState};

use arrayvec::ArrayVec;
use mlp_params::ChannelState;
use mlp_predict::Predictor;
use mlp_search::{choose, reduced};
use mlp_syntax::Filter;
use std::{env, io};

fn absent<const N: usize>() -> Filter<N>
    ensures { result ≡ absent }
{
    Filter {
        shift: 0,
        coeff_bits: 0,
        coeff_shift: 0,
        coeffs: ArrayVec::new(),
        state: None,
    }
}

/// What a restart puts in force in a channel.
fn restarted() -> ChannelState
    ensures value { result ≡ restarted_channel }
    ensures lawful { IsChannelState result }
{
    ChannelState {
        fir: absent(),
        iir: absent(),
        offset: 0,
        book: 0,
        low: 24,
    }
}

/// A hill of a parabola over 32,768 places, 8192 high.
fn hill(place: u32) -> u32
    requires { place < 32768 }
    ensures { result ≤ 8192 }
{
    (place * (32768 - place) / 32768).min(8192)
}

/// A wave of hills and valleys, of a period of 65,536 phases, from 0 to 16,384.
fn wave(phase: u32) -> u32
    ensures { result ≤ 16384 }
{
    if phase % 65536 < 32768 {
        8192 + hill(phase % 32768)
    } else {
        8192 - hill(phase % 32768)
    }
}

/// A number from 0 to 127 that looks random.
fn noise(n: u32) -> u32
    ensures { result < 128 }
{
    let mixed = n.wrapping_mul(2654435761).wrapping_add(n >> 7);
    mixed.wrapping_mul(2246822519) >> 25
}

/// Sample n of the signal: three tones and noise, from 0 to 26,751.
fn height(n: u32) -> u32
    ensures { result < 26752 }
{
    wave(n.wrapping_mul(300))
        + wave(n.wrapping_mul(1711)) / 2
        + wave(n.wrapping_mul(5903)) / 8
        + noise(n)
}

/// .. around 0
fn sample(n: u32) -> i16 {
    height(n) as i16 - 13376
}

/// So many samples of the signal from one on.
fn block(first: u32, count: u8) -> ArrayVec<i32, 160>
    requires { count ≤ 160 }
    ensures same { length result.items ≡ count }
    ensures few { All Is26 result.items }
    ensures whole { All (λ x. clear 0 x ≡ x) result.items }
{
    let mut samples = ArrayVec::new();
    for i in 0..count {
        samples.push(i32::from(sample(first.wrapping_add(u32::from(i)))));
    }
    samples
}

/// The bits of a block, behind which the histories then are.
fn bits_of(state: &ChannelState, history: &mut Predictor<8, 4>, samples: &[i32]) -> u64
    requires state { IsChannelState state.now }
    requires few { length samples.now ≤ 160 }
    requires samples { All Is26 samples.now }
    requires whole { All (λ x. clear 0 x ≡ x) samples.now }
{
    let choice = choose(state, history, 0, true, samples);
    let mut line = [0; 160];
    let _given = reduced(
        state,
        history,
        0,
        &choice,
        samples,
        &mut line[..samples.len()],
    );
    choice.bits
}

/// The bits of so many blocks.
fn run(count: u8, blocks: u32) -> u64
    requires { count ≤ 160 }
{
    let state = restarted();
    let mut history = Predictor::<8, 4>::new();
    let mut bits: u64 = 0;
    for n in 0..blocks {
        let samples = block(n.wrapping_mul(u32::from(count)), count);
        bits = bits.wrapping_add(bits_of(&state, &mut history, &samples));
    }
    bits
}

fn main(rt: HostRuntime) -> io::Result<()> {
    let words: Vec<String> = env::args(&rt)?.skip(1).collect(rt.alloc())?;
    if words.len() < 2 {
        println!(rt; "usage: SAMPLES BLOCKS")?;
        return Ok(());
    }
    let count = words[0].parse::<u8>().unwrap_or(0).min(160);
    let blocks = words[1].parse::<u32>().unwrap_or(0);
    println!(rt; "{}", run(count, blocks))?;
    Ok(())
}
