//! The noise of a substream.

ghost use Rattle.std.specs.Prelude.{◌≡◌, ◌<◌, ◌≤◌, ◌^◌, pos, ◌*ℤ◌};
ghost use Rattle.mlp_matrix.specs.Noise.{noise_of, next_seed, noisy};

/// The two noise values of a seed, before they are shifted.
#[inline]
fn noise_of(seed: u32) -> (i8, i8)
    ensures first { result.0 ≡ (noise_of seed).0 }
    ensures second { result.1 ≡ (noise_of seed).1 }
{
    let first = ((seed >> 15) & 0xff) as u8;
    let second = ((seed >> 7) & 0xff) as u8;
    (first.cast_signed(), second.cast_signed())
}

/// The seed of the next frame.
#[inline]
fn next_seed(seed: u32) -> u32
    requires { seed < 2 ^ 23 }
    ensures value { result ≡ next_seed seed }
    ensures room { result < 2 ^ 23 }
{
    let high = seed >> 7;
    (((seed & 0x7f) << 16) ^ high ^ (high << 5)) & 0x7f_ffff
}

/// A noise value times 2^shift.
#[inline]
fn shifted(value: i8, shift: u8) -> i32
    requires { shift < 16 }
    ensures { result ≡ value *ℤ pos (2 ^ shift) }
{
    i32::from(value) << shift
}

/// Puts the noise of a seed behind the channels of a frame.
#[inline]
fn put(seed: u32, shift: u8, channels: u8, frame: &mut [i32; 10])
    requires shift { shift < 16 }
    requires channels { channels ≤ 8 }
    ensures { frame.new ≡ noisy shift channels seed frame.old }
{
    let (first, second) = noise_of(seed);
    let place = usize::from(channels);
    frame[place] = shifted(first, shift);
    frame[place + 1] = shifted(second, shift);
}

/// A generator of noise. Its seed has 23 bits.
#[derive(Clone, Copy, Debug, PartialEq, Eq)]
pub struct Noise {
    pub seed: u32,
}

impl Noise {
    ghost use Rattle.std.specs.Prelude.{◌≡◌, ◌+◌, ◌<◌, ◌≤◌, ◌^◌, length};
    ghost use Rattle.mlp_matrix.specs.Noise.{noise_of, next_seed, seed_at, noisy_each};

    /// The two noise values of a frame, from -128 to 127, before they are shifted.
    /// The seed becomes that of the next frame.
    pub fn next(&mut self) -> (i32, i32)
        requires { self.old.seed < 2 ^ 23 }
        ensures first { result.0 ≡ (noise_of self.old.seed).0 }
        ensures second { result.1 ≡ (noise_of self.old.seed).1 }
        ensures seed { self.new.seed ≡ next_seed self.old.seed }
        ensures room { self.new.seed < 2 ^ 23 }
    {
        let (first, second) = noise_of(self.seed);
        self.seed = next_seed(self.seed);
        (i32::from(first), i32::from(second))
    }

    /// The seed becomes that of so many frames on.
    pub fn skip(&mut self, count: usize)
        requires { self.old.seed < 2 ^ 23 }
        ensures seed { self.new.seed ≡ seed_at self.old.seed count }
        ensures room { self.new.seed < 2 ^ 23 }
    {
        // From 0 on all seeds are 0.
        if self.seed == 0 {
            return;
        }
        for _ in 0..count {
            self.seed = next_seed(self.seed);
        }
    }

    /// Puts the noise of each frame, times 2^shift, behind its channels.
    /// The seed becomes that of the frame behind them.
    pub fn put_each(&mut self, shift: u8, channels: u8, frames: &mut [[i32; 10]])
        requires seed { self.old.seed < 2 ^ 23 }
        requires shift { shift < 16 }
        requires channels { channels ≤ 8 }
        ensures noise { frames.new ≡ noisy_each shift channels self.old.seed frames.old }
        ensures seed { self.new.seed ≡ seed_at self.old.seed (length frames.old) }
        ensures room { self.new.seed < 2 ^ 23 }
    {
        for i in 0..frames.len() {
            put(self.seed, shift, channels, &mut frames[i]);
            self.seed = next_seed(self.seed);
        }
    }
}
