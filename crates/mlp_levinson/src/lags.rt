//! How like itself a block is, moved by 0 to 8 samples.

ghost use Rattle.std.specs.Prelude.{◌≡◌, ◌≤◌, ◌<◌, ◌+◌, ◌-◌, ◌^◌, ◌∷◌, [], pos, neg_ℤ, ◌*ℤ◌, ◌≤ℤ◌, length, take, drop, replicate, All};
ghost use Rattle.mlp_arith.specs.Ranges.{Is26};
ghost use Rattle.mlp_predict.specs.Prediction.{dot};
ghost use Rattle.mlp_levinson.specs.Computed.{over, lag, lags};

/// The product of two values of 26 signed bits.
#[inline(always)]
fn product(a: i32, b: i32) -> i64
    requires a { Is26 a }
    requires b { Is26 b }
    ensures value { result ≡ a *ℤ b }
    ensures low { neg_ℤ (pos (2 ^ 50)) ≤ℤ result }
    ensures high { result ≤ℤ pos (2 ^ 50) }
{
    i64::from(a) * i64::from(b)
}

/// The sums of the products of values with those of a line from `distance` on, from 1 behind that and from 2 behind it.
#[inline(never)]
fn products(ys: &[i32], line: &[i32], distance: usize) -> [i64; 3]
    requires few { length ys.now ≤ 160 }
    requires distance { distance ≤ 6 }
    requires known { length ys.now + distance + 2 ≤ length line.now }
    requires ys { All Is26 ys.now }
    requires line { All Is26 line.now }
    ensures { result ≡ dot ys.now (drop distance line.now) ∷ dot ys.now (drop (distance + 1) line.now)
        ∷ dot ys.now (drop (distance + 2) line.now) ∷ [] }
{
    let mut first: i64 = 0;
    let mut second: i64 = 0;
    let mut third: i64 = 0;
    for i in 0..ys.len() {
        first += product(ys[i], line[distance + i]);
        second += product(ys[i], line[distance + 1 + i]);
        third += product(ys[i], line[distance + 2 + i]);
    }
    [first, second, third]
}

/// The lags of a distance, of 1 more and of 2 more, of the values that begin a line of zeros behind them.
fn three_lags(line: &[i32; 168], count: usize, distance: usize) -> [i64; 3]
    requires few { count ≤ 160 }
    requires distance { distance ≤ 6 }
    requires zeros { drop count line.now ≡ replicate (168 - count) (pos 0) }
    requires line { All Is26 line.now }
    ensures { let ys = take count line.now in
        result ≡ lag ys distance ∷ lag ys (distance + 1) ∷ lag ys (distance + 2) ∷ [] }
{
    products(&line[..count], line, distance)
}

/// The samples over 2^step, and zeros behind them.
fn padded(samples: &[i32], step: u8) -> [i32; 168]
    requires few { length samples.now ≤ 160 }
    requires samples { All Is26 samples.now }
    requires step { step < 32 }
    ensures first { take (length samples.now) result ≡ over step samples.now }
    ensures zeros { drop (length samples.now) result ≡ replicate (168 - length samples.now) (pos 0) }
    ensures small { All Is26 result }
{
    let mut line = [0; 168];
    for i in 0..samples.len() {
        line[i] = samples[i] >> step;
    }
    line
}

/// The lags 0 to 8 of the samples over 2^step.
pub fn lags(samples: &[i32], step: u8) -> [i64; 9]
    requires few { length samples.now ≤ 160 }
    requires samples { All Is26 samples.now }
    requires step { step < 32 }
    ensures { result ≡ lags (over step samples.now) }
{
    let line = padded(samples, step);
    let count = samples.len();
    let low = three_lags(&line, count, 0);
    let middle = three_lags(&line, count, 3);
    let high = three_lags(&line, count, 6);
    [
        low[0], low[1], low[2], middle[0], middle[1], middle[2], high[0], high[1], high[2],
    ]
}
