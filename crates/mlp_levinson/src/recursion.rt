//! The recursion from one order to the next.

ghost use Rattle.std.specs.Prelude.{◌≡◌, ◌≤◌, ◌-◌, ◌^◌, length, All, pos, neg_ℤ, ◌*ℤ◌, ◌-ℤ◌, ◌≤ℤ◌, ◌<ℤ◌, unsigned_abs};
ghost use Rattle.mlp_arith.specs.Words.{floor_by, floor_over};
ghost use Rattle.mlp_predict.specs.Prediction.{dot};
ghost use Rattle.mlp_levinson.specs.Computed.{lags_down, remainder, limited, extended, error_after};
ghost use Rattle.mlp_levinson.specs.Computed.{IsLag, IsSmall, IsReflection};

use arrayvec::ArrayVec;

/// The coefficients of an order, over 2^20, and the energy that they leave.
#[derive(Drop)]
pub struct Level {
    pub coefficients: ArrayVec<i64, 8>,
    pub error: i64,
}

/// The sum of each coefficient times its lag, the first times the last one before the next.
fn predicted(coefficients: &[i64], lags: &[i64; 9]) -> i128
    requires few { length coefficients.now ≤ 7 }
    requires small { All IsSmall coefficients.now }
    requires lags { All IsLag lags.now }
    ensures sum { result ≡ dot coefficients.now (lags_down lags.now (length coefficients.now)) }
    ensures low { neg_ℤ (pos (2 ^ 89)) ≤ℤ result }
    ensures high { result ≤ℤ pos (2 ^ 89) }
{
    let mut sum: i128 = 0;
    for j in 0..coefficients.len() {
        sum += i128::from(coefficients[j]) * i128::from(lags[coefficients.len() - j]);
    }
    sum
}

/// What coefficients leave of the next lag, times 2^20.
fn remainder(coefficients: &[i64], lags: &[i64; 9]) -> i128
    requires few { length coefficients.now ≤ 7 }
    requires small { All IsSmall coefficients.now }
    requires lags { All IsLag lags.now }
    ensures value { result ≡ remainder lags.now coefficients.now }
    ensures low { neg_ℤ (pos (2 ^ 90)) ≤ℤ result }
    ensures high { result ≤ℤ pos (2 ^ 90) }
{
    i128::from(lags[coefficients.len() + 1]) * 1048576 - predicted(coefficients, lags)
}

/// The remainder over a positive error, rounded down and brought into -(2^20 - 1) to 2^20 - 1.
fn reflection_of(remainder: i128, error: i64) -> i64
    requires low { neg_ℤ (pos (2 ^ 90)) ≤ℤ remainder }
    requires high { remainder ≤ℤ pos (2 ^ 90) }
    requires error { pos 0 <ℤ error }
    requires lag { IsLag error }
    ensures value { result ≡ limited (floor_over (unsigned_abs error) remainder) }
    ensures small { IsReflection result }
{
    let greatest = i128::from(error) * 1048575;
    if remainder >= greatest {
        return 1048575;
    }
    if remainder <= -greatest {
        return -1048575;
    }
    let raised = (remainder + i128::from(error) * 1048576).cast_unsigned();
    ((raised / i128::from(error).cast_unsigned()) as i64) - 1048576
}

/// A coefficient less a reflection times the one at the other end, over 2^20.
fn less(k: i64, own: i64, opposite: i64) -> i64
    requires reflection { IsReflection k }
    requires own { IsSmall own }
    requires opposite { IsSmall opposite }
    ensures { result ≡ own -ℤ floor_by 20 (k *ℤ opposite) }
{
    own - ((k * opposite) >> 20)
}

/// The coefficients of one order more, all from those of the order before.
fn extended(k: i64, old: &[i64]) -> ArrayVec<i64, 8>
    requires few { length old.now ≤ 7 }
    requires reflection { IsReflection k }
    requires small { All IsSmall old.now }
    ensures { result.items ≡ extended k old.now }
{
    let mut new: ArrayVec<i64, 8> = ArrayVec::new();
    for j in 0..old.len() {
        let opposite = old[old.len() - 1 - j];
        new.push(less(k, old[j], opposite));
    }
    new.push(k);
    new
}

/// The part of an error, over 2^40, that a reflection leaves.
fn factor(k: i64) -> i64
    requires { IsReflection k }
    ensures value { result ≡ pos (2 ^ 40) -ℤ k *ℤ k }
    ensures low { pos 0 ≤ℤ result }
    ensures high { result ≤ℤ pos (2 ^ 40) }
{
    1099511627776 - k * k
}

/// What a reflection leaves of an error.
fn error_after(error: i64, k: i64) -> i64
    requires error { pos 0 <ℤ error }
    requires lag { IsLag error }
    requires reflection { IsReflection k }
    ensures value { result ≡ error_after error k }
    ensures lag { IsLag result }
{
    ((i128::from(error) * i128::from(factor(k))) >> 40) as i64
}

impl Level {
    ghost use Rattle.std.specs.Prelude.{◌≡◌, ◌<◌, All, length, pos, ◌<ℤ◌};
    ghost use Rattle.mlp_levinson.specs.Computed.{level, next, IsLag, IsSmall};

    /// Order 0.
    pub fn first(lags: &[i64; 9]) -> Level
        ensures { result ≡ level lags.now 0 }
    {
        Level {
            coefficients: ArrayVec::new(),
            error: lags[0],
        }
    }

    /// One order more.
    #[inline(always)]
    pub fn advance(&mut self, lags: &[i64; 9])
        requires few { length self.old.coefficients.items < 8 }
        requires small { All IsSmall self.old.coefficients.items }
        requires error { pos 0 <ℤ self.old.error }
        requires lag { IsLag self.old.error }
        requires lags { All IsLag lags.now }
        ensures { self.new ≡ next lags.now self.old }
    {
        let old = self.coefficients.as_slice();
        let k = reflection_of(remainder(old, lags), self.error);
        self.coefficients = extended(k, old);
        self.error = error_after(self.error, k);
    }
}
