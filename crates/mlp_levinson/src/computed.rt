//! The filters of a block of samples.

ghost use Rattle.std.specs.Prelude.{◌≡◌, ◌<◌, ◌≤◌, ◌+◌, ℕ, length, All, slice_get};
ghost use Rattle.mlp_arith.specs.Ranges.{Is26};
ghost use Rattle.mlp_levinson.specs.Computed.{computed};

use crate::filters::filter_of;
use crate::lags::lags;
use crate::recursion::Level;
use arrayvec::ArrayVec;
use mlp_syntax::Filter;

/// The filter of an order, 1 to 8, that is computed from at most 160 samples of 26 signed bits. There is none where the
/// error of a lower order isn't positive, as over samples of 0.
pub fn levinson(samples: &[i32], step: u8, order: u8) -> Option<Filter<8>>
    requires few { length samples.now ≤ 160 }
    requires samples { All Is26 samples.now }
    requires step { step < 32 }
    requires order { order ≤ 8 }
    ensures { result ≡ computed step samples.now order }
{
    let lags = lags(samples, step);
    let mut level = Level::first(&lags);
    for _ in 0..order {
        if level.error <= 0 {
            return None;
        }
        level.advance(&lags);
    }
    Some(filter_of(level.coefficients.as_slice()))
}

/// The filters of the orders 1, 2, .. up to 8, as far as there are any, in one pass.
pub fn levinson_all(samples: &[i32], step: u8, out: &mut ArrayVec<Filter<8>, 8>)
    requires few { length samples.now ≤ 160 }
    requires samples { All Is26 samples.now }
    requires step { step < 32 }
    ensures { (m : ℕ) → m < 8 → slice_get out.new.items m ≡ computed step samples.now (m + 1) }
{
    let lags = lags(samples, step);
    let mut level = Level::first(&lags);
    out.clear();
    for _ in 0..8usize {
        if level.error <= 0 {
            return;
        }
        level.advance(&lags);
        out.push(filter_of(level.coefficients.as_slice()));
    }
}
