//! A row undone.

ghost use Rattle.std.specs.Prelude.{◌≡◌, ◌<◌, ◌≤◌, ◌^◌, pos, neg_ℤ, ◌≤ℤ◌, ◌-ℤ◌, not};
ghost use Rattle.mlp_arith.specs.Words.{floor_by, clear, wrap};
ghost use Rattle.mlp_matrix.specs.Matrix.{weights, weighted, bypassed, is_even, row_undone, bit_undone, IsRow, IsLift};

use crate::row::weights;
use mlp_arith::{clear, floor_by, wrap};
use mlp_predict::dot;
use mlp_syntax::MatrixRow;

/// Whether the lowest bit is set.
fn is_odd(value: i32) -> bool
    ensures { result ≡ not (is_even value) }
{
    value.cast_unsigned() & 1 == 1
}

/// Whether the value has a bit that the row adds after the step: its lowest one,
/// where the row has bypass and the step is 1.
fn bypassed(bypass: bool, step: u8, value: i32) -> bool
    ensures { result ≡ bypassed bypass step value }
{
    if !bypass {
        return false;
    }
    if step != 1 {
        return false;
    }
    is_odd(value)
}

/// The value from which a row with this sum of the other sources makes `value`.
fn lifted(sum: i64, step: u8, value: i32) -> i32
    requires low { neg_ℤ (pos (2 ^ 50)) ≤ℤ sum }
    requires high { sum ≤ℤ pos (2 ^ 50) }
    requires step { step < 16 }
    ensures { result ≡ wrap (clear step value -ℤ clear step (floor_by 14 sum)) }
{
    wrap(clear(step, i64::from(value)) - clear(step, floor_by(14, sum)))
}

/// Puts at the row's destination, whose scaled weight there is 2^14, the value from which the row makes the old one,
/// and answers the bit that the row adds there. The old value has no low `step` bits, but for a bypassed bit.
pub fn undo_lift(row: &MatrixRow, step: u8, frame: &mut [i32; 10]) -> bool
    requires row { IsRow 8 row.now }
    requires lift { IsLift row.now step frame.old }
    requires step { step < 16 }
    ensures bit { result ≡ bit_undone row.now step frame.old }
    ensures value { frame.new ≡ row_undone row.now step frame.old }

    // The row with the answered bit gives back the old frame.
    ensures back { weighted (weights row.now) row.now.dest step result frame.new ≡ frame.old }
{
    let dest = usize::from(row.dest);
    let weights: [i32; 10] = weights(row.coeffs.as_slice(), row.frac);
    let value = frame[dest];
    frame[dest] = 0;
    frame[dest] = lifted(dot(&weights, frame), step, value);
    bypassed(row.bypass, step, value)
}
