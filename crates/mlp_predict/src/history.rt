//! The latest values of a sequence.

ghost use Rattle.std.specs.Prelude.{◌≡◌, ◌<◌, ◌≤◌, ◌∷◌, ◌-◌, ◌++◌, take, drop, reverse, length, All, FitsSigned, pos, slice_get, slice_set, Some, replicate};
ghost use Rattle.std.specs.Int.{w32};
ghost use Rattle.mlp_predict.specs.Filters.{scaled};

use crate::filters::times;
use std::marker::Model;

/// The `N` latest values, `N` from 1 to 16. A contract sees the list of them, the latest first.
/// They lie side by side, and slide down as values come.
#[derive(Drop)]
pub struct History<const N: usize> {
    values: [i32; 64],
    at: usize,
}

impl<const N: usize> Model for History<N> {
    ghost use Rattle.std.specs.Prelude.{ℤ, List, take, drop, ◌+◌, ◌≤◌};

    ghost Value = { List ℤ };

    ghost view = { λ h. take N (drop h.at h.values) };

    ghost invariant = { λ h. h.at + N ≤ 64 };
}

impl<const N: usize> History<N> {
    /// Zeros.
    pub fn new() -> History<N>
        requires { N ≤ 16 }
        ensures { result ≡ replicate N (pos 0) }
    {
        History {
            values: [0; 64],
            at: 0,
        }
    }

    /// Puts a value in front, and drops the last.
    #[inline]
    pub fn push(&mut self, value: i32)
        requires any { 0 < N }
        requires few { N ≤ 16 }
        ensures { self.new ≡ value ∷ take (N - 1) self.old }
    {
        if self.at == 0 {
            self.values.copy_within(0..N - 1, 65 - N);
            self.at = 65 - N;
        }
        self.at -= 1;
        self.values[self.at] = value;
    }

    /// The value at place `i`, 0 being the latest.
    pub fn at(&self, i: usize) -> i32
        requires { i < N }
        ensures { slice_get self.now i ≡ Some result }
    {
        self.values[self.at + i]
    }

    /// Puts a value in the place of the one at `i`, 0 being the latest.
    pub fn replace(&mut self, i: usize, value: i32)
        requires { i < N }
        ensures { self.new ≡ slice_set self.old i value }
    {
        self.values[self.at + i] = value;
    }

    /// All values, the latest first.
    #[inline]
    pub fn as_slice(&self) -> &[i32]
        ensures value { result.now ≡ self.now }
        ensures count { length result.now ≡ N }
    {
        &self.values[self.at..self.at + N]
    }

    /// Puts values times 2^shift in the place of the latest ones.
    pub fn replace_latest(&mut self, values: &[i32], shift: u8)
        requires few { length values.now ≤ N }
        requires shift { shift < 16 }
        requires fit { All (FitsSigned w32) (scaled shift values.now) }
        ensures { self.new ≡ scaled shift values.now ++ drop (length values.now) self.old }
    {
        let _ = self.as_slice();
        for i in 0..values.len() {
            self.replace(i, times(values[i], shift));
        }
    }

    /// Puts the last values of a line, the oldest first, in the place of all values.
    pub fn replace_all(&mut self, line: &[i32])
        requires { N ≤ length line.now }
        ensures { self.new ≡ take N (reverse line.now) }
    {
        let _ = self.as_slice();
        for i in 0..N {
            self.replace(i, line[line.len() - 1 - i]);
        }
    }

    /// All values become zeros.
    pub fn clear(&mut self)
        requires { N ≤ 16 }
        ensures { self.new ≡ replicate N (pos 0) }
    {
        self.replace_all(&[0; N]);
    }

    /// The same history once more.
    #[inline]
    pub fn copied(&self) -> History<N>
        ensures { result ≡ self.now }
    {
        History {
            values: self.values,
            at: self.at,
        }
    }
}
