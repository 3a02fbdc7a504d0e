//! A source over a slice.
ghost use Rattle.std.specs.Prelude.{◌≡◌, ◌≤◌, List, ℕ, Some, min, length, drop, IfOk, IsOk, OnErr};
ghost use Rattle.std.specs.Io.KnownBytes.{ReadConsumes};
ghost use Rattle.mlp_io.specs.Causes.{HasCause, zero_counted};

use mlp_io::{Failed, Source, copy_front};
use std::marker::Model;

/// Bytes that lie elsewhere, without a fault. To a contract it is the list of the bytes that are left.
#[derive(Drop)]
pub struct SliceSource<'a> {
    bytes: &'a [u8],
    at: usize,
}

impl<'a> Model for SliceSource<'a> {
    ghost use Rattle.std.specs.Prelude.{◌≤◌, List, ℕ, length, drop};

    ghost Value = { List ℕ };

    ghost view = { λ s. drop s.at s.bytes.now };

    ghost invariant = { λ s. s.at ≤ length s.bytes.now };
}

impl<'a> SliceSource<'a> {
    /// A source of these bytes.
    pub fn new(bytes: &'a [u8]) -> SliceSource<'a>
        ensures { result ≡ bytes.now }
    {
        SliceSource { bytes, at: 0 }
    }
}

impl<'a> Source for SliceSource<'a> {
    ghost left = { λ s. Some s };

    ghost faults = { λ _. 0 };

    ghost counted = { λ _. zero_counted };

    fn read(&mut self, buf: &mut [u8]) -> Result<usize, Failed>
        ensures bound { IfOk result (λ n. n ≤ length buf.new) }
        ensures bytes { ReadConsumes (Some self.old) (Some self.new) result buf.new }
        ensures kept { OnErr result (buf.new ≡ buf.old) }
        ensures cause { HasCause 0 0 result }
        ensures steady { IsOk result }
        ensures count { IfOk result (λ n. n ≡ min (length self.old) (length buf.old)) }
    {
        let count = copy_front(&self.bytes[self.at..], usize::MAX, buf);
        self.at += count;
        Ok(count)
    }
}
