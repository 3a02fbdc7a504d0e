//! A source over a reader of std, and a sink over a writer of std.
ghost use Rattle.std.specs.Prelude.{◌≡◌, ◌≤◌, ◌<◌, length, IfOk, OnErr, MatchResult};
ghost use Rattle.std.specs.Io.KnownBytes.{ReadConsumes, WriteAppends};
ghost use Rattle.mlp_io.specs.Causes.{HasCause, capped, next_count, capped_counted};
ghost use Rattle.mlp_io.specs.Standard.{StdLeft, StdTaken};

use crate::sink::Sink;
use crate::source::{Failed, Source};
use std::io::{Read, Write};
use std::marker::Model;

/// The most bytes of one read.
const PIECE: usize = 16_384;

/// A reader of std, which tells what the reader tells, with a count of its errors.
#[derive(Drop)]
pub struct StdSource<R: Read> {
    inner: R,
    faults: u64,
    piece: [u8; PIECE],
}

impl<R: Read> Model for StdSource<R> {
    ghost Value = { StdLeft };

    ghost view = { λ s. record { bytes_left = R.remaining s.inner; failed = s.faults } };
}

impl<R: Read> StdSource<R> {
    /// A source over this reader, without a fault so far.
    pub fn new(inner: R) -> StdSource<R>
        ensures { result ≡ record { bytes_left = R.remaining inner; failed = 0 } }
    {
        StdSource {
            inner,
            faults: 0,
            piece: [0; PIECE],
        }
    }
}

impl<R: Read> Source for StdSource<R> {
    ghost left = { λ s. s.bytes_left };

    ghost faults = { λ s. capped s.failed };

    ghost counted = { λ s. capped_counted s.failed };

    /// Reads through a buffer of its own, since what stands in a buffer after an error of the reader isn't told.
    ///
    /// Clauses can't count the calls of the reader. Tests alone show that its end is `Ok(0)` and no fault, and that it
    /// isn't asked again behind its error.
    ///
    /// # Errors
    ///
    /// [`Failed`] at an error of the reader.
    fn read(&mut self, buf: &mut [u8]) -> Result<usize, Failed>
        ensures bound { IfOk result (λ n. n ≤ length buf.new) }
        ensures bytes { ReadConsumes self.old.bytes_left self.new.bytes_left result buf.new }
        ensures kept { OnErr result (buf.new ≡ buf.old) }
        ensures cause { HasCause (capped self.old.failed) (capped self.new.failed) result }
        ensures count { MatchResult result (λ _. self.new.failed ≡ self.old.failed)
            (λ _. self.new.failed ≡ next_count self.old.failed) }
    {
        let count = buf.len().min(PIECE);
        let piece = &mut self.piece[..];
        match self.inner.read(&mut piece[..count]) {
            Ok(taken) => {
                buf[..taken].copy_from_slice(&piece[..taken]);
                Ok(taken)
            }
            Err(_) => {
                self.faults = self.faults.saturating_add(1);
                Err(Failed)
            }
        }
    }
}

/// A writer of std, which tells what the writer tells,
/// with a count of its errors and of its refusals of all of a piece.
#[derive(Drop)]
pub struct StdSink<W: Write> {
    inner: W,
    faults: u64,
}

impl<W: Write> Model for StdSink<W> {
    ghost Value = { StdTaken };

    ghost view = { λ s. record { bytes_taken = W.contents s.inner; failed = s.faults } };
}

impl<W: Write> StdSink<W> {
    /// A sink over this writer, without a fault so far.
    pub fn new(inner: W) -> StdSink<W>
        ensures { result ≡ record { bytes_taken = W.contents inner; failed = 0 } }
    {
        StdSink { inner, faults: 0 }
    }
}

impl<W: Write> Sink for StdSink<W> {
    ghost written = { λ s. s.bytes_taken };

    ghost faults = { λ s. capped s.failed };

    ghost counted = { λ s. capped_counted s.failed };

    /// Writes what the writer takes at once.
    ///
    /// Clauses can't count the calls of the writer. Tests alone show that an empty piece is no fault, and that the
    /// writer isn't asked again behind its error.
    ///
    /// # Errors
    ///
    /// [`Failed`] at an error of the writer, and where it takes nothing of a piece that isn't empty.
    fn write(&mut self, piece: &[u8]) -> Result<usize, Failed>
        ensures bound { IfOk result (λ n. n ≤ length piece.now) }
        ensures progress { IfOk result (λ n. 0 < length piece.now → 0 < n) }
        ensures bytes { WriteAppends self.old.bytes_taken self.new.bytes_taken result piece.now }
        ensures cause { HasCause (capped self.old.failed) (capped self.new.failed) result }
        ensures count { MatchResult result (λ _. self.new.failed ≡ self.old.failed)
            (λ _. self.new.failed ≡ next_count self.old.failed) }
    {
        match self.inner.write(piece) {
            Ok(0) if !piece.is_empty() => {
                self.faults = self.faults.saturating_add(1);
                Err(Failed)
            }
            Ok(count) => Ok(count),
            Err(_) => {
                self.faults = self.faults.saturating_add(1);
                Err(Failed)
            }
        }
    }
}
