//! Sources and sinks in memory, whose calls come in pieces and fail where they are told to.
ghost use Rattle.std.specs.Prelude.{◌≡◌, [], ◌≤◌, ◌<◌, ◌-◌, ◌⊎◌, Some, min, length, take, drop, IfOk, OnErr, ◌↔◌, IsErr, Contains};
ghost use Rattle.std.specs.Io.KnownBytes.{ReadConsumes, WriteAppends};
ghost use Rattle.mlp_io.specs.Causes.{HasCause, capped, capped_counted};
ghost use Rattle.mlp_io.specs.Memory.{MemLeft, MemTaken, after_giving, after_failed_read, after_taking, after_failed_write};

use crate::copies::{copy_at, copy_front};
use crate::sink::Sink;
use crate::source::{Failed, Source};
use std::marker::Model;

/// Bytes in memory, which come in pieces, and calls that fail.
#[derive(Drop)]
pub struct MemSource {
    bytes: Vec<u8>,
    at: usize,
    piece: usize,
    fail_at: Vec<u64>,
    calls: u64,
    faults: u64,
}

impl Model for MemSource {
    ghost Value = { MemLeft };

    ghost view = { λ s. record {
      bytes_left = drop s.at s.bytes.items;
      most = s.piece;
      failing = s.fail_at.items;
      call = s.calls;
      failed = s.faults;
    } };

    ghost invariant = { λ s. (s.at ≤ length s.bytes.items) × (0 < s.piece) };
}

impl MemSource {
    /// A source of these bytes. A call gives at most `piece` of them, and fails where its number,
    /// counted from 0, is in `fail_at`.
    pub fn new(bytes: Vec<u8>, piece: usize, fail_at: Vec<u64>) -> MemSource
        requires { 1 ≤ piece }
        ensures { result ≡ record {
          bytes_left = bytes.items;
          most = piece;
          failing = fail_at.items;
          call = 0;
          failed = 0;
        } }
    {
        MemSource {
            bytes,
            at: 0,
            piece,
            fail_at,
            calls: 0,
            faults: 0,
        }
    }
}

impl Source for MemSource {
    ghost left = { λ s. Some s.bytes_left };

    ghost faults = { λ s. capped s.failed };

    ghost counted = { λ s. capped_counted s.failed };

    /// # Errors
    ///
    /// [`Failed`] exactly at the calls that were told to fail.
    fn read(&mut self, buf: &mut [u8]) -> Result<usize, Failed>
        ensures bound { IfOk result (λ n. n ≤ length buf.new) }
        ensures bytes { ReadConsumes (Some self.old.bytes_left) (Some self.new.bytes_left) result buf.new }
        ensures kept { OnErr result (buf.new ≡ buf.old) }
        ensures cause { HasCause (capped self.old.failed) (capped self.new.failed) result }
        ensures fails { IsErr result ↔ Contains self.old.failing self.old.call }
        ensures piece { IfOk result
            (λ n. n ≡ min self.old.most (min (length self.old.bytes_left) (length buf.old))) }
        ensures gave { IfOk result (λ n. self.new ≡ after_giving n self.old) }
        ensures failed { OnErr result (self.new ≡ after_failed_read self.old) }
    {
        let call = self.calls;
        self.calls = call.saturating_add(1);
        if self.fail_at.contains(&call) {
            self.faults = self.faults.saturating_add(1);
            return Err(Failed);
        }
        let count = copy_front(&self.bytes[self.at..], self.piece, buf);
        self.at += count;
        Ok(count)
    }
}

/// Room in memory, which is filled in pieces, and calls that fail.
#[derive(Drop)]
pub struct MemSink {
    room: Vec<u8>,
    at: usize,
    piece: usize,
    fail_at: Vec<u64>,
    calls: u64,
    faults: u64,
}

impl Model for MemSink {
    ghost Value = { MemTaken };

    ghost view = { λ s. record {
      bytes_taken = take s.at s.room.items;
      space = length s.room.items - s.at;
      most = s.piece;
      failing = s.fail_at.items;
      call = s.calls;
      failed = s.faults;
    } };

    ghost invariant = { λ s. (s.at ≤ length s.room.items) × (0 < s.piece) };
}

impl MemSink {
    /// A sink with room for as many bytes as `room` is long, which it puts over the old ones. A call takes at most
    /// `piece` bytes, and fails where its number, counted from 0, is in `fail_at`,
    /// or where it has a byte and the room is full.
    pub fn new(room: Vec<u8>, piece: usize, fail_at: Vec<u64>) -> MemSink
        requires { 1 ≤ piece }
        ensures { result ≡ record {
          bytes_taken = [];
          space = length room.items;
          most = piece;
          failing = fail_at.items;
          call = 0;
          failed = 0;
        } }
    {
        MemSink {
            room,
            at: 0,
            piece,
            fail_at,
            calls: 0,
            faults: 0,
        }
    }

    /// What was written.
    pub fn bytes(&self) -> &[u8]
        ensures { result.now ≡ self.now.bytes_taken }
    {
        &self.room[..self.at]
    }
}

impl Sink for MemSink {
    ghost written = { λ s. Some s.bytes_taken };

    ghost faults = { λ s. capped s.failed };

    ghost counted = { λ s. capped_counted s.failed };

    /// # Errors
    ///
    /// [`Failed`] exactly at the calls that were told to fail, and where there is a byte and no room.
    fn write(&mut self, piece: &[u8]) -> Result<usize, Failed>
        ensures bound { IfOk result (λ n. n ≤ length piece.now) }
        ensures progress { IfOk result (λ n. 0 < length piece.now → 0 < n) }
        ensures bytes { WriteAppends (Some self.old.bytes_taken) (Some self.new.bytes_taken) result piece.now }
        ensures cause { HasCause (capped self.old.failed) (capped self.new.failed) result }
        ensures fails { IsErr result
            ↔ (Contains self.old.failing self.old.call ⊎ ((self.old.space ≡ 0) × (0 < length piece.now))) }
        ensures piece { IfOk result (λ n. n ≡ min self.old.most (min self.old.space (length piece.now))) }
        ensures took { IfOk result (λ n. self.new ≡ after_taking (take n piece.now) n self.old) }
        ensures failed { OnErr result (self.new ≡ after_failed_write self.old) }
    {
        let call = self.calls;
        self.calls = call.saturating_add(1);
        if self.fail_at.contains(&call) {
            self.faults = self.faults.saturating_add(1);
            return Err(Failed);
        }
        if self.at == self.room.len() && !piece.is_empty() {
            self.faults = self.faults.saturating_add(1);
            return Err(Failed);
        }
        let count = copy_at(&mut self.room, self.at, self.piece, piece);
        self.at += count;
        Ok(count)
    }
}
