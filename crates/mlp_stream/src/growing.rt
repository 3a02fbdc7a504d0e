//! A sink in memory that grows.
ghost use Rattle.std.specs.Prelude.{◌≡◌, [], ◌≤◌, ◌<◌, Some, length, IfOk, OnErr};
ghost use Rattle.std.specs.Io.KnownBytes.{WriteAppends};
ghost use Rattle.mlp_io.specs.Causes.{HasCause, capped, next_count, capped_counted};
ghost use Rattle.mlp_stream.specs.Growing.{Grown};

use mlp_io::{Failed, Sink};
use std::alloc::Global;
use std::marker::Model;

/// Keeps all that is written. A piece for which there is no memory is a fault.
#[derive(Drop)]
pub struct GrowingSink {
    bytes: Vec<u8>,
    faults: u64,
}

impl Model for GrowingSink {
    ghost Value = { Grown };

    ghost view = { λ s. record { kept = s.bytes.items; failed = s.faults } };
}

impl GrowingSink {
    /// A sink that keeps nothing yet.
    pub fn new(alloc: Global) -> GrowingSink
        ensures { result ≡ record { kept = []; failed = 0 } }
    {
        GrowingSink {
            bytes: Vec::new(alloc),
            faults: 0,
        }
    }

    /// What was written.
    pub fn bytes(&self) -> &[u8]
        ensures { result.now ≡ self.now.kept }
    {
        &self.bytes
    }
}

impl Sink for GrowingSink {
    ghost written = { λ s. Some s.kept };

    ghost faults = { λ s. capped s.failed };

    ghost counted = { λ s. capped_counted s.failed };

    fn write(&mut self, piece: &[u8]) -> Result<usize, Failed>
        ensures bound { IfOk result (λ n. n ≤ length piece.now) }
        ensures progress { IfOk result (λ n. 0 < length piece.now → 0 < n) }
        ensures bytes { WriteAppends (Some self.old.kept) (Some self.new.kept) result piece.now }
        ensures cause { HasCause (capped self.old.failed) (capped self.new.failed) result }
        ensures all { IfOk result (λ n. n ≡ length piece.now) }
        ensures failed { OnErr result (self.new ≡ record self.old { failed = next_count self.old.failed }) }
    {
        match self.bytes.extend_from_slice(piece) {
            Ok(()) => Ok(piece.len()),
            Err(_) => {
                self.faults = self.faults.saturating_add(1);
                Err(Failed)
            }
        }
    }
}
