//! A source and a sink in memory that share a count of the calls of either after the first call of either that failed.
ghost use Rattle.std.specs.Prelude.{Some};
ghost use Rattle.mlp_io.specs.Causes.{capped, capped_counted};

use mlp_io::{Failed, MemSink, MemSource, Sink, Source};
use std::cell::Cell;
use std::test::Fail;

/// What is seen of the calls of a source and a sink.
#[derive(Drop)]
pub struct Watch {
    failed: Cell<bool>,
    late: Cell<u64>,
}

impl Watch {
    pub fn new() -> Watch {
        Watch {
            failed: Cell::new(false),
            late: Cell::new(0),
        }
    }

    /// The calls after the first that failed.
    pub fn late(&self) -> u64 {
        self.late.get()
    }

    /// A call begins.
    fn begin(&self) {
        if self.failed.get() {
            self.late.set(self.late.get().saturating_add(1));
        }
    }

    /// A call ends, and has failed or not.
    fn end(&self, failed: bool) {
        if failed {
            self.failed.set(true);
        }
    }
}

/// A source that is watched.
#[derive(Drop)]
pub struct WatchedSource<'a> {
    pub inner: MemSource,
    pub watch: &'a Watch,
}

impl<'a> Source for WatchedSource<'a> {
    ghost left = { λ s. Some s.inner.bytes_left };

    ghost faults = { λ s. capped s.inner.failed };

    ghost counted = { λ s. capped_counted s.inner.failed };

    fn read(&mut self, buf: &mut [u8]) -> Result<usize, Failed> {
        self.watch.begin();
        let result = self.inner.read(buf);
        self.watch.end(result.is_err());
        result
    }
}

/// A sink that is watched.
#[derive(Drop)]
pub struct WatchedSink<'a> {
    pub inner: MemSink,
    pub watch: &'a Watch,
}

impl<'a> Sink for WatchedSink<'a> {
    ghost written = { λ s. Some s.inner.bytes_taken };

    ghost faults = { λ s. capped s.inner.failed };

    ghost counted = { λ s. capped_counted s.inner.failed };

    fn write(&mut self, piece: &[u8]) -> Result<usize, Failed> {
        self.watch.begin();
        let result = self.inner.write(piece);
        self.watch.end(result.is_err());
        result
    }
}

#[test]
fn counts_calls_of_the_one_after_a_failure_of_the_other(rt: HostRuntime) -> Result<(), Fail> {
    let alloc = rt.alloc();
    let watch = Watch::new();
    let mut source = WatchedSource {
        inner: MemSource::new(vec![in alloc; 1; 5]?, 1, vec![in alloc; 1]?),
        watch: &watch,
    };
    let mut sink = WatchedSink {
        inner: MemSink::new(vec![in alloc; 0; 5]?, 1, Vec::new(alloc)),
        watch: &watch,
    };
    let mut buf = [0; 1];
    assert_eq!(rt; source.read(&mut buf), Ok(1));
    assert_eq!(rt; sink.write(&buf), Ok(1));
    assert_eq!(rt; source.read(&mut buf), Err(Failed));
    assert_eq!(rt; watch.late(), 0);
    assert_eq!(rt; sink.write(&buf), Ok(1));
    assert_eq!(rt; source.read(&mut buf), Ok(1));
    assert_eq!(rt; watch.late(), 2);
    Ok(())
}
