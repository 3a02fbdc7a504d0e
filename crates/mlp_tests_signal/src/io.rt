//! Sources and sinks: pieces, failing calls, and the two adapters over readers and writers of std. No clause says that the end of a
//! reader and an empty write are no faults, nor that a reader or a writer isn't asked again behind its error.
use mlp_io::{
    Failed, FillFailed, LIMIT, MemSink, MemSource, PutFailed, Sink, Source, StdSink, StdSource,
    SteadySink, SteadySource, fill, put_all,
};
use std::io::{Error, ErrorKind, Read, Write};
use std::test::Fail;

#[test]
fn fills_and_puts_in_pieces_until_a_call_fails(rt: HostRuntime) -> Result<(), Fail> {
    let alloc = rt.alloc();
    let bytes = [1, 2, 3, 4, 5, 6, 7].to_vec(alloc)?;
    let mut source = MemSource::new(bytes, 2, vec![in alloc; 4]?);
    let mut buf = [0; 5];
    assert_eq!(rt; fill(&mut source, &mut buf), Ok(5));
    assert_eq!(rt; buf, [1, 2, 3, 4, 5]);
    assert_eq!(rt; source.read(&mut buf[..0]), Ok(0));
    assert_eq!(rt; fill(&mut source, &mut buf), Err(FillFailed { taken: 0 }));
    assert_eq!(rt; fill(&mut source, &mut buf), Ok(2));
    assert_eq!(rt; buf, [6, 7, 3, 4, 5]);
    let mut sink = MemSink::new(vec![in alloc; 9; 6]?, 2, vec![in alloc; 2]?);
    assert_eq!(rt; put_all(&mut sink, &[1, 2, 3]), Ok(()));
    assert_eq!(rt; put_all(&mut sink, &[4]), Err(PutFailed { written: 0 }));
    assert_eq!(rt;
        put_all(&mut sink, &[4, 5, 6, 7]),
        Err(PutFailed { written: 3 })
    );
    assert_eq!(rt; sink.write(&[]), Ok(0));
    assert_eq!(rt; sink.bytes(), [1, 2, 3, 4, 5, 6].as_slice());
    let mut steady = SteadySource::new([8, 9].to_vec(alloc)?);
    assert_eq!(rt; fill(&mut steady, &mut buf), Ok(2));
    assert_eq!(rt; buf, [8, 9, 3, 4, 5]);
    assert_eq!(rt; put_all(&mut SteadySink::new(), &buf), Ok(()));
    assert_eq!(rt; LIMIT, 1_099_511_627_776);
    Ok(())
}

/// Gives and takes one byte a call, the number of the call, and fails at its second call.
#[derive(Drop)]
struct Halting {
    calls: u8,
}

impl Halting {
    /// Counts a call, which the second fails.
    fn called(&mut self) -> std::io::Result<u8> {
        self.calls = self.calls.saturating_add(1);
        if self.calls == 2 {
            return Err(Error::from(ErrorKind::WouldBlock));
        }
        Ok(self.calls)
    }
}

impl Read for Halting {
    fn read(&mut self, buf: &mut [u8]) -> std::io::Result<usize> {
        let call = self.called()?;
        match buf.first_mut() {
            Some(byte) => {
                *byte = call;
                Ok(1)
            }
            None => Ok(0),
        }
    }
}

impl Write for Halting {
    fn write(&mut self, buf: &[u8]) -> std::io::Result<usize> {
        self.called()?;
        Ok(buf.len().min(1))
    }

    fn flush(&mut self) -> std::io::Result<()> {
        Ok(())
    }
}

#[test]
fn reads_from_a_reader_of_std(rt: HostRuntime) {
    let bytes: &[u8] = &[1, 2, 3, 4, 5];
    let mut source = StdSource::new(bytes);
    let mut buf = [0; 3];
    assert_eq!(rt; fill(&mut source, &mut buf), Ok(3));
    assert_eq!(rt; buf, [1, 2, 3]);
    assert_eq!(rt; fill(&mut source, &mut buf), Ok(2));
    assert_eq!(rt; buf, [4, 5, 3]);
    assert_eq!(rt; source.read(&mut buf), Ok(0));
    let mut halting = StdSource::new(Halting { calls: 0 });
    assert_eq!(rt; fill(&mut halting, &mut buf), Err(FillFailed { taken: 1 }));
    assert_eq!(rt; halting.read(&mut buf), Ok(1));
    assert_eq!(rt; buf, [3, 5, 3]);
}

#[test]
fn writes_to_a_writer_of_std(rt: HostRuntime) {
    let mut room = [0; 4];
    let mut sink = StdSink::new(room.as_mut_slice());
    assert_eq!(rt; put_all(&mut sink, &[1, 2, 3]), Ok(()));
    assert_eq!(rt; put_all(&mut sink, &[4, 5]), Err(PutFailed { written: 1 }));
    assert_eq!(rt; sink.write(&[6]), Err(Failed));
    assert_eq!(rt; sink.write(&[]), Ok(0));
    assert_eq!(rt; room, [1, 2, 3, 4]);
    let mut halting = StdSink::new(Halting { calls: 0 });
    assert_eq!(rt;
        put_all(&mut halting, &[1, 2, 3]),
        Err(PutFailed { written: 1 })
    );
    assert_eq!(rt; put_all(&mut halting, &[2, 3]), Ok(()));
}
