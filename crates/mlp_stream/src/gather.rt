//! Output that is gathered until there is enough for a write.
ghost use Rattle.std.specs.Prelude.{◌≡◌, ◌+◌, ◌≤◌, ◌++◌, [], length, take, IfErr, OnOk, IsTrue, IsFalse};
ghost use Rattle.std.specs.Io.KnownBytes.{Appends};
ghost use Rattle.mlp_io.specs.Causes.{HasCause};
ghost use Rattle.mlp_stream.specs.Sides.{side};
ghost use Rattle.mlp_stream.specs.Gathers.{Gathers, IsWriteStop};

use crate::stop::Stop;
use mlp_io::{Sink, put_all};
use mlp_syntax::UnitBytes;
use std::marker::Model;

/// The most bytes that are gathered.
const ROOM: usize = 16_380;

/// Bytes that came out and aren't written yet.
#[derive(Drop)]
pub struct Gathered {
    room: [u8; ROOM],
    count: usize,
}

impl Model for Gathered {
    ghost use Rattle.std.specs.Prelude.{ℕ, List, take, ◌≤◌};

    ghost Value = { List ℕ };

    ghost view = { λ g. take g.count g.room };

    ghost invariant = { λ g. g.count ≤ 16380 };
}

impl Gathered {
    /// No bytes.
    pub fn new() -> Gathered
        ensures { result ≡ [] }
    {
        Gathered {
            room: [0; ROOM],
            count: 0,
        }
    }

    fn as_slice(&self) -> &[u8]
        ensures { result.now ≡ self.now }
    {
        &self.room[..self.count]
    }

    fn clear(&mut self)
        ensures { self.new ≡ [] }
    {
        self.count = 0;
    }

    /// Puts bytes behind the others where there is room for them, and says whether there was.
    fn take_in(&mut self, bytes: &[u8]) -> bool
        ensures taken { IsTrue result → self.new ≡ self.old ++ bytes.now }
        ensures stays { IsFalse result → self.new ≡ self.old }
        ensures room { length self.old + length bytes.now ≤ 16380 → IsTrue result }
    {
        if bytes.len() > ROOM - self.count {
            return false;
        }
        let end = self.count + bytes.len();
        self.room[self.count..end].copy_from_slice(bytes);
        self.count = end;
        true
    }
}

/// Writes all of the bytes.
pub fn put<K: Sink>(output: &mut K, bytes: &[u8]) -> Result<(), Stop>
    ensures ok { OnOk result (Appends (K.written output.old) (K.written output.new) bytes.now) }
    ensures err { let written = side K.written output.old output.new in
        IfErr result (λ stop. IsWriteStop written bytes.now stop) }
    ensures cause { HasCause (K.faults output.old) (K.faults output.new) result }
{
    match put_all(output, bytes) {
        Ok(()) => Ok(()),
        Err(_) => Err(Stop::WriteFault),
    }
}

/// Writes what was gathered.
pub fn flush<K: Sink>(gathered: &mut Gathered, output: &mut K) -> Result<(), Stop>
    ensures ok { OnOk result (Appends (K.written output.old) (K.written output.new) gathered.old) }
    ensures none { OnOk result (gathered.new ≡ []) }
    ensures err { let written = side K.written output.old output.new in
        IfErr result (λ stop. IsWriteStop written gathered.old stop) }
    ensures cause { HasCause (K.faults output.old) (K.faults output.new) result }
{
    put(output, gathered.as_slice())?;
    gathered.clear();
    Ok(())
}

/// Gathers more bytes, and writes first what was gathered before where there is no room for them.
pub fn gather<K: Sink>(gathered: &mut Gathered, out: &UnitBytes, output: &mut K) -> Result<(), Stop>
    ensures ok { let written = side K.written output.old output.new in
        OnOk result (Gathers written gathered.old out.now.items gathered.new) }
    ensures err { let written = side K.written output.old output.new in
        IfErr result (λ stop. IsWriteStop written gathered.old stop) }
    ensures cause { HasCause (K.faults output.old) (K.faults output.new) result }
{
    if gathered.take_in(out.as_slice()) {
        return Ok(());
    }
    flush(gathered, output)?;
    let _taken = gathered.take_in(out.as_slice());
    Ok(())
}
