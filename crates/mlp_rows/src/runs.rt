//! Runs over memory.

use crate::watched::{Watch, WatchedSink, WatchedSource};
use mlp_io::{MemSink, MemSource};
use mlp_tool::run;
use std::alloc::{AllocError, Global};
use std::process::Abort;
use std::test::Fail;

/// How the input comes, how much the output takes, and which calls of either fail.
#[derive(Clone, Copy)]
pub struct Edge<'a> {
    pub piece: usize,
    pub room: usize,
    pub read_fails: &'a [u64],
    pub write_fails: &'a [u64],
}

/// All in one piece, with room for all, and without a fault.
pub const WHOLE: Edge<'static> = Edge {
    piece: 100_000,
    room: 100_000,
    read_fails: &[],
    write_fails: &[],
};

/// What came of a run.
#[derive(Drop)]
pub struct Seen {
    pub status: u8,
    pub output: Vec<u8>,
    pub line: Vec<u8>,
    /// The calls of the input or the output after the first call of either that failed.
    pub late: u64,
}

/// Runs the words, which stand with a space between them, over these bytes.
pub fn run_over(alloc: Global, words: &str, bytes: &[u8], edge: &Edge) -> Result<Seen, AllocError> {
    let mut list = Vec::new(alloc);
    for word in words.split(' ') {
        list.push(String::from_str(alloc, word)?)?;
    }
    let piece = edge.piece.max(1);
    let watch = Watch::new();
    let mut input = WatchedSource {
        inner: MemSource::new(bytes.to_vec(alloc)?, piece, edge.read_fails.to_vec(alloc)?),
        watch: &watch,
    };
    let room = vec![in alloc; 0; edge.room]?;
    let mut output = WatchedSink {
        inner: MemSink::new(room, piece, edge.write_fails.to_vec(alloc)?),
        watch: &watch,
    };
    let mut errors = MemSink::new(vec![in alloc; 0; 200]?, piece, Vec::new(alloc));
    let status = run(alloc, &list, &mut input, &mut output, &mut errors);
    Ok(Seen {
        status,
        output: output.inner.bytes().to_vec(alloc)?,
        line: errors.bytes().to_vec(alloc)?,
        late: watch.late(),
    })
}

/// What a run has to come to: its status, its output and its line.
pub type Want<'a> = (u8, &'a [u8], &'a str);

/// Runs the words over these bytes, and fails unless all that is wanted comes of it.
pub fn assert_run(
    rt: &impl Abort,
    alloc: Global,
    words: &str,
    bytes: &[u8],
    edge: &Edge,
    want: Want,
) -> Result<(), Fail> {
    let seen = run_over(alloc, words, bytes, edge)?;
    let (status, output, line) = want;
    assert_eq!(rt; seen.status, status, "of {words}, for {line}");
    assert_eq!(rt; seen.output.as_slice(), output, "of {words}, for {line}");
    assert_eq!(rt; seen.line.as_slice(), line.as_bytes(), "of {words}");
    assert_eq!(rt; seen.late, 0, "of {words}, for {line}");
    Ok(())
}
