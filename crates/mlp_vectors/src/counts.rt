//! How many runs there are, and how many answer otherwise.

use crate::answer::is_expected;
use crate::expected::{Expected, parse};
use std::alloc::{AllocError, Global};
use std::fmt;

/// The counts of a table.
#[derive(Drop)]
pub struct Counts<'a> {
    runs: u64,
    differ: u64,
    /// The stream and the commands of the first run that differs.
    first: Option<(&'a str, &'a str)>,
}

impl<'a> Counts<'a> {
    fn add(&mut self, stream: &'a str, commands: &'a str, is_right: bool) {
        self.runs = self.runs.saturating_add(1);
        if !is_right {
            self.differ = self.differ.saturating_add(1);
            self.first = self.first.or(Some((stream, commands)));
        }
    }
}

impl fmt::Display for Counts<'_> {
    fn fmt<W: fmt::Write>(&self, f: &mut fmt::Formatter<W>) -> fmt::Result {
        write!(f, "{} runs, {} differ", self.runs, self.differ)?;
        match self.first {
            Some((stream, commands)) => write!(f, ", first {stream} {commands}"),
            None => Ok(()),
        }
    }
}

/// Does the runs of a table, whose streams stand one behind the other. A line that says nothing counts as a run that differs.
pub fn count_runs<'a>(
    alloc: Global,
    table: &'a str,
    streams: &[u8],
) -> Result<Counts<'a>, AllocError> {
    let mut counts = Counts {
        runs: 0,
        differ: 0,
        first: None,
    };
    let mut left = streams;
    let mut stream = streams;
    let mut name = "";
    for line in table.lines() {
        match parse(line) {
            Some(Expected::Stream { name: next, length }) => {
                name = next;
                let (front, behind) = left.split_at(length.min(left.len()));
                stream = front;
                left = behind;
            }
            Some(Expected::Run(run)) => {
                let is_right = is_expected(alloc, &run, stream)?;
                counts.add(name, run.commands, is_right);
            }
            None => counts.add(name, line, false),
        }
    }
    Ok(counts)
}
