//! Runs the commands over streams whose answers are known, and counts the runs that answer otherwise.
//!
//! The answers are those of an independent program. There are seven tables: streams that break each rule of the format,
//! streams that break several rules or are cut, good but unusual streams, damaged bytes, words of no plain form, worked streams,
//! and PCM to encode or to make.
//! `NAME.streams` has a table's streams one behind the other, `NAME.txt` its runs, and `rules.txt` the runs that meet each
//! rule.
#![tactic(auto)]

mod answer;
mod counts;
mod expected;

use crate::counts::count_runs;
use std::{fs, io};

fn main(rt: HostRuntime) -> io::Result<()> {
    for name in [
        "hostile", "order", "good", "recover", "usage", "rows", "encode",
    ] {
        let runs = fs::read_to_string(&rt, format!(in rt.alloc(); "{name}.txt")?.as_str())?;
        let streams = fs::read(&rt, format!(in rt.alloc(); "{name}.streams")?.as_str())?;
        let counts = count_runs(rt.alloc(), runs.as_str(), streams.as_slice())?;
        println!(rt; "{name}: {counts}")?;
    }
    Ok(())
}
