//! The program: the top call over the real words and streams.
#![tactic(auto)]

use mlp_io::{StdSink, StdSource};
use std::env;
use std::io::ErrorKind;
use std::process::ExitCode;

/// The status where the runtime hands out no list of arguments.
const NO_WORDS: u8 = 12;

/// The status where there is no memory for the words.
const NO_MEMORY: u8 = 7;

/// The arguments without the program's name, or the status where there are none.
fn words(rt: &HostRuntime) -> Result<Vec<String>, u8> {
    let args = match env::args(rt) {
        Ok(args) => args,
        Err(error) if error.kind() == ErrorKind::OutOfMemory => return Err(NO_MEMORY),
        Err(_) => return Err(NO_WORDS),
    };
    match args.skip(1).collect(rt.alloc()) {
        Ok(words) => Ok(words),
        Err(_) => Err(NO_MEMORY),
    }
}

fn main(rt: HostRuntime) -> ExitCode {
    let words = match words(&rt) {
        Ok(words) => words,
        Err(status) => return ExitCode::from(status),
    };
    let mut input = StdSource::new(rt.stdin());
    let mut output = StdSink::new(rt.stdout());
    let mut errors = StdSink::new(rt.stderr());
    let status = mlp_tool::run(rt.alloc(), &words, &mut input, &mut output, &mut errors);
    ExitCode::from(status)
}
