//! Runs over memory.

use crate::expected::Run;
use mlp_stream::{GrowingSink, SliceSource};
use mlp_tool::run;
use std::alloc::{AllocError, Global};

/// The FNV-1a sum of 32 bits.
fn sum_of(bytes: &[u8]) -> u32 {
    let mut sum: u32 = 2_166_136_261;
    for byte in bytes {
        sum = (sum ^ u32::from(*byte)).wrapping_mul(16_777_619);
    }
    sum
}

/// Whether the bytes are this text and a line feed, or nothing where the text is empty.
fn is_line(bytes: &[u8], text: &str) -> bool {
    match bytes.split_last() {
        None => text.is_empty(),
        Some((last, front)) => *last == b'\n' && !text.is_empty() && front == text.as_bytes(),
    }
}

/// What came of a run.
#[derive(Drop)]
struct Answer {
    status: u8,
    output: GrowingSink,
    errors: GrowingSink,
}

/// Runs a command, whose words have a space between them.
fn answer_of(alloc: Global, command: &str, stream: &[u8]) -> Result<Answer, AllocError> {
    let mut words = Vec::new(alloc);
    for word in command.split(' ') {
        words.push(String::from_str(alloc, word)?)?;
    }
    let mut input = SliceSource::new(stream);
    let mut output = GrowingSink::new(alloc);
    let mut errors = GrowingSink::new(alloc);
    let status = run(alloc, &words, &mut input, &mut output, &mut errors);
    Ok(Answer {
        status,
        output,
        errors,
    })
}

/// Runs a command, or two with a bar between them: the second over what the first has written, where that did its work.
fn last_answer(alloc: Global, commands: &str, stream: &[u8]) -> Result<Answer, AllocError> {
    let Some((first, second)) = commands.split_once('|') else {
        return answer_of(alloc, commands, stream);
    };
    let answer = answer_of(alloc, first, stream)?;
    if answer.status != 0 {
        return Ok(answer);
    }
    answer_of(alloc, second, answer.output.bytes())
}

/// Whether the commands answer what is expected over the stream.
pub fn is_expected(alloc: Global, expected: &Run, stream: &[u8]) -> Result<bool, AllocError> {
    let answer = last_answer(alloc, expected.commands, stream)?;
    let output = answer.output.bytes();
    Ok(
        answer.status == expected.status
            && output.len() == expected.length
            && sum_of(output) == expected.sum
            && is_line(answer.errors.bytes(), expected.line),
    )
}
