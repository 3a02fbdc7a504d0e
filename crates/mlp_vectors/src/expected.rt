//! The lines of a table.

/// A run and its answer.
#[derive(Drop)]
pub struct Run<'a> {
    /// A command, or two with a bar between them: the second is run over what the first has written.
    pub commands: &'a str,
    pub status: u8,
    /// The number of bytes of the output.
    pub length: usize,
    /// Their FNV-1a sum of 32 bits.
    pub sum: u32,
    /// The line, without its line feed, or nothing.
    pub line: &'a str,
}

/// What a line of a table says.
#[derive(Drop)]
pub enum Expected<'a> {
    /// The next stream has this name and so many bytes.
    Stream { name: &'a str, length: usize },
    /// A run over the latest stream.
    Run(Run<'a>),
}

/// Reads a line: its fields have tabs between them, as in `stream`, name, length and in `run`, status, length, sum, commands,
/// line.
pub fn parse(line: &str) -> Option<Expected<'_>> {
    let mut fields = line.split('\t');
    match fields.next()? {
        "stream" => Some(Expected::Stream {
            name: fields.next()?,
            length: fields.next()?.parse().ok()?,
        }),
        "run" => Some(Expected::Run(Run {
            status: fields.next()?.parse().ok()?,
            length: fields.next()?.parse().ok()?,
            sum: fields.next()?.parse().ok()?,
            commands: fields.next()?,
            line: fields.next()?,
        })),
        _ => None,
    }
}
