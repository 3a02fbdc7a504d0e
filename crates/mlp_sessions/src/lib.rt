//! The sessions of the commands: what each makes of a stream's units, one at a time.
#![tactic(auto)]

mod decode;
mod list;
mod list_line;
mod text;

pub use decode::Decode;
pub use list::List;
pub use list_line::unit_line;
pub use text::{put_number, put_text};
