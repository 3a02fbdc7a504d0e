//! One streaming loop for every command: a session takes the input one unit at a time, through a window on the stack.
#![tactic(auto)]

mod gather;
mod growing;
mod refusal;
mod session;
mod slice;
mod stop;
mod turns;
mod window;

pub use gather::put;
pub use growing::GrowingSink;
pub use refusal::Refusal;
pub use session::Session;
pub use slice::SliceSource;
pub use stop::Stop;
pub use turns::pump;
