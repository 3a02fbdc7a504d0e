//! The choice of filters and codes for a block of a channel: of the candidates, in their order, the first that takes the
//! fewest bits.
#![tactic(auto)]

mod choice;
mod costs;
mod folds;
mod giving;
pub mod laws;
mod line;
mod pair;
mod recursive;
mod reduction;
mod search;
mod sides;
mod sums;
mod survey;
mod tally;
mod trial;
mod weighing;

pub use choice::Choice;
pub use costs::cost;
pub use pair::Pair;
pub use reduction::reduced;
pub use search::choose;
