//! When access units arrive: the earliest schedule of a player's buffer, and the check of a stream's timings.
#![tactic(auto)]

mod arrivals;
mod checker;
mod fifo;
mod laws;
mod pace;

pub use checker::Checker;
pub use fifo::Fifo;
pub use laws::{
    law_checked, law_duration, law_earliest, law_fitting, law_one_timing, law_placed, law_rates,
    law_shorter, law_single_rates,
};
pub use pace::{Pace, peak};
