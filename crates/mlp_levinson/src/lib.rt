//! Prediction filters that are computed from a block's own samples,
//! by the recursion of Levinson and Durbin in whole numbers.
#![tactic(auto)]

mod computed;
mod filters;
mod lags;
pub mod laws;
mod recursion;

pub use computed::{levinson, levinson_all};
