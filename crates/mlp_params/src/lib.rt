//! Restart headers and decoding parameters, read and written, and the parameters in force.
#![tactic(auto)]

mod channels;
mod filters;
mod header;
mod in_force;
pub mod laws;
mod matrices;
mod parameters;
mod state;
mod write_channels;
mod write_filters;
mod write_header;
mod write_matrices;
mod write_parameters;

pub use header::read_restart;
pub use in_force::apply;
pub use parameters::{read_params, read_params_into};
pub use state::{ChannelState, State};
pub use write_header::write_restart;
pub use write_parameters::write_params;
