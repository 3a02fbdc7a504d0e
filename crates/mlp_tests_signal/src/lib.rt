//! Tests of the kernels, the mixes, computed filters, choices, the schedule, bytes of samples, and sources and sinks. There is nothing here but tests.
#![tactic(auto)]

#[cfg(test)]
mod arith;
#[cfg(test)]
mod fifo;
#[cfg(test)]
mod fold;
#[cfg(test)]
mod io;
#[cfg(test)]
mod levinson;
#[cfg(test)]
mod matrix;
#[cfg(test)]
mod pcm;
#[cfg(test)]
mod predict;
#[cfg(test)]
mod search;
