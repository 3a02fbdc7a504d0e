//! Tests of frames and substream segments. There is nothing here but tests.
#![tactic(auto)]

#[cfg(test)]
mod residual;
#[cfg(test)]
mod substream;
#[cfg(test)]
mod vectors;
