//! Worked streams and what the program answers to them. There is nothing here but tests.
#![tactic(auto)]

#[cfg(test)]
mod check;
#[cfg(test)]
mod cut;
#[cfg(test)]
mod damage;
#[cfg(test)]
mod decode_raw;
#[cfg(test)]
mod decode_wav;
#[cfg(test)]
mod encode;
#[cfg(test)]
mod extract;
#[cfg(test)]
mod faults;
#[cfg(test)]
mod generated;
#[cfg(test)]
mod list;
#[cfg(test)]
mod memory;
#[cfg(test)]
mod recover;
#[cfg(test)]
mod retime;
#[cfg(test)]
mod runs;
#[cfg(test)]
mod streams;
#[cfg(test)]
mod watched;
