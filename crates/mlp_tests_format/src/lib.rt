//! Tests of the layers from bits to parameters, and of the outer part of an access unit. There is nothing here but tests.
#![tactic(auto)]

#[cfg(test)]
mod bits;
#[cfg(test)]
mod books;
#[cfg(test)]
mod layout;
#[cfg(test)]
mod major;
#[cfg(test)]
mod params;
#[cfg(test)]
mod unit;
