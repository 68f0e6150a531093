//! Tests of the frame crate at its edges, in a crate of their own so that the frame crate is proved once.
#![tactic(auto)]

#[cfg(test)]
mod example;
#[cfg(test)]
mod reading;
#[cfg(test)]
mod writing;
