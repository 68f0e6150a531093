//! Tests of both clocks at their edges, in a crate of their own so that the clock crate is proved once.
#![tactic(auto)]

#[cfg(test)]
mod both;
