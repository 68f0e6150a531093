//! A host that keeps for each port and each circuit the call on it.
#![tactic(auto)]

mod all_places;
mod places;
mod table;

pub use table::PlaceTable;
