//! All the places of a host: its ports and its circuits.
use crate::places::Places;

mod methods;

// Two fields and no list by kind of place, so that each has its name.
/// The ports of a host and its circuits.
#[derive(Drop)]
pub(crate) struct AllPlaces {
    pub(crate) ports: Places,
    pub(crate) circuits: Places,
}
