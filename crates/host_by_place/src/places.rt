//! The ports of a host, or its circuits: for each the call on it.
ghost use Rattle.host_by_place.specs.Places.{Kept};

use host::MOST_PLACES;

mod methods;

// An array and not a list with a length: the total is a limit, each place keeps its number, and `new` cannot fail.
/// So many places, each free or with a call on it; those from the total on stay free.
#[derive(Drop)]
pub(crate) struct Places {
    pub(crate) calls: [Option<u8>; MOST_PLACES as usize],
    pub(crate) total: u8,
    ghost kept: { Kept total calls },
}
