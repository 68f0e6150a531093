//! A host that keeps for each port and each circuit the call on it, and which calls are held on neither.
ghost use Rattle.std.specs.Prelude.{◌≡◌, length, map};
ghost use Rattle.host.specs.Meaning.{call_count};
ghost use Rattle.host_by_place.specs.AllPlaces.{Apart};

use crate::all_places::AllPlaces;
use host::{CALLS, Order};

mod methods;

// A call: whether it is held on no port and no circuit, and its last order.
#[derive(Clone, Copy)]
struct Call {
    held: bool,
    order: Option<Order>,
}

// A call that is not held and has no order.
const IDLE: Call = Call {
    held: false,
    order: None,
};

/// A host that keeps the call on each port and on each circuit, and for each call whether it is held on neither, and its
/// last order. No call is at two places.
#[derive(Drop)]
pub struct PlaceTable {
    places: AllPlaces,
    calls: [Call; CALLS],
    ghost whole: { length calls ≡ call_count },
    ghost apart: { Apart places (map (λ c. c.held) calls) },
}
