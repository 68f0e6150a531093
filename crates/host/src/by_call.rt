//! A host that keeps a mode and a last order for each call.
ghost use Rattle.std.specs.Prelude.{◌≡◌, ◌≤◌, length};
ghost use Rattle.host.specs.Meaning.{call_count, most_places};

use crate::{CALLS, Mode, Order};

mod methods;

// A call: its mode and its last order.
#[derive(Clone, Copy)]
struct Call {
    mode: Mode,
    order: Option<Order>,
}

// A call that is not held and has no order.
const IDLE: Call = Call {
    mode: Mode::NotHeld,
    order: None,
};

// An array, since `new` cannot fail: a host lives in its caller's memory and asks for none.
/// A host that keeps the mode and the last order of each call.
#[derive(Drop)]
pub struct CallTable {
    calls: [Call; CALLS],
    ports: u8,
    circuits: u8,
    ghost whole: { length calls ≡ call_count },
    ghost few: { (ports ≤ most_places) × (circuits ≤ most_places) },
}
