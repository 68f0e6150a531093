//! The methods of the host by call.
ghost use Rattle.std.specs.Prelude.{◌≡◌, map, min};
ghost use Rattle.std.proofs.Common.{◌∙◌};
ghost use Rattle.std.proofs.lemmas.List.{length-map};
ghost use Rattle.host.specs.Meaning.{can_join, in_mode, last_order, most_places, total_of, vacant, with_order};
ghost use Rattle.host.specs.ByCall.{by_call};

use super::{Call, CallTable, IDLE};
use crate::{CALLS, Host, MOST_PLACES, Mode, Order, Place};
use terms::table::put;

// How many of the calls are in this mode.
// A loop of its own: the library's `filter` and `count` take nearly four times as long.
fn count_in(calls: &[Call], mode: Mode) -> usize
    ensures { result ≡ in_mode mode (map (λ c. c.mode) calls.now) }
{
    let mut n = 0;
    for call in calls {
        if call.mode == mode {
            n += 1;
        }
    }
    n
}

impl CallTable {
    /// A host with so many ports and circuits, each 64 where more are named.
    pub fn new(ports: u8, circuits: u8) -> Self
        ensures { by_call result ≡ vacant (min ports most_places) (min circuits most_places) }
    {
        CallTable {
            calls: [IDLE; CALLS],
            ports: ports.min(MOST_PLACES),
            circuits: circuits.min(MOST_PLACES),
        }
    }

    /// The last order that was given for a call.
    pub fn last_order(&self, call: u8) -> Option<Order>
        ensures { result ≡ last_order (by_call self.now) call }
    {
        self.calls.get(usize::from(call))?.order
    }

    // The call takes this mode on this order.
    #[tactic(auto, using(crate::proofs::Fields::fields))]
    fn take_order(&mut self, call: u8, mode: Mode, order: Order)
        ensures { by_call self.new ≡ with_order (by_call self.old) call mode order }
    {
        let order = Some(order);
        put(&mut self.calls, call, Call { mode, order });
    }

    // How many calls are in this mode.
    fn in_mode(&self, mode: Mode) -> usize
        ensures { result ≡ in_mode mode (by_call self.now).modes }
    {
        count_in(&self.calls, mode)
    }

    // How many such places there are.
    fn total(&self, place: Place) -> usize
        ensures { result ≡ total_of (by_call self.now) place }
    {
        match place {
            Place::Port => usize::from(self.ports),
            Place::Circuit => usize::from(self.circuits),
        }
    }

    // Whether the call is held and such a place is free.
    fn can_join(&self, call: u8, place: Place) -> bool
        ensures { result ≡ can_join (by_call self.now) call place }
    {
        self.mode(call) == Mode::Held && self.in_mode(place.mode()) < self.total(place)
    }
}

impl Host for CallTable {
    ghost hosted = { by_call };

    ghost ranges = { λ host. (length-map host.calls (λ c. c.mode) ∙ host.whole, length-map host.calls (λ c. c.order) ∙ host.whole, host.few.0, host.few.1) };

    fn clear(&mut self) {
        self.calls = [IDLE; CALLS];
    }

    #[tactic(auto, using(crate::proofs::Fields::fields))]
    fn hold(&mut self, call: u8) {
        // By index and not by `get_mut`, after which a proof knows the table's length and none of its calls.
        let call = usize::from(call);
        if call < CALLS {
            self.calls[call].mode = Mode::Held;
        }
    }

    fn join(&mut self, call: u8, place: Place, order: Order) -> bool {
        let joins = self.can_join(call, place);
        if joins {
            self.take_order(call, place.mode(), order);
        }
        joins
    }

    fn let_go(&mut self, call: u8, order: Order) {
        self.take_order(call, Mode::NotHeld, order);
    }

    fn mode(&self, call: u8) -> Mode {
        self.calls
            .get(usize::from(call))
            .map_or(Mode::NotHeld, |call| call.mode)
    }
}
