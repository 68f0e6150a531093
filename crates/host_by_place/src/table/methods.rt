//! The methods of the host by place.
ghost use Rattle.std.specs.Prelude.{◌≡◌, min, map};
ghost use Rattle.std.proofs.Common.{◌∙◌};
ghost use Rattle.std.proofs.lemmas.List.{length-map};
ghost use Rattle.host.specs.Meaning.{call_count, last_order, mode_of, most_places, vacant};
ghost use Rattle.host.specs.Modes.{same_mode};
ghost use Rattle.host.specs.declared.mode.Mode.TheVariants.{Held};
ghost use Rattle.host_by_place.specs.AllPlaces.{AllFree};
ghost use Rattle.host_by_place.specs.Places.{listing_length};
ghost use Rattle.host_by_place.specs.ByPlace.{by_place, mode_at, standing, with_entry};

use super::{Call, IDLE, PlaceTable};
use crate::all_places::AllPlaces;
use host::{CALLS, Host, Mode, Order, Place};
use terms::table::put;

impl PlaceTable {
    /// A host with so many ports and circuits, each 64 where more are named.
    pub fn new(ports: u8, circuits: u8) -> Self
        ensures { by_place result ≡ vacant (min ports most_places) (min circuits most_places) }
    {
        PlaceTable::over(AllPlaces::new(ports, circuits))
    }

    // A host over these places, all free.
    fn over(places: AllPlaces) -> Self
        requires { AllFree places }
        ensures { by_place result ≡ vacant places.ports.total places.circuits.total }
    {
        PlaceTable {
            places,
            calls: [IDLE; CALLS],
        }
    }

    /// The last order that was given for a call.
    pub fn last_order(&self, call: u8) -> Option<Order>
        ensures { result ≡ last_order (by_place self.now) call }
    {
        self.calls.get(usize::from(call))?.order
    }

    // Where the call stands.
    fn standing(&self, call: u8) -> Mode
        ensures { result ≡ standing self.now call }
    {
        let held = self
            .calls
            .get(usize::from(call))
            .is_some_and(|call| call.held);
        match self.places.place_of(call) {
            Some(place) => place.mode(),
            None if held => Mode::Held,
            None => Mode::NotHeld,
        }
    }

    // Whether the call is held on no port and no circuit.
    fn is_held(&self, call: u8) -> bool
        ensures { result ≡ same_mode (mode_of (by_place self.now) call) Held }
    {
        self.mode(call) == Mode::Held
    }

    // The call leaves its port or circuit, and is then held on neither, or not held, with this last order.
    fn set_aside(&mut self, call: u8, entry: Call)
        ensures { by_place self.new ≡ with_entry (by_place self.old) call (mode_at None entry.held) entry.order }
    {
        self.places.give_back(call);
        put(&mut self.calls, call, entry);
    }
}

impl Host for PlaceTable {
    ghost hosted = { by_place };

    ghost ranges = { λ host. (listing_length call_count (standing host), length-map host.calls (λ c. c.order) ∙ host.whole, host.places.ports.kept.few, host.places.circuits.kept.few) };

    fn clear(&mut self) {
        *self = PlaceTable::new(self.places.ports.total, self.places.circuits.total);
    }

    fn hold(&mut self, call: u8) {
        let order = self.last_order(call);
        self.set_aside(call, Call { held: true, order });
    }

    fn join(&mut self, call: u8, place: Place, order: Order) -> bool {
        if !self.is_held(call) {
            return false;
        }
        if !self.places.take(call, place) {
            return false;
        }
        let order = Some(order);
        put(&mut self.calls, call, Call { held: false, order });
        true
    }

    fn let_go(&mut self, call: u8, order: Order) {
        let order = Some(order);
        self.set_aside(call, Call { held: false, order });
    }

    #[tactic(auto, using(crate::proofs::Standing::listed))]
    fn mode(&self, call: u8) -> Mode {
        self.standing(call)
    }
}
