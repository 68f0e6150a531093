//! Where a call is, and how it comes and leaves.
ghost use Rattle.std.specs.Prelude.{◌≡◌, ◌<◌, min};
ghost use Rattle.host.specs.Meaning.{call_count, most_places};
ghost use Rattle.host_by_place.specs.AllPlaces.{AllFree, Leaves, Takes, has_free_on, place_of};

use super::AllPlaces;
use crate::places::Places;
use host::Place;

impl AllPlaces {
    /// So many ports and circuits, each 64 where more are named, and all free.
    pub(crate) fn new(ports: u8, circuits: u8) -> Self
        ensures free { AllFree result }
        ensures ports { result.ports.total ≡ min ports most_places }
        ensures circuits { result.circuits.total ≡ min circuits most_places }
    {
        AllPlaces {
            ports: Places::new(ports),
            circuits: Places::new(circuits),
        }
    }

    /// The place that the call is on, if it is on one.
    pub(crate) fn place_of(&self, call: u8) -> Option<Place>
        ensures { result ≡ place_of self.now call }
    {
        if self.ports.has(call) {
            Some(Place::Port)
        } else if self.circuits.has(call) {
            Some(Place::Circuit)
        } else {
            None
        }
    }

    /// The call leaves its place, if it is on one.
    pub(crate) fn give_back(&mut self, call: u8)
        ensures { Leaves self.old self.new call }
    {
        self.ports.give_back(call);
        self.circuits.give_back(call);
    }

    /// The call takes such a place; false where none is free.
    pub(crate) fn take(&mut self, call: u8, place: Place) -> bool
        requires { call < call_count }
        ensures said { result ≡ has_free_on self.old place }
        ensures after { Takes self.old self.new call place }
    {
        match place {
            Place::Port => self.ports.take(call),
            Place::Circuit => self.circuits.take(call),
        }
    }
}
