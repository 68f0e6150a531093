//! Taking a place and giving it back.
ghost use Rattle.std.specs.Prelude.{◌≡◌, ◌<◌, min, map, replicate, None as Free};
ghost use Rattle.host.specs.Meaning.{call_count, most_places};
ghost use Rattle.host_by_place.specs.Places.{free_place, has_free, is_on, taking, without};

use super::Places;
use host::MOST_PLACES;

// The place, which the call has left if it was on it.
fn vacated(place: Option<u8>, call: u8) -> Option<u8>
    ensures { result ≡ without call place }
{
    if place == Some(call) { None } else { place }
}

// The call leaves each place that it is on. In place, and not by the array's `map`, which takes four times as long.
fn vacate_all(places: &mut [Option<u8>], call: u8)
    ensures { places.new ≡ map (without call) places.old }
{
    for place in places.iter_mut() {
        *place = vacated(*place, call);
    }
}

impl Places {
    /// So many free places, 64 where more are named.
    #[tactic(auto, using(crate::proofs::Seats::kept_new))]
    pub(crate) fn new(total: u8) -> Self
        ensures calls { result.calls ≡ replicate most_places Free }
        ensures total { result.total ≡ min total most_places }
    {
        Places {
            calls: [None; MOST_PLACES as usize],
            total: total.min(MOST_PLACES),
        }
    }

    /// Whether the call is on one of the places.
    pub(crate) fn has(&self, call: u8) -> bool
        ensures { result ≡ is_on call self.now.calls }
    {
        self.calls.contains(&Some(call))
    }

    /// The call leaves its place, if it is on one.
    pub(crate) fn give_back(&mut self, call: u8)
        ensures calls { self.new.calls ≡ map (without call) self.old.calls }
        ensures total { self.new.total ≡ self.old.total }
    {
        vacate_all(&mut self.calls, call);
    }

    // The first free place, if there is one.
    fn free_place(&self) -> Option<usize>
        ensures { result ≡ free_place self.now.total self.now.calls }
    {
        self.calls
            .iter()
            .take(usize::from(self.total))
            .position(|place| place.is_none())
    }

    /// The call takes the first free place; false where there is none.
    #[tactic(auto, using(crate::proofs::Seats::any_position))]
    pub(crate) fn take(&mut self, call: u8) -> bool
        requires { call < call_count }
        ensures said { result ≡ has_free self.old.total self.old.calls }
        ensures calls { self.new.calls ≡ taking call self.old.total self.old.calls }
        ensures total { self.new.total ≡ self.old.total }
    {
        let Some(place) = self.free_place() else {
            return false;
        };
        self.calls[place] = Some(call);
        true
    }
}
