//! The steps of the script.
ghost use Rattle.std.specs.Prelude.{◌≡◌};
ghost use Rattle.drill.specs.Steps.{place_time};

use host::Place;
use std::fmt;

/// One thing that is done to a host and a clock.
#[derive(Clone, Copy)]
pub(crate) enum Step {
    /// The call is held.
    Hold(u8),
    /// The held call is put on a port or a circuit.
    Join(u8, Place),
    /// The call is let go.
    LetGo(u8),
    /// A tick passes.
    Tick,
}

impl Step {
    /// The call that the step is for.
    pub(crate) fn call(self) -> Option<u8> {
        match self {
            Step::Hold(call) | Step::Join(call, _) | Step::LetGo(call) => Some(call),
            Step::Tick => None,
        }
    }
}

/// Says in words what is done.
impl fmt::Display for Step {
    fn fmt<W: fmt::Write>(&self, f: &mut fmt::Formatter<W>) -> fmt::Result {
        match self {
            Step::Hold(call) => write!(f, "hold call {call}"),
            Step::Join(call, place) => write!(f, "put call {call} on a {place}"),
            Step::LetGo(call) => write!(f, "let call {call} go"),
            Step::Tick => write!(f, "tick"),
        }
    }
}

/// The ticks that a held call is given.
pub(crate) const HELD_TIME: u16 = 3;

/// The ticks that a call on a port is given.
const PORT_TIME: u16 = 4;

/// The ticks that a call on a circuit is given.
const CIRCUIT_TIME: u16 = 6;

/// The ticks that a call on such a place is given.
pub(crate) fn place_time(place: Place) -> u16
    ensures { result ≡ place_time place }
{
    match place {
        Place::Port => PORT_TIME,
        Place::Circuit => CIRCUIT_TIME,
    }
}

/// The script, which is for two ports and one circuit: joins that go through and joins that are refused, a port given back, timers that run out, and a number that no host and no clock has.
pub(crate) const SCRIPT: [Step; 24] = [
    Step::Hold(1),
    Step::Hold(2),
    Step::Hold(3),
    Step::Join(1, Place::Port),
    Step::Join(2, Place::Port),
    Step::Join(3, Place::Port),
    Step::Join(3, Place::Circuit),
    Step::Join(2, Place::Circuit),
    Step::Tick,
    Step::Hold(1),
    Step::Join(3, Place::Port),
    Step::LetGo(2),
    Step::Hold(4),
    Step::Join(4, Place::Port),
    Step::Join(5, Place::Port),
    Step::Tick,
    Step::Tick,
    Step::Tick,
    Step::Tick,
    Step::Hold(63),
    Step::Hold(64),
    Step::LetGo(1),
    Step::LetGo(3),
    Step::Tick,
];
