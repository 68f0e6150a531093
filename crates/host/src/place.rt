//! Where a held call can be put.
ghost use Rattle.std.specs.Prelude.{◌≡◌, Some};
ghost use Rattle.host.specs.Places.{mode_on, place_name};

use crate::Mode;
use std::fmt;

/// A place that a held call can be put on.
#[derive(Clone, Copy, PartialEq, Eq, Debug)]
pub enum Place {
    Port,
    Circuit,
}

impl Place {
    /// The mode of a call that is held on such a place.
    pub fn mode(self) -> Mode
        ensures { result ≡ mode_on self }
    {
        match self {
            Place::Port => Mode::OnPort,
            Place::Circuit => Mode::OnCircuit,
        }
    }
}

/// Shows the place in words.
impl fmt::Display for Place {
    ghost output = { λ place. Some (place_name place) };

    fn fmt<W: fmt::Write>(&self, f: &mut fmt::Formatter<W>) -> fmt::Result {
        f.pad(match self {
            Place::Port => "port",
            Place::Circuit => "circuit",
        })
    }
}
