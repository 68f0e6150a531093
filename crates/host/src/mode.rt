//! Where a call stands with its host.
ghost use Rattle.std.specs.Prelude.{◌≡◌, Some};
ghost use Rattle.host.specs.Modes.{mode_name, mode_number, same_mode};

use std::fmt;

/// The mode of a call.
#[derive(Clone, Copy, PartialEq, Eq, Debug)]
pub enum Mode {
    NotHeld = 0,
    Held = 1,
    OnPort = 2,
    OnCircuit = 3,
}

impl Mode {
    /// Whether this is that mode, as `==` says it, which is whether the two have one number.
    pub fn is(self, other: Mode) -> bool
        ensures { result ≡ same_mode self other }
    {
        self == other
    }

    /// The mode in words.
    // Beside `Display`: the text itself, for whoever formats nothing.
    pub fn name(self) -> &'static str
        ensures { mode_name self ≡ result.now }
    {
        match self {
            Mode::NotHeld => "not held",
            Mode::Held => "held",
            Mode::OnPort => "held on a port",
            Mode::OnCircuit => "held on a circuit",
        }
    }
}

/// The mode's number.
impl From<Mode> for u8 {
    ghost from_gives = { λ mode number. number ≡ mode_number mode };

    fn from(mode: Mode) -> u8 {
        mode as u8
    }
}

/// Shows the mode in words.
impl fmt::Display for Mode {
    ghost output = { λ mode. Some (mode_name mode) };

    fn fmt<W: fmt::Write>(&self, f: &mut fmt::Formatter<W>) -> fmt::Result {
        f.pad(self.name())
    }
}
