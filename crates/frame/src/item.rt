//! One item of a request to report events.
ghost use Rattle.std.specs.Prelude.{◌≡◌, false, ◌==◌, Some, MatchResult};
ghost use Rattle.terms.specs.Points.{point_number};
ghost use Rattle.frame.specs.Items.{blank_item, is_item, is_mode, mode_name, mode_number};

use std::fmt;
use terms::point::Point;
use terms::short_list::Blank;
use terms::unknown_number::UnknownNumber;

/// What the exchange does when the call comes to a detection point.
#[derive(Clone, Copy, PartialEq, Eq, Debug)]
pub enum Mode {
    /// Report it, and hold the call for instructions.
    Interrupt = 0,
    /// Report it, and let the call go on.
    Notify = 1,
    /// Report it no longer.
    Transparent = 2,
}

/// The byte that stands for the mode.
impl From<Mode> for u8 {
    ghost from_gives = { λ m number. number ≡ mode_number m };

    fn from(mode: Mode) -> u8 {
        mode as u8
    }
}

/// The mode that a byte stands for, if it stands for one.
impl TryFrom<u8> for Mode {
    type Error = UnknownNumber;

    ghost try_from_gives = { λ number r.
        MatchResult r (λ m. mode_number m ≡ number) (λ _. is_mode number ≡ false) };

    fn try_from(number: u8) -> Result<Mode, UnknownNumber> {
        match number {
            0 => Ok(Mode::Interrupt),
            1 => Ok(Mode::Notify),
            2 => Ok(Mode::Transparent),
            _ => Err(UnknownNumber),
        }
    }
}

/// Shows the mode in a word.
impl fmt::Display for Mode {
    ghost output = { λ m. Some (mode_name m) };

    fn fmt<W: fmt::Write>(&self, f: &mut fmt::Formatter<W>) -> fmt::Result {
        f.pad(match self {
            Mode::Interrupt => "interrupt",
            Mode::Notify => "notify",
            Mode::Transparent => "transparent",
        })
    }
}

/// A detection point, and the mode in which it is asked for.
#[derive(Clone, Copy, PartialEq, Eq, Debug)]
pub struct Item {
    pub point: Point,
    pub mode: Mode,
}

impl Item {
    /// Whether the item is of this point.
    pub(crate) fn is_of(&self, point: Point) -> bool
        ensures { result ≡ (point_number self.now.point == point_number point) }
    {
        self.point == point
    }
}

/// The item of a point's and a mode's number, if both exist.
impl TryFrom<(u8, u8)> for Item {
    type Error = UnknownNumber;

    ghost try_from_gives = { λ numbers r.
        MatchResult r
        (λ x. (point_number x.point ≡ numbers.0) × (mode_number x.mode ≡ numbers.1))
        (λ _. is_item numbers ≡ false) };

    fn try_from(numbers: (u8, u8)) -> Result<Item, UnknownNumber> {
        let (point, mode) = numbers;
        Ok(Item {
            point: Point::try_from(u32::from(point))?,
            mode: Mode::try_from(mode)?,
        })
    }
}

impl Blank for Item {
    ghost use Rattle.std.specs.Prelude.{refl};
    ghost use Rattle.frame.specs.Items.{blank_alone, is_blank};

    ghost blank = { blank_item };

    ghost is_blank = { is_blank };

    fn blank() -> Item {
        Item {
            point: Point::OrigAttemptAuthorized,
            mode: Mode::Interrupt,
        }
    }

    ghost passes = { refl };

    ghost alone = { blank_alone };
}
