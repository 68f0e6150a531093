//! Detection points: the places in a call at which it can be stopped or watched.
ghost use Rattle.std.specs.Prelude.{◌≡◌, false, ◌==◌, Some, MatchResult};
ghost use Rattle.terms.specs.Points.{is_point, point_name, point_number};

use crate::unknown_number::UnknownNumber;
use std::fmt;

/// A detection point. Those from 1 to 10 lie in the calling half of a call, those from 12 on in the called half.
#[derive(Clone, Copy, PartialEq, Eq, Debug)]
pub enum Point {
    OrigAttemptAuthorized = 1,
    CollectedInfo = 2,
    AnalyzedInformation = 3,
    RouteSelectFailure = 4,
    OCalledPartyBusy = 5,
    ONoAnswer = 6,
    OAnswer = 7,
    OMidCall = 8,
    ODisconnect = 9,
    OAbandon = 10,
    TermAttemptAuthorized = 12,
    TCalledPartyBusy = 13,
    TNoAnswer = 14,
    TAnswer = 15,
    TMidCall = 16,
    TDisconnect = 17,
    TAbandon = 18,
}

impl Point {
    /// Whether this is that point, as `==` says it, which is whether the two have one number.
    pub fn is(self, other: Point) -> bool
        ensures { result ≡ (point_number self == point_number other) }
    {
        self == other
    }

    /// The point's name in the trade.
    // Beside `Display`: the text itself, for whoever formats nothing.
    pub fn name(self) -> &'static str
        ensures { point_name self ≡ result.now }
    {
        match self {
            Point::OrigAttemptAuthorized => "origAttemptAuthorized",
            Point::CollectedInfo => "collectedInfo",
            Point::AnalyzedInformation => "analyzedInformation",
            Point::RouteSelectFailure => "routeSelectFailure",
            Point::OCalledPartyBusy => "oCalledPartyBusy",
            Point::ONoAnswer => "oNoAnswer",
            Point::OAnswer => "oAnswer",
            Point::OMidCall => "oMidCall",
            Point::ODisconnect => "oDisconnect",
            Point::OAbandon => "oAbandon",
            Point::TermAttemptAuthorized => "termAttemptAuthorized",
            Point::TCalledPartyBusy => "tCalledPartyBusy",
            Point::TNoAnswer => "tNoAnswer",
            Point::TAnswer => "tAnswer",
            Point::TMidCall => "tMidCall",
            Point::TDisconnect => "tDisconnect",
            Point::TAbandon => "tAbandon",
        }
    }
}

/// The point's number.
impl From<Point> for u8 {
    ghost from_gives = { λ p number. number ≡ point_number p };

    fn from(point: Point) -> u8 {
        point as u8
    }
}

/// The point of a number, if there is one.
impl TryFrom<u32> for Point {
    type Error = UnknownNumber;

    ghost try_from_gives = { λ number r.
        MatchResult r (λ p. point_number p ≡ number) (λ _. is_point number ≡ false) };

    fn try_from(number: u32) -> Result<Point, UnknownNumber> {
        match number {
            1 => Ok(Point::OrigAttemptAuthorized),
            2 => Ok(Point::CollectedInfo),
            3 => Ok(Point::AnalyzedInformation),
            4 => Ok(Point::RouteSelectFailure),
            5 => Ok(Point::OCalledPartyBusy),
            6 => Ok(Point::ONoAnswer),
            7 => Ok(Point::OAnswer),
            8 => Ok(Point::OMidCall),
            9 => Ok(Point::ODisconnect),
            10 => Ok(Point::OAbandon),
            12 => Ok(Point::TermAttemptAuthorized),
            13 => Ok(Point::TCalledPartyBusy),
            14 => Ok(Point::TNoAnswer),
            15 => Ok(Point::TAnswer),
            16 => Ok(Point::TMidCall),
            17 => Ok(Point::TDisconnect),
            18 => Ok(Point::TAbandon),
            _ => Err(UnknownNumber),
        }
    }
}

/// Shows the point's name.
impl fmt::Display for Point {
    ghost output = { λ p. Some (point_name p) };

    fn fmt<W: fmt::Write>(&self, f: &mut fmt::Formatter<W>) -> fmt::Result {
        f.pad(self.name())
    }
}
