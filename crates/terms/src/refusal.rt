//! Refusals: why an input is not taken.
ghost use Rattle.std.specs.Prelude.{◌≡◌, Some, ◌==◌};
ghost use Rattle.terms.specs.Refusals.{refusal_number, refusal_error, refusal_meaning};

use crate::error_code::ErrorCode;
use std::error::Error;
use std::fmt;

/// The first fault of an input. What is refused changes nothing.
#[derive(Clone, Copy, PartialEq, Eq, Debug)]
pub enum Refusal {
    Room = 1,
    FrameLength = 2,
    Version = 3,
    Dialogue = 4,
    Operation = 5,
    Invoke = 6,
    ArgumentLength = 7,
    Value = 8,
    PointTwice = 9,
}

impl Refusal {
    /// Whether this is that refusal, as `==` says it, which is whether the two have one number.
    pub fn is(self, other: Refusal) -> bool
        ensures { result ≡ (refusal_number self == refusal_number other) }
    {
        self == other
    }

    /// The error code of the answer to a frame that was refused so.
    pub fn error_code(self) -> Option<ErrorCode>
        ensures { result ≡ refusal_error self }
    {
        match self {
            Refusal::Room => Some(ErrorCode::SystemFailure),
            Refusal::FrameLength
            | Refusal::Version
            | Refusal::Dialogue
            | Refusal::Operation
            | Refusal::Invoke => Some(ErrorCode::TaskRefused),
            Refusal::ArgumentLength => Some(ErrorCode::MissingParameter),
            Refusal::Value => Some(ErrorCode::ParameterOutOfRange),
            Refusal::PointTwice => Some(ErrorCode::UnexpectedDataValue),
        }
    }

    /// What the refusal means, for a person to read.
    fn meaning(self) -> &'static str
        ensures { refusal_meaning self ≡ result.now }
    {
        match self {
            Refusal::Room => "too little room",
            Refusal::FrameLength => "frame too short or too long, or its length field wrong",
            Refusal::Version => "unknown version",
            Refusal::Dialogue => "no such dialogue",
            Refusal::Operation => "unknown operation",
            Refusal::Invoke => "invoke number too high",
            Refusal::ArgumentLength => "argument of the wrong length",
            Refusal::Value => "argument value or digits not allowed",
            Refusal::PointTwice => "detection point twice in one frame",
        }
    }
}

/// The refusal's number.
impl From<Refusal> for u8 {
    ghost from_gives = { λ e number. number ≡ refusal_number e };

    fn from(refusal: Refusal) -> u8 {
        refusal as u8
    }
}

/// Shows what the refusal means.
impl fmt::Display for Refusal {
    ghost output = { λ e. Some (refusal_meaning e) };

    fn fmt<W: fmt::Write>(&self, f: &mut fmt::Formatter<W>) -> fmt::Result {
        f.pad(self.meaning())
    }
}

impl Error for Refusal {}
