//! Error codes, as control point and exchange send them to each other.
ghost use Rattle.std.specs.Prelude.{◌≡◌, false, Some, MatchResult};
ghost use Rattle.terms.specs.ErrorCodes.{error_name, error_number, is_error_code};

use crate::unknown_number::UnknownNumber;
use std::fmt;

/// Why an operation was not carried out.
#[derive(Clone, Copy, PartialEq, Eq, Debug)]
pub enum ErrorCode {
    MissingCustomerRecord = 6,
    MissingParameter = 7,
    ParameterOutOfRange = 8,
    SystemFailure = 11,
    TaskRefused = 12,
    UnexpectedComponentSequence = 14,
    UnexpectedDataValue = 15,
    UnexpectedParameter = 16,
}

impl ErrorCode {
    /// The code's name in the trade.
    // Beside `Display`: the text itself, for whoever formats nothing.
    pub fn name(self) -> &'static str
        ensures { error_name self ≡ result.now }
    {
        match self {
            ErrorCode::MissingCustomerRecord => "missingCustomerRecord",
            ErrorCode::MissingParameter => "missingParameter",
            ErrorCode::ParameterOutOfRange => "parameterOutOfRange",
            ErrorCode::SystemFailure => "systemFailure",
            ErrorCode::TaskRefused => "taskRefused",
            ErrorCode::UnexpectedComponentSequence => "unexpectedComponentSequence",
            ErrorCode::UnexpectedDataValue => "unexpectedDataValue",
            ErrorCode::UnexpectedParameter => "unexpectedParameter",
        }
    }
}

/// The byte that stands for the code.
impl From<ErrorCode> for u8 {
    ghost from_gives = { λ e number. number ≡ error_number e };

    fn from(code: ErrorCode) -> u8 {
        code as u8
    }
}

/// The code that a byte stands for, if it stands for one.
impl TryFrom<u8> for ErrorCode {
    type Error = UnknownNumber;

    ghost try_from_gives = { λ number r.
        MatchResult r (λ e. error_number e ≡ number) (λ _. is_error_code number ≡ false) };

    fn try_from(number: u8) -> Result<ErrorCode, UnknownNumber> {
        match number {
            6 => Ok(ErrorCode::MissingCustomerRecord),
            7 => Ok(ErrorCode::MissingParameter),
            8 => Ok(ErrorCode::ParameterOutOfRange),
            11 => Ok(ErrorCode::SystemFailure),
            12 => Ok(ErrorCode::TaskRefused),
            14 => Ok(ErrorCode::UnexpectedComponentSequence),
            15 => Ok(ErrorCode::UnexpectedDataValue),
            16 => Ok(ErrorCode::UnexpectedParameter),
            _ => Err(UnknownNumber),
        }
    }
}

/// Shows the code's name.
impl fmt::Display for ErrorCode {
    ghost output = { λ e. Some (error_name e) };

    fn fmt<W: fmt::Write>(&self, f: &mut fmt::Formatter<W>) -> fmt::Result {
        f.pad(self.name())
    }
}
