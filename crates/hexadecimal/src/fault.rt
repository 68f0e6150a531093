//! Why a text is no capital hexadecimal.
use std::error::Error;
use std::fmt;

/// The first fault of a text: its length, then its characters, then whether they go in pairs.
#[derive(Clone, Copy, PartialEq, Eq, Debug)]
pub enum HexFault {
    /// The text spells more bytes than there is room for.
    TooLong,
    /// The character at this place, counted from 0, is none of 0 to 9 and A to F.
    Character(usize),
    /// The number of digits is odd.
    Odd,
}

/// Says what is wrong, with columns counted from 1.
impl fmt::Display for HexFault {
    fn fmt<W: fmt::Write>(&self, f: &mut fmt::Formatter<W>) -> fmt::Result {
        match self {
            HexFault::TooLong => f.write_str("too long"),
            HexFault::Character(at) => {
                let column = at.saturating_add(1);
                write!(f, "no capital hexadecimal digit at column {column}")
            }
            HexFault::Odd => f.write_str("odd number of digits"),
        }
    }
}

impl Error for HexFault {}
