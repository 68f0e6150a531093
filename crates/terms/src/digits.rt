//! The digits of an address or of a called number.
ghost use Rattle.std.specs.Prelude.{◌≡◌, IsTrue};
ghost use Rattle.std.specs.List.{list_all};
ghost use Rattle.terms.specs.Decimals.{are_digits, is_digit};
ghost use Rattle.terms.specs.ShortLists.{elements};

use crate::short_list::ShortList;
use std::{fmt, str};

/// The most digits that a number of the exchange has.
pub const MOST_DIGITS: usize = 15;

/// None to fifteen decimal digits.
#[derive(Clone, Copy)]
pub struct Digits {
    digits: ShortList<u8, MOST_DIGITS>,
    ghost decimal: { IsTrue (are_digits (elements digits)) },
}

fn all_digits(bytes: &[u8]) -> bool
    ensures { result ≡ list_all is_digit bytes.now }
{
    bytes.iter().all(|b| b.is_ascii_digit())
}

impl Digits {
    ghost use Rattle.std.specs.Prelude.{◌≤◌, true, false, length, MatchOption};
    ghost use Rattle.terms.specs.Decimals.{most_digits};
    ghost use Rattle.terms.specs.Digits.{ascii};

    /// The digits of these ASCII bytes, unless there are more than fifteen, or one is no digit.
    pub fn from_ascii(bytes: &[u8]) -> Option<Digits>
        ensures { MatchOption result (are_digits bytes.now ≡ false) (λ d. (are_digits bytes.now ≡ true) × (ascii d ≡ bytes.now)) }
    {
        // The length first, so that a text which is too long is not read to its end.
        let digits = ShortList::new(bytes)?;
        if !all_digits(bytes) {
            return None;
        }
        Some(Digits { digits })
    }

    /// The digits as ASCII bytes.
    pub fn as_ascii(&self) -> &[u8]
        ensures bytes { result.now ≡ ascii self.now }
        ensures few { length result.now ≤ most_digits }
    {
        self.digits.as_slice()
    }
}

/// Shows the digits.
impl fmt::Display for Digits {
    ghost use Rattle.std.specs.Prelude.{Some};
    ghost use Rattle.terms.specs.Digits.{ascii};

    ghost output = { λ d. Some (ascii d) };

    fn fmt<W: fmt::Write>(&self, f: &mut fmt::Formatter<W>) -> fmt::Result {
        let text = str::from_utf8(self.as_ascii()).map_err(|_| fmt::Error)?;
        f.pad(text)
    }
}
