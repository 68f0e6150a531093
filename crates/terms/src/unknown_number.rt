//! The error of a number that stands for nothing.
ghost use Rattle.std.specs.Prelude.{Some, codes};

use std::error::Error;
use std::fmt;

/// A number that stands for no value of the type that was asked for.
#[derive(Clone, Copy, PartialEq, Eq, Debug)]
pub struct UnknownNumber;

/// Says so.
impl fmt::Display for UnknownNumber {
    ghost output = { λ _. Some (codes "number that stands for nothing") };

    fn fmt<W: fmt::Write>(&self, f: &mut fmt::Formatter<W>) -> fmt::Result {
        f.pad("number that stands for nothing")
    }
}

impl Error for UnknownNumber {}
