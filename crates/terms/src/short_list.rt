//! Short lists: a few elements in a value of fixed size.
ghost use Rattle.std.specs.Prelude.{◌≡◌, Bool, true, IsTrue};
ghost use Rattle.terms.specs.Padding.{padded};

use std::alloc::AllocError;
use std::error::Error;
use std::fmt;

mod methods;

/// A type one of whose values, the blank one, fills the places that a short list does not use.
pub trait Blank: Copy {
    ghost blank: { Self };

    ghost is_blank: { Self → Bool };

    /// The blank value.
    fn blank() -> Self
        ensures { result ≡ blank };

    // It passes the test, and nothing else does.
    ghost passes: { is_blank blank ≡ true };

    ghost alone: { (x : Self) → is_blank x ≡ true → x ≡ blank };
}

/// None to `N` elements, in their order.
// A count beside an array, as the library's `ArrayVec` has it: but that one is no `Copy`, and a `Vec` can run out of memory.
// No `impl Model` whose value is the list: the checker then fails at a crate that passes an enum with such a list in it, within
// a struct, for a type parameter ("it was not told which modules hold the type"), as hosts with their orders are passed.
pub struct ShortList<T: Blank, const N: usize> {
    count: usize,
    places: [T; N],
    ghost kept: { IsTrue (padded T.is_blank N count places) },
}

impl<T: Blank, const N: usize> Copy for ShortList<T, N> {}

// No derive goes over a ghost field of a generic struct.
impl<T: Blank, const N: usize> Clone for ShortList<T, N> {
    ghost use Rattle.std.specs.Prelude.{⊤};

    ghost is_clone = { λ s t. s ≡ t };

    ghost is_infallible = { λ _. ⊤ };

    fn clone(&self) -> Result<Self, AllocError> {
        Ok(*self)
    }
}

/// There is no place for a further element.
#[derive(Clone, Copy, PartialEq, Eq, Debug)]
pub struct Full;

/// Says so.
impl fmt::Display for Full {
    ghost use Rattle.std.specs.Prelude.{Some, codes};

    ghost output = { λ _. Some (codes "no place for a further element") };

    fn fmt<W: fmt::Write>(&self, f: &mut fmt::Formatter<W>) -> fmt::Result {
        f.pad("no place for a further element")
    }
}

impl Error for Full {}
