//! Making short lists and reading them.
ghost use Rattle.std.specs.Prelude.{◌≡◌, ◌<◌, ◌≤◌, ◌++◌, [], ◌∷◌, length, drop, IfSome, IfNone, OnOk, OnErr};
ghost use Rattle.terms.specs.ShortLists.{elements};

use super::{Blank, Full, ShortList};

impl Blank for u8 {
    ghost use Rattle.std.specs.Prelude.{◌==◌};

    ghost blank = { 0 };

    ghost is_blank = { λ n. n == 0 };

    fn blank() -> u8 {
        0
    }

    ghost use Rattle.std.specs.Prelude.{refl};
    ghost use Rattle.std.proofs.lemmas.Bool.{eqb-true};

    ghost passes = { refl };

    ghost alone = { λ n e. eqb-true n 0 e };
}

/// Puts the items at the front.
fn put_front<T: Copy>(items: &[T], places: &mut [T])
    requires { length items.now ≤ length places.old }
    ensures { places.new ≡ items.now ++ drop (length items.now) places.old }
{
    places[..items.len()].copy_from_slice(items);
}

impl<T: Blank, const N: usize> ShortList<T, N> {
    /// No elements.
    #[tactic(auto, using(crate::proofs::Padded::padded_none))]
    pub fn empty() -> Self
        ensures { elements result ≡ [] }
    {
        ShortList {
            count: 0,
            places: [T::blank(); N],
        }
    }

    /// These items, unless they are more than `N`.
    #[tactic(auto, using(crate::proofs::Padded::padded_front))]
    pub fn new(items: &[T]) -> Option<Self>
        ensures few { IfSome result (λ xs. (length items.now ≤ N) × (elements xs ≡ items.now)) }
        ensures many { IfNone result (N < length items.now) }
    {
        let count = items.len();
        if count > N {
            return None;
        }
        let mut places = [T::blank(); N];
        put_front(items, &mut places);
        Some(ShortList { count, places })
    }

    /// Puts one more element behind the others; an error, and nothing changes, where there are `N` already.
    pub fn push(&mut self, element: T) -> Result<(), Full>
        ensures ok { OnOk result ((length (elements self.old) < N) × (elements self.new ≡ elements self.old ++ element ∷ [])) }
        ensures err { OnErr result ((length (elements self.old) ≡ N) × (self.new ≡ self.old)) }
    {
        if self.count >= N {
            return Err(Full);
        }
        self.places[self.count] = element;
        self.count += 1;
        Ok(())
    }

    /// The elements, in their order.
    pub fn as_slice(&self) -> &[T]
        ensures elements { result.now ≡ elements self.now }
        ensures few { length result.now ≤ N }
    {
        let places = &self.places[..];
        &places[..self.count]
    }
}
