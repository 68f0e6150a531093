//! The items of one frame.
ghost use Rattle.std.specs.Prelude.{◌≡◌, ◌<◌, ◌≤◌, length, MatchOption};
ghost use Rattle.frame.specs.Limits.{most_items};
ghost use Rattle.frame.specs.Operations.{items_in};

use crate::item::Item;
use crate::limits::MOST_ITEMS;
use terms::short_list::ShortList;

/// Up to seventeen items, in their order.
#[derive(Clone, Copy)]
pub struct Items {
    pub(crate) items: ShortList<Item, MOST_ITEMS>,
}

impl Items {
    /// These items, unless they are more than seventeen.
    pub fn new(items: &[Item]) -> Option<Items>
        ensures { MatchOption result (most_items < length items.now) (λ xs. items_in xs ≡ items.now) }
    {
        let items = ShortList::new(items)?;
        Some(Items { items })
    }

    /// The items, in their order.
    pub fn as_slice(&self) -> &[Item]
        ensures items { result.now ≡ items_in self.now }
        ensures few { length result.now ≤ most_items }
    {
        self.items.as_slice()
    }
}
