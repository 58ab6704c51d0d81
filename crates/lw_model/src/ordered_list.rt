ghost use Rattle.std.specs.Prelude.{◌≡◌, ◌↔◌, List, [], length, All, Contains, insert, IsTrue, IfOk, IfSome, IfNone, OnOk, OnErr};
ghost use Rattle.std.specs.List.Sorted.{IsStrictlySortedBy};
ghost use Rattle.lw_model.specs.Private.OrderedRows.{IsGapIn};

use crate::item::Item;
use std::alloc::{AllocError, Global};
use std::marker::Model;

/// Items in their order, each once.
#[derive(Debug, Drop)]
pub(crate) struct OrderedList<T: Item> {
    items: Vec<T>,
}

impl<T: Item> Model for OrderedList<T> {
    ghost Value = { List T };

    ghost view = { λ list. list.items.items };

    ghost invariant = { λ list. IsStrictlySortedBy T.cmp list.items.items × All T.is_valid list.items.items };
}

impl<T: Item> OrderedList<T> {
    /// The list of no items. It takes no memory yet.
    pub(crate) fn new(alloc: Global) -> OrderedList<T>
        ensures { result ≡ [] }
    {
        OrderedList {
            items: Vec::new(alloc),
        }
    }

    /// The items in order.
    pub(crate) fn as_slice(&self) -> &[T]
        ensures items { result.now ≡ self.now }
        ensures ordered { IsStrictlySortedBy T.cmp self.now }
        ensures valid { All T.is_valid self.now }
    {
        self.items.as_slice()
    }

    /// How many items there are.
    pub(crate) fn len(&self) -> usize
        ensures { result ≡ length self.now }
    {
        self.items.len()
    }

    /// Where the item would go, if it isn't there.
    pub(crate) fn gap(&self, item: &T) -> Option<usize>
        ensures there { IfNone result (Contains self.now item.now) }
        ensures gap { IfSome result (IsGapIn T.cmp self.now item.now) }
    {
        self.items.as_slice().binary_search(item).err()
    }

    /// Puts an item that isn't there into its place. It fails for want of memory alone.
    pub(crate) fn put(&mut self, place: usize, item: T) -> Result<(), AllocError>
        requires gap { IsGapIn T.cmp self.old item place }
        requires valid { T.is_valid item }
        ensures put { OnOk result (self.new ≡ insert self.old place item) }
        ensures failed { OnErr result (self.new ≡ self.old) }
    {
        self.items.insert(place, item)?;
        Ok(())
    }

    /// A second list of the same items. It fails for want of memory alone.
    pub(crate) fn try_clone(&self) -> Result<OrderedList<T>, AllocError>
        ensures { IfOk result (λ list. list ≡ self.now) }
    {
        let alloc = *self.items.allocator();
        let mut items = Vec::with_capacity(alloc, self.items.len())?;
        for item in &self.items {
            items.push(item.copied()?)?;
        }
        Ok(OrderedList { items })
    }
}
