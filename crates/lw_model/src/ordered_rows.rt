ghost use Rattle.std.specs.Prelude.{◌≡◌, ℕ, ◌<◌, ◌⊎◌, ◌↔◌, List, [], length, All, Contains, IsTrue, IfOk, IfSome, IfNone, OnOk, OnErr};
ghost use Rattle.std.specs.List.{HoldsAt, slice_index_or};
ghost use Rattle.std.specs.List.Sorted.{IsStrictlySortedBy};
ghost use Rattle.lw_formula.specs.FiniteModel.{AreDistinct};
ghost use Rattle.lw_model.specs.Private.OrderedRows.{numbered, AddsItem, IsGapIn, IsGrown, IsPlace};

use crate::item::Item;
use crate::ordered_list::OrderedList;
use std::alloc::{AllocError, Global};
use std::marker::Model;

/// For each number an ordered list of items, each once. The numbers behind the last row have none.
#[derive(Debug, Drop)]
pub(crate) struct OrderedRows<T: Item> {
    rows: Vec<OrderedList<T>>,
    count: usize,
}

impl<T: Item> Model for OrderedRows<T> {
    ghost use Rattle.std.specs.Prelude.{◌≡◌, ℕ, List, length};
    ghost use Rattle.lw_formula.specs.FiniteModel.{AreDistinct};
    ghost use Rattle.lw_model.specs.Private.OrderedRows.{numbered};

    ghost Value = { List (ℕ × T) };

    ghost view = { λ all. numbered 0 all.rows.items };

    ghost invariant = { λ all. (all.count ≡ length (numbered 0 all.rows.items)) × AreDistinct (numbered 0 all.rows.items) };
}

impl<T: Item> OrderedRows<T> {
    /// No items at any number. It takes no memory yet.
    pub(crate) fn new(alloc: Global) -> OrderedRows<T>
        ensures { result ≡ [] }
    {
        OrderedRows {
            rows: Vec::new(alloc),
            count: 0,
        }
    }

    /// The items at the number, in order.
    pub(crate) fn row(&self, at: usize) -> &[T]
        ensures exact { (x : T) → Contains result.now x ↔ Contains self.now (at, x) }
        ensures ordered { IsStrictlySortedBy T.cmp result.now }
        ensures valid { All T.is_valid result.now }
    {
        match self.rows.get(at) {
            Some(row) => row.as_slice(),
            None => &[],
        }
    }

    /// Whether the item is at the number.
    pub(crate) fn has(&self, at: usize, item: &T) -> bool
        ensures { IsTrue result ↔ Contains self.now (at, item.now) }
    {
        gap(&self.rows, at, item).is_none()
    }

    /// Each number that has an item is below this one.
    pub(crate) fn end(&self) -> usize
        ensures { (at : ℕ) (x : T) → Contains self.now (at, x) → at < result }
    {
        self.rows.len()
    }

    /// How many items there are at all numbers.
    pub(crate) fn len(&self) -> usize
        ensures { result ≡ length self.now }
    {
        self.count
    }

    /// The number of the i-th item, from 0, in the order of the numbers, and at a number of the items. It walks the rows.
    pub(crate) fn number_of(&self, i: usize) -> usize
        requires { i < length self.now }
        ensures { HoldsAt (λ p. result ≡ p.0) self.now i }
    {
        find(&self.rows, i).0
    }

    /// The i-th item, from 0, in the same order. It walks the rows.
    pub(crate) fn item(&self, i: usize) -> &T
        requires { i < length self.now }
        ensures { HoldsAt (λ p. result.now ≡ p.1) self.now i }
    {
        let (at, place) = find(&self.rows, i);
        let row = &self.rows[at];
        &row.as_slice()[place]
    }

    /// Puts the item at the number; nothing changes where it is there. It fails for want of memory alone, and then all is
    /// as before.
    pub(crate) fn add(&mut self, at: usize, item: &T) -> Result<(), AllocError>
        ensures added { OnOk result (AddsItem self.old self.new at item.now) }
        ensures distinct { OnOk result (AreDistinct self.new) }
        ensures same { OnOk result (Contains self.old (at, item.now) → self.new ≡ self.old) }
        ensures failed { OnErr result (self.new ≡ self.old) }
        ensures absent { OnErr result (¬ Contains self.old (at, item.now)) }
    {
        let Some(place) = gap(&self.rows, at, item) else {
            return Ok(());
        };
        // no memory holds more items than that
        let Some(count) = self.count.checked_add(1) else {
            return Err(AllocError);
        };
        let copy = item.copied()?;
        grow(&mut self.rows, at)?;
        let row = &mut self.rows[at];
        row.put(place, copy)?;
        self.count = count;
        Ok(())
    }

    /// The memory that the rows are kept in.
    pub(crate) fn allocator(&self) -> Global {
        *self.rows.allocator()
    }

    /// A second value with the same rows. It fails for want of memory alone.
    pub(crate) fn try_clone(&self) -> Result<OrderedRows<T>, AllocError>
        ensures { IfOk result (λ all. all ≡ self.now) }
    {
        let mut rows = Vec::with_capacity(*self.rows.allocator(), self.rows.len())?;
        for row in &self.rows {
            rows.push(row.try_clone()?)?;
        }
        Ok(OrderedRows {
            rows,
            count: self.count,
        })
    }
}

// Where the item would go in the row of the number, if it isn't there.
fn gap<T: Item>(rows: &[OrderedList<T>], at: usize, item: &T) -> Option<usize>
    ensures there { IfNone result (Contains (slice_index_or rows.now at []) item.now) }
    ensures gap { IfSome result (IsGapIn T.cmp (slice_index_or rows.now at []) item.now) }
{
    match rows.get(at) {
        Some(row) => row.gap(item),
        None => Some(0),
    }
}

// Adds rows of no items, so that there is one at the number. It fails for want of memory alone.
fn grow<T: Item>(rows: &mut Vec<OrderedList<T>>, at: usize) -> Result<(), AllocError>
    ensures grown { IsGrown rows.old.items rows.new.items }
    ensures there { OnOk result (at < length rows.new.items) }
{
    let alloc = *rows.allocator();
    while rows.len() <= at {
        rows.push(OrderedList::new(alloc))?;
    }
    Ok(())
}

// The row of the i-th item, and its place there.
fn find<T: Item>(rows: &[OrderedList<T>], i: usize) -> (usize, usize)
    requires { i < length (numbered 0 rows.now) }
    ensures { IsPlace rows.now i result.0 result.1 }
{
    let mut place = i;
    for at in 0..rows.len() {
        let count = rows[at].len();
        if place < count {
            return (at, place);
        }
        place -= count;
    }
    unreachable!()
}
