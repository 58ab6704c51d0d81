// The last row of a stack of rows of bits, as a set of items.
ghost use Rattle.std.specs.Prelude.{◌≡◌, ◌*◌, ◌<◌, [], ◌∷◌, ◌||◌};
ghost use Rattle.std.specs.List.{list_any};
ghost use Rattle.lw_sat.specs.Sets.{adding, either, nothing, top, without, AreBelow};
ghost use Rattle.lw_sat.specs.Private.LastRow.{HasTop, Replaces};
ghost use Rattle.lw_sat.specs.Moves.{listed};

use crate::frame::Side;
use lw_rows::Rows;

// Whether the set has the item.
pub(crate) fn has(rows: &Rows, item: usize) -> bool
    requires there { HasTop rows.now }
    requires inside { item < 64 * rows.now.width }
    ensures { result ≡ top rows.now item }
{
    rows.test(rows.count() - 1, item)
}

// Whether the set has one of the components.
pub(crate) fn has_any(rows: &Rows, side: Side) -> bool
    requires there { HasTop rows.now }
    requires inside { AreBelow (64 * rows.now.width) (listed side) }
    ensures { result ≡ list_any (top rows.now) (listed side) }
{
    has(rows, side.0) || side.1.is_some_and(|item| has(rows, item))
}

// Puts the item into the set.
pub(crate) fn add(rows: &mut Rows, item: usize)
    requires there { HasTop rows.old }
    requires inside { item < 64 * rows.old.width }
    ensures { Replaces rows.old rows.new (adding (item ∷ []) (top rows.old)) }
{
    rows.set(item);
}

// Takes the item out of the set.
pub(crate) fn remove(rows: &mut Rows, item: usize)
    requires there { HasTop rows.old }
    requires inside { item < 64 * rows.old.width }
    ensures { Replaces rows.old rows.new (without (item ∷ []) (top rows.old)) }
{
    rows.clear(item);
}

// Puts the components into the set.
pub(crate) fn add_side(rows: &mut Rows, side: Side)
    requires there { HasTop rows.old }
    requires inside { AreBelow (64 * rows.old.width) (listed side) }
    ensures { Replaces rows.old rows.new (adding (listed side) (top rows.old)) }
{
    add(rows, side.0);
    if let Some(item) = side.1 {
        add(rows, item);
    }
}

// Takes the components out of the set.
pub(crate) fn remove_side(rows: &mut Rows, side: Side)
    requires there { HasTop rows.old }
    requires inside { AreBelow (64 * rows.old.width) (listed side) }
    ensures { Replaces rows.old rows.new (without (listed side) (top rows.old)) }
{
    remove(rows, side.0);
    if let Some(item) = side.1 {
        remove(rows, item);
    }
}

// Takes everything out of the set.
pub(crate) fn clear(rows: &mut Rows)
    requires { HasTop rows.old }
    ensures { Replaces rows.old rows.new nothing }
{
    rows.pop();
    rows.push_empty();
}

// Puts all that is in one set, whose rows have so many bits, into the other.
pub(crate) fn pour(from: &Rows, into: &mut Rows, bits: usize)
    requires from_there { HasTop from.now }
    requires into_there { HasTop into.old }
    requires from_long { bits ≡ 64 * from.now.width }
    requires into_long { bits ≡ 64 * into.old.width }
    ensures { Replaces into.old into.new (either (top from.now) (top into.old)) }
{
    for item in 0..bits {
        if has(from, item) {
            add(into, item);
        }
    }
}
