// What is left to do at a label.
ghost use Rattle.std.specs.Prelude.{◌≡◌, ◌*◌, ◌<◌, ◌≤◌, ◌&&◌, IsTrue, ◌⊎◌, [], ◌∷◌, false, length};
ghost use Rattle.std.specs.Bool.{OnTrue, OnFalse};
ghost use Rattle.lw_proof.specs.Lean.{HasNew};
ghost use Rattle.lw_closure.specs.Mapping.{OfBoth};
ghost use Rattle.lw_closure.specs.Table.{entry_at, flip_item, item_count, IsTable};
ghost use Rattle.lw_closure.specs.Unclosed.{IsServed, IsUnclosedLabel};
ghost use Rattle.lw_sat.specs.Moves.{listed};
ghost use Rattle.lw_sat.specs.SeedPath.{IsWide};
ghost use Rattle.lw_sat.specs.Sets.{adding, top, IsOfItems};
ghost use Rattle.lw_sat.specs.Private.LabelWork.{is_nothing, IsQuiet, IsWork};

use crate::board::Board;
use crate::frame::Side;
use lw_closure::{Closure, flip};
use lw_formula::Parts;
use lw_proof::{Rule, has_refl};

/// What a label asks for.
#[derive(Clone, Copy)]
pub enum Work {
    /// The rule on the item closes it, by the items that are named.
    Leaf {
        rule: Rule,
        item: usize,
        used: Side,
    },
    /// The rule on the item adds these components.
    Only {
        rule: Rule,
        item: usize,
        side: Side,
    },
    /// The item has two sides, of which the label has neither.
    Both {
        item: usize,
        first: Side,
        second: Side,
    },
    /// There is nothing left to do.
    Nothing,
}

// Whether the label lacks one of the components.
fn lacks(board: &Board, side: Side) -> bool
    ensures new { OnTrue result (HasNew (top board.now.labels) (adding (listed side) (top board.now.labels))) }
    ensures old { OnFalse result (OfBoth (λ c. IsTrue (top board.now.labels c)) side) }
{
    !board.has(side.0) || side.1.is_some_and(|item| !board.has(item))
}

// The rule without premises that the item in the label is there for.
fn leaf_of(closure: &Closure, board: &Board, item: usize) -> Work
    requires wide { IsWide closure.now board.now }
    requires item { item < item_count closure.now }
    requires there { IsTrue (top board.now.labels item) }
    ensures work { IsWork closure.now (top board.now.labels) result }
    ensures consistent { IsTrue (is_nothing result) → top board.now.labels (flip_item item) ≡ false }
    ensures possible { IsTrue (is_nothing result) → (entry_at closure.now item).absurd ≡ false }
{
    if board.has(flip(item)) {
        let positive = item - item % 2;
        return Work::Leaf {
            rule: Rule::Close,
            item: positive,
            used: (positive, Some(positive + 1)),
        };
    }
    if closure.absurd(item) {
        return Work::Leaf {
            rule: Rule::Absurd,
            item,
            used: (item, None),
        };
    }
    Work::Nothing
}

// The components that the item in the label asks for.
fn components_of(closure: &Closure, board: &Board, item: usize) -> Work
    requires table { IsTable closure.now }
    requires wide { IsWide closure.now board.now }
    requires item { item < item_count closure.now }
    requires there { IsTrue (top board.now.labels item) }
    ensures work { IsWork closure.now (top board.now.labels) result }
    ensures served { IsTrue (is_nothing result) → IsServed closure.now.logic (top board.now.labels) (entry_at closure.now item).parts }
{
    match closure.parts(item) {
        Parts::One(first, second) if lacks(board, (first, second)) => Work::Only {
            rule: Rule::One,
            item,
            side: (first, second),
        },
        Parts::Two(first, second) if lacks(board, first) && lacks(board, second) => Work::Both {
            item,
            first,
            second,
        },
        Parts::Nu(inner) if has_refl(closure.logic()) && !board.has(inner) => Work::Only {
            rule: Rule::Refl,
            item,
            side: (inner, None),
        },
        _ => Work::Nothing,
    }
}

// What the item in the label asks for.
fn work_of(closure: &Closure, board: &Board, item: usize) -> Work
    requires table { IsTable closure.now }
    requires wide { IsWide closure.now board.now }
    requires item { item < item_count closure.now }
    requires there { IsTrue (top board.now.labels item) }
    ensures work { IsWork closure.now (top board.now.labels) result }
    ensures quiet { IsTrue (is_nothing result) → IsQuiet closure.now (top board.now.labels) item }
{
    match leaf_of(closure, board, item) {
        Work::Nothing => components_of(closure, board, item),
        leaf => leaf,
    }
}

// Of two works the one that is done first: what doesn't branch comes before what does.
fn sooner(one: Work, other: Work) -> Work
    ensures which { (result ≡ one) ⊎ (result ≡ other) }
    ensures none { is_nothing result ≡ (is_nothing one && is_nothing other) }
{
    match (one, other) {
        (Work::Nothing, _) => other,
        (Work::Both { .. }, Work::Only { .. }) => other,
        _ => one,
    }
}

/// What the label asks for: first what closes it, then what doesn't branch.
pub fn find(closure: &Closure, board: &Board) -> Work
    requires wide { IsWide closure.now board.now }
    requires items { IsOfItems closure.now (top board.now.labels) }
    ensures work { IsWork closure.now (top board.now.labels) result }
    ensures unclosed { IsTrue (is_nothing result) → IsUnclosedLabel closure.now (top board.now.labels) }
{
    let mut found = Work::Nothing;
    for item in 0..2 * closure.count() {
        if board.has(item) {
            let work = work_of(closure, board, item);
            if let Work::Leaf { .. } = work {
                return work;
            }
            found = sooner(found, work);
        }
    }
    found
}
