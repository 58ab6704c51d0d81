//! A case on the model that a fragment makes.

ghost use Rattle.std.specs.Prelude.{◌≡◌, ◌+◌, ◌<◌, IfOk, OnOk, length};
ghost use Rattle.std.specs.Option.{ForSome};
ghost use Rattle.lw_closure.specs.Table.{Table, item_count};
ghost use Rattle.lw_counter.specs.Fragment.{HasItemsOf};

use crate::formulas::entered;
use crate::models::rows_text;
use crate::unanswered::Unanswered;
use lw_closure::closure;
use lw_counter::Fragment;
use lw_formula::Logic;
use lw_pool::Pool;
use std::alloc::{AllocError, Global};

// Puts a world with one item in its label behind the others.
#[tactic(auto, using(crate::proofs::Fragments::items_more))]
fn grow(fragment: &mut Fragment, parent: Option<usize>, item: usize) -> Result<(), AllocError>
    requires { ForSome parent (λ world. world < length fragment.old.worlds) }
    ensures count { OnOk result (length fragment.new.worlds ≡ length fragment.old.worlds + 1) }
    ensures items { OnOk result ((t : Table) → item < item_count t → HasItemsOf t fragment.old → HasItemsOf t fragment.new) }
{
    fragment.add(parent, &[item])?;
    Ok(())
}

// Three worlds, each a child of the one before it, with a link from the last to the middle one. `T p`, the item 0, is
// in the label of the middle one. A fourth world with a link to the first was there and is cut off.
fn chain(alloc: Global) -> Result<Fragment, AllocError>
    ensures count { IfOk result (λ fragment. length fragment.worlds ≡ 3) }
    ensures items { IfOk result (λ fragment. (t : Table) → 3 < item_count t → HasItemsOf t fragment) }
{
    let mut fragment = Fragment::new(alloc);
    grow(&mut fragment, None, 3)?;
    grow(&mut fragment, Some(0), 0)?;
    grow(&mut fragment, Some(1), 1)?;
    grow(&mut fragment, Some(2), 1)?;
    fragment.link(2, 1)?;
    fragment.link(3, 0)?;
    fragment.cut(3);
    Ok(fragment)
}

/// The rows of the model that the chain makes in the logic, over the closure of `box p` in K.
pub fn chain_line(alloc: Global, logic: Logic) -> Result<String, Unanswered> {
    let mut pool = Pool::new(alloc);
    let goal = entered(alloc, &mut pool, b"box p")?;
    let table = closure(alloc, &mut pool, Logic::K, goal)?;
    if table.count() != 2 {
        return Err(Unanswered);
    }
    let model = chain(alloc)?.close(&table, &pool, logic)?;
    Ok(rows_text(alloc, &model)?)
}
