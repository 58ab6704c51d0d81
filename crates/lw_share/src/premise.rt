ghost use Rattle.std.specs.Prelude.{IfOk, List, length};
ghost use Rattle.lw_formula.specs.Formula.{Formula};
ghost use Rattle.lw_pool.specs.Region.{IsLive, Grows, AreBothBelow};
ghost use Rattle.lw_sets.specs.IdSets.{AreLive};
ghost use Rattle.lw_share.specs.Private.PremiseLists.{AreAllLive, AreBoth, ArePremises};

use crate::sets::extended;
use lw_formula::{Logic, Parts};
use lw_pool::{Pool, SignedId};
use lw_proof::{Rule, SignedIds};
use lw_sets::{kept_items, stepped};
use std::alloc::{AllocError, Global};

/// The sets that the rule on the item leaves to be closed, where the items are to be closed; none where the rule takes no
/// such item.
// out of line, so that the frames of the walk over a proof, one for each step above, stay small
#[inline(never)]
pub(crate) fn premises(
    alloc: Global,
    pool: &mut Pool,
    logic: Logic,
    items: &SignedIds,
    rule: Rule,
    item: SignedId,
) -> Result<Vec<SignedIds>, AllocError>
    requires items { AreLive pool.old items.now }
    requires item { IsLive pool.old item.form }
    ensures sets { IfOk result (λ sets. ArePremises logic pool.new rule item items.now sets.items) }
    ensures live { IfOk result (λ sets. AreAllLive pool.new sets.items) }
    ensures grows { Grows pool.old pool.new }
{
    match (rule, pool.parts(item)) {
        (Rule::One, Parts::One(first, second)) => {
            let set = extended(alloc, items, (first, second))?;
            Ok(vec![in alloc; set]?)
        }
        (Rule::Two, Parts::Two(one, other)) => both(alloc, items, one, other),
        (Rule::Refl, Parts::Nu(part)) => {
            let set = extended(alloc, items, (part, None))?;
            Ok(vec![in alloc; set]?)
        }
        (Rule::Step, Parts::Pi(part)) => {
            let set = stepped(pool, logic, items, item, part)?;
            Ok(vec![in alloc; set]?)
        }
        (Rule::Serial, Parts::Nu(_)) => {
            let set = kept_items(pool, logic, items)?;
            Ok(vec![in alloc; set]?)
        }
        (Rule::Cut, _) => both(alloc, items, (item, None), (item.flip(), None)),
        (
            Rule::Close
            | Rule::Absurd
            | Rule::One
            | Rule::Two
            | Rule::Refl
            | Rule::Step
            | Rule::Serial,
            _,
        ) => Ok(Vec::new(alloc)),
    }
}

/// The set with the components of the one side, and that with the other's.
fn both(
    alloc: Global,
    items: &SignedIds,
    one: (SignedId, Option<SignedId>),
    other: (SignedId, Option<SignedId>),
) -> Result<Vec<SignedIds>, AllocError>
    ensures sets { IfOk result (λ sets. AreBoth items.now one other sets.items) }
    ensures live { IfOk result (λ sets. (ts : List Formula) → AreLive ts items.now →
        AreBothBelow (length ts) one → AreBothBelow (length ts) other → AreAllLive ts sets.items) }
{
    let one = extended(alloc, items, one)?;
    let other = extended(alloc, items, other)?;
    Ok(vec![in alloc; one, other]?)
}
