ghost use Rattle.std.specs.Prelude.{IfOk, IfSome};
ghost use Rattle.lw_pool.specs.Region.{IsLive, Grows};
ghost use Rattle.lw_sets.specs.IdSets.{AreLive, IsStepSet};
ghost use Rattle.lw_sets.specs.Private.Companions.{IsCompanion};

use crate::kept::kept_items;
use crate::members::add_side;
use lw_formula::Logic;
use lw_pool::{Pool, SignedId};
use lw_proof::SignedIds;
use std::alloc::AllocError;

/// What the step on the π `item`, whose component is `part`, leaves to be closed of the set: what it keeps, the component,
/// and what the logic adds. It fails for want of memory alone. After every answer the pool has what it had, and perhaps
/// formulas above.
pub fn stepped(
    pool: &mut Pool,
    logic: Logic,
    items: &SignedIds,
    item: SignedId,
    part: SignedId,
) -> Result<SignedIds, AllocError>
    requires items { AreLive pool.old items.now }
    requires item { IsLive pool.old item.form }
    requires part { IsLive pool.old part.form }
    ensures set { IfOk result (IsStepSet logic pool.new item part items.now) }
    ensures live { IfOk result (AreLive pool.new) }
    ensures grows { Grows pool.old pool.new }
{
    let mut left = kept_items(pool, logic, items)?;
    let companion = companion(pool, logic, item)?;
    add_side(&mut left, (part, companion))?;
    Ok(left)
}

/// What a step adds beside the component of its π.
fn companion(pool: &mut Pool, logic: Logic, item: SignedId) -> Result<Option<SignedId>, AllocError>
    requires { IsLive pool.old item.form }
    ensures added { IfOk result (IsCompanion logic pool.new item) }
    ensures live { IfOk result (λ o. IfSome o (λ x. IsLive pool.new x.form)) }
    ensures grows { Grows pool.old pool.new }
{
    match logic {
        Logic::K | Logic::KT | Logic::S4 | Logic::S5 | Logic::K4 | Logic::KD => Ok(None),
        Logic::GL => Ok(Some(item.flip())),
        Logic::Grz => pool.guard(item),
    }
}
