ghost use Rattle.std.specs.Prelude.{OnOk, IfOk};
ghost use Rattle.lw_sets.specs.IdSets.{AreLive, AddsAll, IsKept};
ghost use Rattle.lw_sets.specs.Private.KeptIds.{kept_by};

use lw_formula::{Logic, Parts};
use lw_pool::{Pool, SignedId};
use lw_proof::SignedIds;
use std::alloc::AllocError;

/// What a step to another world keeps of the set. It fails for want of memory alone.
pub fn kept_items(pool: &Pool, logic: Logic, items: &SignedIds) -> Result<SignedIds, AllocError>
    requires { AreLive pool.now items.now }
    ensures kept { IfOk result (IsKept logic pool.now items.now) }
    ensures live { IfOk result (AreLive pool.now) }
{
    let mut kept = SignedIds::new(items.allocator());
    for item in items.as_slice() {
        keep(&mut kept, logic, *item, pool.parts(*item))?;
    }
    Ok(kept)
}

/// Adds what a step keeps on account of one item, which comes to these parts.
fn keep(
    kept: &mut SignedIds,
    logic: Logic,
    item: SignedId,
    parts: Parts<SignedId>,
) -> Result<(), AllocError>
    ensures { OnOk result (AddsAll kept.old kept.new (kept_by logic item parts)) }
{
    match (logic, parts) {
        (Logic::K | Logic::KT | Logic::KD, Parts::Nu(part)) => kept.add(part),
        (Logic::S4 | Logic::S5 | Logic::Grz, Parts::Nu(_)) | (Logic::S5, Parts::Pi(_)) => {
            kept.add(item)
        }
        (Logic::GL | Logic::K4, Parts::Nu(part)) => {
            kept.add(item)?;
            kept.add(part)
        }
        (
            Logic::K
            | Logic::KT
            | Logic::S4
            | Logic::S5
            | Logic::GL
            | Logic::Grz
            | Logic::K4
            | Logic::KD,
            _,
        ) => Ok(()),
    }
}
