ghost use Rattle.std.specs.Prelude.{◌≡◌, OnOk};
ghost use Rattle.lw_pool.specs.Region.{IsLive, signed_at};
ghost use Rattle.lw_proof.specs.Derivation.{side};
ghost use Rattle.lw_sets.specs.IdSets.{set_of, AreLive, AddsAll};

use lw_pool::{Pool, SignedId};
use lw_proof::SignedIds;
use std::alloc::AllocError;

/// Whether the set has the item's signed formula. Ids of one pool are equal exactly where their formulas are.
pub fn has(pool: &Pool, items: &SignedIds, item: SignedId) -> bool
    requires items { AreLive pool.now items.now }
    requires item { IsLive pool.now item.form }
    ensures { result ≡ set_of pool.now items.now (signed_at pool.now item) }
{
    prove!(item.form.0 < pool.count());
    items.has(item)
}

/// Adds the components of one side: a first and perhaps a second. It fails for want of memory alone, and then the set may
/// have the first of them.
pub fn add_side(
    items: &mut SignedIds,
    added: (SignedId, Option<SignedId>),
) -> Result<(), AllocError>
    ensures { OnOk result (AddsAll items.old items.new (side added.0 added.1)) }
{
    let (first, second) = added;
    items.add(first)?;
    match second {
        Some(second) => items.add(second),
        None => Ok(()),
    }
}
