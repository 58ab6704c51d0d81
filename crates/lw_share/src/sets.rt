ghost use Rattle.std.specs.Prelude.{◌≡◌, ◌↔◌, IsTrue, IfOk, List, [], ◌∷◌, length};
ghost use Rattle.lw_formula.specs.Formula.{Formula};
ghost use Rattle.lw_pool.specs.Region.{AreBothBelow};
ghost use Rattle.lw_proof.specs.System.{IsWithin};
ghost use Rattle.lw_sets.specs.IdSets.{set_of, AreLive, with_side};
ghost use Rattle.lw_share.specs.Private.PremiseLists.{HaveOneSet, AreAsLive};

use lw_formula::Sign;
use lw_pool::{FormId, Pool, SignedId};
use lw_proof::SignedIds;
use lw_sets::{add_side, has};
use std::alloc::{AllocError, Global};

/// The set of the ids.
pub(crate) fn collected(alloc: Global, items: &[SignedId]) -> Result<SignedIds, AllocError>
    ensures set { IfOk result (HaveOneSet items.now) }
    ensures live { IfOk result (AreAsLive items.now) }
{
    let mut set = SignedIds::new(alloc);
    for item in items {
        set.add(*item)?;
    }
    Ok(set)
}

/// The set of the ids with the components of one side.
pub(crate) fn extended(
    alloc: Global,
    items: &SignedIds,
    side: (SignedId, Option<SignedId>),
) -> Result<SignedIds, AllocError>
    ensures set { IfOk result (λ set. (ts : List Formula) → set_of ts set ≡ with_side items.now side ts) }
    ensures live { IfOk result (λ set. (ts : List Formula) → AreLive ts items.now → AreBothBelow (length ts) side → AreLive ts set) }
{
    let mut set = collected(alloc, items.as_slice())?;
    add_side(&mut set, side)?;
    Ok(set)
}

/// Whether the set of the ids has no member that the other set lacks.
pub(crate) fn is_within(pool: &Pool, items: &[SignedId], set: &SignedIds) -> bool
    requires items { AreLive pool.now items.now }
    requires set { AreLive pool.now set.now }
    ensures { IsTrue result ↔ IsWithin (set_of pool.now items.now) (set_of pool.now set.now) }
{
    for item in items {
        if !has(pool, set, *item) {
            return false;
        }
    }
    true
}

/// The set of the goal under F alone.
pub(crate) fn only(alloc: Global, goal: FormId) -> Result<SignedIds, AllocError>
    ensures { IfOk result (λ set. set ≡ record { sign = Sign.F; form = goal } ∷ []) }
{
    let mut set = SignedIds::new(alloc);
    set.add(SignedId {
        sign: Sign::F,
        form: goal,
    })?;
    Ok(set)
}
