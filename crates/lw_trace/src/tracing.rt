ghost use Rattle.std.specs.Prelude.{◌≡◌, ◌≤◌, IfOk, IfErr, OnOk};
ghost use Rattle.lw_formula.specs.Formula.{subformula_count};
ghost use Rattle.lw_pool.specs.Region.{tree_at, IsLive};
ghost use Rattle.lw_closure.specs.declared.fault.TheConstants.{SUBFORMULA_LIMIT};
ghost use Rattle.lw_trace.specs.LetterlessTruth.{IsLetterless, trace_of};
ghost use Rattle.lw_trace.specs.TraceFaults.{IsWithinLimit, IsFaultOf};

use crate::fault::TraceFault;
use crate::truth_by_height::Trace;
use crate::truth_rows::truth_row;
use lw_closure::SUBFORMULA_LIMIT;
use lw_pool::{FormId, Pool};
use std::alloc::Global;

/// The truth of a formula without variables at the worlds of GL's models, which depends on a world's height alone: 0
/// where it sees none, and else one more than the greatest height that it sees (Boolos, The Logic of Provability,
/// chapter 7). The formula is valid in GL exactly where the trace is yes with no exceptions.
///
/// `NotLetterless` comes exactly where the formula has a variable, and names the first in byte order. `TooLarge` comes
/// exactly where it has none, and more distinct subformulas than the limit; it counts them. `Memory` comes for want of
/// memory alone.
///
/// The work is a truth value for each distinct subformula at each height up to the modal depth.
pub fn trace(alloc: Global, pool: &Pool, id: FormId) -> Result<Trace, TraceFault>
    requires { IsLive pool.now id }
    ensures trace { IfOk result (λ trace. trace ≡ trace_of (tree_at pool.now id)) }
    ensures allowed { OnOk result (IsWithinLimit (tree_at pool.now id)) }
    ensures refused { IfErr result (IsFaultOf (tree_at pool.now id)) }
{
    check_letterless(pool, id)?;
    check_size(pool, id)?;
    let depth = pool.modal_depth(id)?;
    let row = truth_row(alloc, pool, id, depth + 1)?;
    Ok(Trace::read_off(alloc, &row, depth)?)
}

/// Refuses a formula that has variables, with the first of them.
fn check_letterless(pool: &Pool, id: FormId) -> Result<(), TraceFault>
    requires { IsLive pool.now id }
    ensures letterless { OnOk result (IsLetterless (tree_at pool.now id)) }
    ensures refused { IfErr result (IsFaultOf (tree_at pool.now id)) }
{
    let names = pool.variables(id)?;
    match names.first() {
        Some(name) => Err(TraceFault::NotLetterless {
            name: name.try_clone()?,
        }),
        None => Ok(()),
    }
}

/// Refuses a formula without variables that has too many distinct subformulas.
fn check_size(pool: &Pool, id: FormId) -> Result<(), TraceFault>
    requires live { IsLive pool.now id }
    requires letterless { IsLetterless (tree_at pool.now id) }
    ensures few { OnOk result (subformula_count (tree_at pool.now id) ≤ SUBFORMULA_LIMIT) }
    ensures refused { IfErr result (IsFaultOf (tree_at pool.now id)) }
{
    let count = pool.subformulas(id)?.len();
    if count > SUBFORMULA_LIMIT {
        return Err(TraceFault::TooLarge { count });
    }
    Ok(())
}
