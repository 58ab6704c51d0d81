ghost use Rattle.std.specs.Prelude.{◌≡◌, ◌≤◌, IfErr, IfOk, OnOk};
ghost use Rattle.lw_formula.specs.Formula.{subformula_count};
ghost use Rattle.lw_pool.specs.Region.{tree_at, Grows, IsLive};
ghost use Rattle.lw_closure.specs.Fault.{IsFault};
ghost use Rattle.lw_closure.specs.Keeps.{Keeps};

use crate::entries::entries;
use crate::fault::{ClosureFault, SUBFORMULA_LIMIT};
use crate::guard::add_guards;
use crate::numbering::numbering;
use crate::table::Closure;
use lw_formula::Logic;
use lw_pool::{FormId, Pool};
use std::alloc::Global;

/// The closure of the goal: its subformulas, and in Grz the guards of its modal subformulas, which are put into the
/// pool. Where the goal has too many distinct subformulas, the pool is as before.
pub fn closure(
    alloc: Global,
    pool: &mut Pool,
    logic: Logic,
    goal: FormId,
) -> Result<Closure, ClosureFault>
    requires { IsLive pool.old goal }
    ensures grows { Grows pool.old pool.new }
    ensures kept { IfOk result (Keeps pool.new) }
    ensures asked { IfOk result (λ table. (table.logic ≡ logic) × (table.goal ≡ goal)) }
    ensures few { OnOk result (subformula_count (tree_at pool.old goal) ≤ SUBFORMULA_LIMIT) }
    ensures fault { IfErr result (IsFault pool.old pool.new goal) }
{
    let own = pool.subformulas(goal)?;
    if own.len() > SUBFORMULA_LIMIT {
        return Err(ClosureFault::TooLarge { count: own.len() });
    }
    // a pool that counts its formulas tells that operands stand below
    let _ = pool.count();
    let mut forms = numbering(alloc, &own)?;
    let guards = add_guards(alloc, pool, logic, &mut forms)?;
    let entries = entries(alloc, pool, &forms, &guards)?;
    Ok(Closure::new(logic, goal, forms, entries))
}
