ghost use Rattle.std.specs.Prelude.{IfOk, IfErr, OnOk};
ghost use Rattle.lw_pool.specs.Region.{tree_at, IsLive, IsAt, Grows};
ghost use Rattle.lw_fix.specs.FixedPoint.{fix};
ghost use Rattle.lw_fix.specs.FixFaults.{IsWithinLimit, IsFaultOf};

use crate::bare::stands_bare;
use crate::construction::construct;
use crate::fault::FixFault;
use crate::outermost::outermost;
use lw_formula::Name;
use lw_pool::{FormId, Pool};
use std::alloc::Global;

/// How many outermost modal subformulas with the variable a formula may have.
pub const BOX_LIMIT: usize = 10;

/// The id of the formula's fixed point for the variable in GL, after de Jongh and Sambin, built in Boolos's way. It has
/// only other variables of the formula, and in GL it is equivalent to the formula with it for the variable.
///
/// `NotModalised` comes exactly where an occurrence of the variable is under neither `box` nor `dia`. `TooManyBoxes`
/// comes exactly where each is, and there are more than 10 distinct `box` and `dia` formulas with the variable that
/// stand under no other; it counts them. `Memory` comes for want of memory alone. After each answer the pool has what
/// it had, and perhaps formulas above.
///
/// The work is that of at most 2 to the power n formulas, one for each set of the n outermost modal subformulas, each
/// solved once and with at most n substitutions. Every walk is over this formula or one of its subformulas.
pub fn fixed_point(
    alloc: Global,
    pool: &mut Pool,
    name: &Name,
    formula: FormId,
) -> Result<FormId, FixFault>
    requires { IsLive pool.old formula }
    ensures at { IfOk result (IsAt pool.new (fix name.now (tree_at pool.old formula))) }
    ensures allowed { OnOk result (IsWithinLimit name.now (tree_at pool.old formula)) }
    ensures refused { IfErr result (IsFaultOf name.now (tree_at pool.old formula)) }
    ensures grows { Grows pool.old pool.new }
{
    let bare = stands_bare(alloc, pool, name, formula)?;
    if bare {
        return Err(FixFault::NotModalised);
    }
    let boxes = outermost(alloc, pool, name, formula)?;
    let count = boxes.len();
    if count > BOX_LIMIT {
        return Err(FixFault::TooManyBoxes { count });
    }
    Ok(construct(alloc, pool, name, formula, &boxes)?)
}
