ghost use Rattle.std.specs.Prelude.{◌≡◌, ◌⊎◌, IfOk};
ghost use Rattle.lw_pool.specs.Region.{tree_at};
ghost use Rattle.lw_closure.specs.Keeps.{Keeps};
ghost use Rattle.lw_counter.specs.Answers.{IsAnswerTo};
ghost use Rattle.lw_k.specs.Private.DepthLeft.{logic_of};

use crate::steps::Steps;
use lw_closure::Closure;
use lw_counter::Answer;
use lw_formula::Logic;
use lw_pool::Pool;
use lw_search::search;
use std::alloc::{AllocError, Global};

/// A proof of the closure's goal in K, KT or KD, or a model that refutes it. The closure is one that was made for the
/// logic, and the pool has kept its formulas. It fails for want of memory alone.
pub fn search_k(
    alloc: Global,
    pool: &Pool,
    closure: &Closure,
    logic: Logic,
) -> Result<Answer, AllocError>
    requires built { (logic ≡ Logic.K) ⊎ (logic ≡ Logic.KT) ⊎ (logic ≡ Logic.KD) }
    requires logic { closure.now.logic ≡ logic }
    requires keeps { Keeps pool.now closure.now }
    ensures { IfOk result (IsAnswerTo logic pool.now (tree_at pool.now closure.now.goal)) }
{
    match logic {
        Logic::K => search_by::<false, false>(alloc, pool, closure),
        Logic::KT => search_by::<true, false>(alloc, pool, closure),
        Logic::KD => search_by::<false, true>(alloc, pool, closure),
        Logic::S4 | Logic::S5 | Logic::GL | Logic::Grz | Logic::K4 => unreachable!(),
    }
}

/// The search in KT, whose worlds see themselves, else in KD, each of whose worlds sees one, or else in K.
fn search_by<const REFLEXIVE: bool, const SERIAL: bool>(
    alloc: Global,
    pool: &Pool,
    closure: &Closure,
) -> Result<Answer, AllocError>
    requires logic { closure.now.logic ≡ logic_of REFLEXIVE SERIAL }
    requires keeps { Keeps pool.now closure.now }
    ensures { IfOk result (IsAnswerTo (logic_of REFLEXIVE SERIAL) pool.now (tree_at pool.now closure.now.goal)) }
{
    search(alloc, pool, closure, &Steps::<REFLEXIVE, SERIAL>)
}
