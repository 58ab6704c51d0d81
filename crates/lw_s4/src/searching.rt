ghost use Rattle.std.specs.Prelude.{◌≡◌, IfOk};
ghost use Rattle.lw_pool.specs.Region.{tree_at};
ghost use Rattle.lw_closure.specs.Keeps.{Keeps};
ghost use Rattle.lw_counter.specs.Answers.{IsAnswerTo};

use crate::steps::LinkedSteps;
use lw_closure::Closure;
use lw_counter::Answer;
use lw_formula::Logic;
use lw_pool::Pool;
use lw_search::search;
use std::alloc::{AllocError, Global};

/// A proof of the closure's goal in S4, or a model that refutes it. The closure is one that was made for S4, and the
/// pool has kept its formulas. It fails for want of memory alone.
pub fn search_s4(alloc: Global, pool: &Pool, closure: &Closure) -> Result<Answer, AllocError>
    requires logic { closure.now.logic ≡ Logic.S4 }
    requires keeps { Keeps pool.now closure.now }
    ensures { IfOk result (IsAnswerTo Logic.S4 pool.now (tree_at pool.now closure.now.goal)) }
{
    search(alloc, pool, closure, &LinkedSteps::<true>)
}

/// A proof of the closure's goal in K4, or a model that refutes it. The closure is one that was made for K4, and the
/// pool has kept its formulas. It fails for want of memory alone.
pub fn search_k4(alloc: Global, pool: &Pool, closure: &Closure) -> Result<Answer, AllocError>
    requires logic { closure.now.logic ≡ Logic.K4 }
    requires keeps { Keeps pool.now closure.now }
    ensures { IfOk result (IsAnswerTo Logic.K4 pool.now (tree_at pool.now closure.now.goal)) }
{
    search(alloc, pool, closure, &LinkedSteps::<false>)
}
