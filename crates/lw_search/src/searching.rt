ghost use Rattle.std.specs.Prelude.{◌≡◌, IfOk};
ghost use Rattle.lw_pool.specs.Region.{tree_at};
ghost use Rattle.lw_closure.specs.Keeps.{Keeps};
ghost use Rattle.lw_counter.specs.Answers.{IsAnswerTo};
ghost use Rattle.lw_search.specs.Ranked.{IsRanked};

use crate::answering::answer;
use crate::explore::explore;
use crate::rule::StepRule;
use lw_closure::Closure;
use lw_counter::Answer;
use lw_pool::Pool;
use std::alloc::{AllocError, Global};

/// A proof of the closure's goal in the rule's logic, or a model that refutes it, by a tableau search with the rule's
/// steps (Goré, Tableau methods for modal and temporal logics). The closure is one that was made for the logic, and the
/// pool has kept its formulas. It fails for want of memory alone.
pub fn search<R: StepRule>(
    alloc: Global,
    pool: &Pool,
    closure: &Closure,
    rule: &R,
) -> Result<Answer, AllocError>
    requires logic { closure.now.logic ≡ R.logic }
    requires keeps { Keeps pool.now closure.now }
    requires ranked { IsRanked R.logic R.suffice R.bound }
    ensures { IfOk result (IsAnswerTo R.logic pool.now (tree_at pool.now closure.now.goal)) }
{
    let outcome = explore(alloc, pool, closure, rule)?;
    answer(pool, closure, outcome)
}
