ghost use Rattle.std.specs.Prelude.{IfOk};
ghost use Rattle.lw_pool.specs.Region.{tree_at};
ghost use Rattle.lw_closure.specs.Keeps.{Keeps};
ghost use Rattle.lw_counter.specs.Answers.{IsAnswerTo};
ghost use Rattle.lw_search.specs.Outcome.{BoundedOutcomeFits};

use crate::outcome::Outcome;
use lw_closure::Closure;
use lw_counter::Answer;
use lw_pool::Pool;
use std::alloc::AllocError;

/// The answer that the outcome of a search makes: its proof, or the model of its fragment, whose world 0 refutes the goal.
/// It fails for want of memory alone.
pub fn answer(pool: &Pool, closure: &Closure, outcome: Outcome) -> Result<Answer, AllocError>
    requires keeps { Keeps pool.now closure.now }
    requires fits { BoundedOutcomeFits pool.now closure.now outcome }
    ensures { IfOk result (IsAnswerTo closure.now.logic pool.now (tree_at pool.now closure.now.goal)) }
{
    match outcome {
        Outcome::Closed(proof) => Ok(Answer::Yes(proof)),
        Outcome::Open(fragment) => {
            let model = fragment.close(closure, pool, closure.logic())?;
            Ok(Answer::No(model, 0))
        }
    }
}
