ghost use Rattle.std.specs.Prelude.{◌≡◌, ◌<◌, [], ◌∷◌, IfOk};
ghost use Rattle.lw_formula.specs.declared.logic.Logic.TheVariants.{S5};
ghost use Rattle.lw_pool.specs.Region.{tree_at};
ghost use Rattle.lw_closure.specs.Keeps.{Keeps};
ghost use Rattle.lw_closure.specs.Table.{item_count};
ghost use Rattle.lw_counter.specs.Answers.{IsAnswerTo};
ghost use Rattle.lw_sat.specs.Sets.{among};
ghost use Rattle.lw_search.specs.Outcome.{IsOutcome};
ghost use Rattle.lw_s5.specs.Private.RootedSearch.{IsModalAlike};

use crate::obstacle::Obstacle;
use crate::root::surround;
use lw_closure::Closure;
use lw_counter::Answer;
use lw_formula::{Logic, Sign};
use lw_pool::{Pool, SignedId};
use lw_sat::{Found, Saturation};
use lw_search::{Outcome, answer};
use std::alloc::{AllocError, Global};

/// A proof of the closure's goal in S5, or a model of S5 that refutes it. The closure is one that was made for S5, and the
/// pool has kept its formulas. It fails for want of memory alone.
pub fn search_s5(alloc: Global, pool: &Pool, closure: &Closure) -> Result<Answer, AllocError>
    requires logic { closure.now.logic ≡ S5 }
    requires keeps { Keeps pool.now closure.now }
    ensures { IfOk result (IsAnswerTo S5 pool.now (tree_at pool.now closure.now.goal)) }
{
    let goal = SignedId {
        sign: Sign::F,
        form: closure.goal(),
    };
    match closure.number(goal) {
        Some(item) => {
            let outcome = explore(alloc, closure, item)?;
            answer(pool, closure, outcome)
        }
        // a closure has the formula that it was made for
        None => unreachable!(),
    }
}

// A proof that closes the set of the item alone, or an open fragment whose root has the item. Each label of the root is
// tried in turn: its children are found, or it is closed, or it is split on a modal formula that a child has met.
fn explore(alloc: Global, closure: &Closure, item: usize) -> Result<Outcome, AllocError>
    requires logic { closure.now.logic ≡ S5 }
    requires alike { IsModalAlike closure.now }
    requires item { item < item_count closure.now }
    ensures { IfOk result (IsOutcome closure.now 1 (among (item ∷ []))) }
{
    let mut root = Saturation::start(alloc, closure, Logic::S5, &[item])?;
    loop {
        match root.next(closure)? {
            Found::Closed(proof) => return Ok(Outcome::Closed(proof)),
            Found::Unclosed => {}
        }
        match surround(alloc, closure, &root) {
            Ok(fragment) => return Ok(Outcome::Open(fragment)),
            Err(Obstacle::Closed(proof)) => root.refuse(closure, proof)?,
            Err(Obstacle::Undecided(formula)) => root.split(closure, formula)?,
            Err(Obstacle::Memory) => return Err(AllocError),
        }
    }
}
