ghost use Rattle.std.specs.Prelude.{◌≡◌, ◌≤◌, IfErr, IfOk, OnOk};
ghost use Rattle.lw_formula.specs.Formula.{subformula_count};
ghost use Rattle.lw_pool.specs.Region.{tree_at, Grows, IsLive};
ghost use Rattle.lw_closure.specs.Keeps.{Keeps};
ghost use Rattle.lw_counter.specs.Answers.{IsAnswerTo};
ghost use Rattle.lw_decide.specs.Decided.{TellsValidity};
ghost use Rattle.lw_decide.specs.Fault.{IsFault};

use crate::fault::DecideFault;
use lw_closure::{Closure, SUBFORMULA_LIMIT, closure};
use lw_counter::Answer;
use lw_formula::Logic;
use lw_gl::search_gl;
use lw_grz::search_grz;
use lw_k::search_k;
use lw_pool::{FormId, Pool};
use lw_s4::{search_k4, search_s4};
use lw_s5::search_s5;
use std::alloc::{AllocError, Global};

/// A proof of the goal in the logic, or a model that refutes it. Where the goal has too many distinct subformulas, the
/// pool is as before; else formulas may have been put into it.
pub fn decide(
    alloc: Global,
    pool: &mut Pool,
    logic: Logic,
    goal: FormId,
) -> Result<Answer, DecideFault>
    requires live { IsLive pool.old goal }
    ensures grows { Grows pool.old pool.new }
    ensures answer { IfOk result (IsAnswerTo logic pool.new (tree_at pool.old goal)) }
    ensures validity { IfOk result (TellsValidity logic (tree_at pool.old goal)) }
    ensures few { OnOk result (subformula_count (tree_at pool.old goal) ≤ SUBFORMULA_LIMIT) }
    ensures fault { IfErr result (IsFault pool.old pool.new goal) }
{
    let table = closure(alloc, pool, logic, goal)?;
    Ok(searched(alloc, pool, &table, logic)?)
}

/// What the logic's search finds.
fn searched(alloc: Global, pool: &Pool, table: &Closure, logic: Logic) -> Result<Answer, AllocError>
    requires logic { table.now.logic ≡ logic }
    requires keeps { Keeps pool.now table.now }
    ensures { IfOk result (IsAnswerTo logic pool.now (tree_at pool.now table.now.goal)) }
{
    match logic {
        Logic::K | Logic::KT | Logic::KD => search_k(alloc, pool, table, logic),
        Logic::S4 => search_s4(alloc, pool, table),
        Logic::K4 => search_k4(alloc, pool, table),
        Logic::S5 => search_s5(alloc, pool, table),
        Logic::GL => search_gl(alloc, pool, table),
        Logic::Grz => search_grz(alloc, pool, table),
    }
}
