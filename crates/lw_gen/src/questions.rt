ghost use Rattle.std.specs.Prelude.{◌≡◌, ◌≤◌, IfOk};
ghost use Rattle.lw_formula.specs.Formula.{subformula_count};
ghost use Rattle.lw_formula.specs.Validity.{Valid};
ghost use Rattle.lw_closure.specs.declared.fault.TheConstants.{SUBFORMULA_LIMIT};
ghost use Rattle.lw_pool.specs.Region.{tree_at, IsLive, Grows};
ghost use Rattle.lw_gen.specs.Families.{family_formula};
ghost use Rattle.lw_gen.specs.Counts.{Scores, CountsLogics, CountsValid, IsSummary};

use crate::counts::Summary;
use crate::families::Family;
use crate::formulas::family;
use lw_counter::Answer;
use lw_decide::{DecideFault, decide};
use lw_formula::Logic;
use lw_pool::{FormId, Pool};
use std::alloc::{AllocError, Global};

const LOGICS: [Logic; 6] = [
    Logic::K,
    Logic::KT,
    Logic::S4,
    Logic::S5,
    Logic::GL,
    Logic::Grz,
];

const FAMILIES: [Family; 4] = [
    Family::Transitive,
    Family::Reflexive,
    Family::Loeb,
    Family::Coded,
];

/// How many of the families' formulas for the numbers from 1 to n are valid, each asked of each of K, KT, S4, S5, GL
/// and Grz; n is at most 100. It fails for want of memory alone. After either answer the pool has what it had, and
/// perhaps formulas above.
pub fn summary(alloc: Global, pool: &mut Pool, n: u64) -> Result<Summary, AllocError>
    requires least { 1 ≤ n }
    requires most { n ≤ 100 }
    ensures summary { IfOk result (IsSummary n) }
    ensures grows { Grows pool.old pool.new }
{
    let mut yes = 0;
    for i in 0..n {
        yes += count_for_number(alloc, pool, i + 1)?;
    }
    let asked = 24 * n;
    Ok(Summary {
        asked,
        yes,
        no: asked - yes,
    })
}

/// How many of the number's formulas are valid, each asked of each logic.
fn count_for_number(alloc: Global, pool: &mut Pool, i: u64) -> Result<u64, AllocError>
    requires least { 1 ≤ i }
    requires most { i ≤ 100 }
    ensures count { IfOk result (CountsValid i) }
    ensures few { IfOk result (λ count. count ≤ 24) }
    ensures grows { Grows pool.old pool.new }
{
    let mut yes = 0;
    for which in &FAMILIES {
        yes += count_in_logics(alloc, pool, *which, i)?;
    }
    Ok(yes)
}

/// In how many logics the family's formula for the number is valid.
fn count_in_logics(alloc: Global, pool: &mut Pool, which: Family, i: u64) -> Result<u64, AllocError>
    requires least { 1 ≤ i }
    requires most { i ≤ 100 }
    ensures count { IfOk result (CountsLogics i which) }
    ensures few { IfOk result (λ count. count ≤ 6) }
    ensures grows { Grows pool.old pool.new }
{
    let goal = family(alloc, pool, which, i)?;
    let mut yes = 0;
    for logic in &LOGICS {
        yes += score(alloc, pool, *logic, goal)?;
    }
    Ok(yes)
}

/// 1 where the formula is valid in the logic, and 0 where it isn't.
fn score(alloc: Global, pool: &mut Pool, logic: Logic, goal: FormId) -> Result<u64, AllocError>
    requires live { IsLive pool.old goal }
    requires few { subformula_count (tree_at pool.old goal) ≤ SUBFORMULA_LIMIT }
    ensures score { IfOk result (Scores (Valid logic (tree_at pool.old goal))) }
    ensures few { IfOk result (λ score. score ≤ 1) }
    ensures grows { Grows pool.old pool.new }
{
    match decide(alloc, pool, logic, goal) {
        Ok(Answer::Yes(_)) => Ok(1),
        Ok(Answer::No(_, _)) => Ok(0),
        Err(DecideFault::Memory) => Err(AllocError),
        Err(DecideFault::TooLarge { .. }) => unreachable!(),
    }
}
