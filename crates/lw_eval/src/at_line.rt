ghost use Rattle.std.specs.Prelude.{◌≡◌, List, IfOk};
ghost use Rattle.lw_formula.specs.Formula.{Formula};
ghost use Rattle.lw_pool.specs.Region.{Grows};
ghost use Rattle.lw_ast.specs.ScriptViews.{expression};
ghost use Rattle.lw_value.specs.Values.{vals, seen_all, AreItemsLive};
ghost use Rattle.lw_value.specs.Evidence.{HaveEvidence};
ghost use Rattle.lw_value.specs.Assignments.{variables_seen, AreVariablesLive};
ghost use Rattle.lw_eval.specs.Evaluations.{Is};
ghost use Rattle.lw_eval.specs.Operands.{number_in, list_in, both};
ghost use Rattle.lw_eval.specs.Expressions.{Eval};
ghost use Rattle.lw_eval.specs.Runs.{Bounds};
ghost use Rattle.lw_eval.specs.Private.Given.{IsLiveIn, shown_in};
ghost use Rattle.lw_eval.specs.Private.Carried.{Condition, ListOf, GivesAt, IsFaultAt};

use crate::eval::{eval, eval_pair, eval_test};
use crate::fault::EvalFault;
use crate::run_fault::RunFault;
use crate::trouble::Trouble;
use lw_ast::Expr;
use lw_pool::Pool;
use lw_value::{Env, Items, Value};
use std::alloc::Global;

/// The fault of the run where an expression of the statement at this line has none but this.
pub fn at_line(line: usize, fault: EvalFault) -> RunFault
    ensures { IsFaultAt line fault result }
{
    match fault {
        EvalFault::Troubled(trouble) => RunFault::Stopped { line, trouble },
        EvalFault::Memory => RunFault::Memory,
    }
}

/// What the expression of the statement at this line comes to.
#[tactic(auto, using(lw_value::proofs::GrowingPools::variables_seen_grow, lw_value::proofs::GrowingPools::variables_live_grow))]
pub fn value_at(
    alloc: Global,
    line: usize,
    expr: &Expr,
    pool: &mut Pool,
    env: &Env,
) -> Result<Value, RunFault>
    requires live { AreVariablesLive pool.old env.now }
    requires evidence { HaveEvidence (variables_seen pool.old env.now) }
    ensures value { GivesAt line (shown_in pool.new) (Eval (variables_seen pool.old env.now) (expression expr.now)) result }
    ensures live { IfOk result (IsLiveIn pool.new) }
    ensures same { variables_seen pool.new env.now ≡ variables_seen pool.old env.now }
    ensures kept { AreVariablesLive pool.new env.now }
    ensures grows { Grows pool.old pool.new }
{
    match eval(alloc, expr, pool, env) {
        Ok(value) => Ok(value),
        Err(fault) => Err(at_line(line, fault)),
    }
}

/// What the condition of the statement at this line comes to.
#[tactic(auto, using(lw_value::proofs::GrowingPools::variables_seen_grow, lw_value::proofs::GrowingPools::variables_live_grow))]
pub fn test_at(
    alloc: Global,
    line: usize,
    expr: &Expr,
    pool: &mut Pool,
    env: &Env,
) -> Result<bool, RunFault>
    requires live { AreVariablesLive pool.old env.now }
    requires evidence { HaveEvidence (variables_seen pool.old env.now) }
    ensures value { GivesAt line (λ b. b) (Condition (expression expr.now) (variables_seen pool.old env.now)) result }
    ensures same { variables_seen pool.new env.now ≡ variables_seen pool.old env.now }
    ensures kept { AreVariablesLive pool.new env.now }
    ensures grows { Grows pool.old pool.new }
{
    match eval_test(alloc, expr, pool, env) {
        Ok(test) => Ok(test),
        Err(fault) => Err(at_line(line, fault)),
    }
}

/// The bounds of the `for` at this line.
#[tactic(auto, using(lw_value::proofs::GrowingPools::variables_seen_grow, lw_value::proofs::GrowingPools::variables_live_grow))]
pub fn bounds_at(
    alloc: Global,
    line: usize,
    from: &Expr,
    to: &Expr,
    pool: &mut Pool,
    env: &Env,
) -> Result<(u64, u64), RunFault>
    requires live { AreVariablesLive pool.old env.now }
    requires evidence { HaveEvidence (variables_seen pool.old env.now) }
    ensures value { GivesAt line (λ n. n)
        (Bounds (expression from.now) (expression to.now) (variables_seen pool.old env.now)) result }
    ensures same { variables_seen pool.new env.now ≡ variables_seen pool.old env.now }
    ensures kept { AreVariablesLive pool.new env.now }
    ensures grows { Grows pool.old pool.new }
{
    match eval_pair(alloc, from, to, pool, env) {
        Ok((from, to)) => numbers(line, &from, &to),
        Err(fault) => Err(at_line(line, fault)),
    }
}

/// Two numbers, which the statement at this line needs.
fn numbers(line: usize, from: &Value, to: &Value) -> Result<(u64, u64), RunFault>
    ensures { (ts : List Formula) →
        GivesAt line (λ n. n) (Is (both (number_in (shown_in ts from.now)) (number_in (shown_in ts to.now)))) result }
{
    match (from, to) {
        (Value::Number(from), Value::Number(to)) => Ok((*from, *to)),
        _ => Err(RunFault::Stopped {
            line,
            trouble: Trouble::Kind,
        }),
    }
}

/// The list of the `for` at this line.
#[tactic(auto, using(lw_value::proofs::GrowingPools::variables_seen_grow, lw_value::proofs::GrowingPools::variables_live_grow))]
pub fn list_at(
    alloc: Global,
    line: usize,
    expr: &Expr,
    pool: &mut Pool,
    env: &Env,
) -> Result<Items, RunFault>
    requires live { AreVariablesLive pool.old env.now }
    requires evidence { HaveEvidence (variables_seen pool.old env.now) }
    ensures value { GivesAt line (λ vs. seen_all pool.new (vals vs))
        (ListOf (expression expr.now) (variables_seen pool.old env.now)) result }
    ensures live { IfOk result (λ vs. AreItemsLive pool.new (vals vs)) }
    ensures same { variables_seen pool.new env.now ≡ variables_seen pool.old env.now }
    ensures kept { AreVariablesLive pool.new env.now }
    ensures grows { Grows pool.old pool.new }
{
    match eval(alloc, expr, pool, env) {
        Ok(value) => items(line, value),
        Err(fault) => Err(at_line(line, fault)),
    }
}

/// A list, which the statement at this line needs.
fn items(line: usize, value: Value) -> Result<Items, RunFault>
    ensures list { (ts : List Formula) → GivesAt line (λ vs. seen_all ts (vals vs)) (Is (list_in (shown_in ts value))) result }
    ensures live { (ts : List Formula) → IsLiveIn ts value → IfOk result (λ vs. AreItemsLive ts (vals vs)) }
{
    match value {
        Value::Items(items) => Ok(items),
        _ => Err(RunFault::Stopped {
            line,
            trouble: Trouble::Kind,
        }),
    }
}
