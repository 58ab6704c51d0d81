ghost use Rattle.std.specs.Prelude.{◌≡◌, IfOk};
ghost use Rattle.lw_pool.specs.Region.{Grows};
ghost use Rattle.lw_ast.specs.ScriptViews.{expression, expressions, operands};
ghost use Rattle.lw_value.specs.Values.{vals, seen_all, AreItemsLive};
ghost use Rattle.lw_value.specs.Evidence.{HaveEvidence};
ghost use Rattle.lw_value.specs.Assignments.{variables_seen, AreVariablesLive};
ghost use Rattle.lw_eval.specs.Evaluations.{Pair};
ghost use Rattle.lw_eval.specs.Operators.{Tests};
ghost use Rattle.lw_eval.specs.Expressions.{Eval, Evals};
ghost use Rattle.lw_eval.specs.Private.Remaining.{Series};
ghost use Rattle.lw_eval.specs.Private.Given.{Gives, IsLiveIn, shown_in};

use crate::call::call;
use crate::comparing::compared;
use crate::fault::EvalFault;
use crate::leaf::{text, variable};
use crate::operator::{calculated, joined, list_of, prefixed, truth_in};
use lw_ast::{Expr, Exprs, Prefix, Terms};
use lw_pool::{Node, Pool};
use lw_value::{Env, Items, Value};
use std::alloc::Global;

/// What the expression comes to, where the variables are these. It fails with the script's trouble, or for want of memory.
#[cycle(eval)]
#[tactic(auto, using(lw_value::proofs::GrowingPools::variables_live_grow, lw_value::proofs::GrowingPools::variables_seen_grow, lw_value::proofs::GrowingPools::variables_evidence_grows))]
pub fn eval(alloc: Global, expr: &Expr, pool: &mut Pool, env: &Env) -> Result<Value, EvalFault>
    requires live { AreVariablesLive pool.old env.now }
    requires evidence { HaveEvidence (variables_seen pool.old env.now) }
    ensures value { Gives (shown_in pool.new) (Eval (variables_seen pool.old env.now) (expression expr.now)) result }
    ensures live { IfOk result (IsLiveIn pool.new) }
    ensures grows { Grows pool.old pool.new }
{
    match expr {
        Expr::Number(number) => Ok(Value::Number(*number)),
        Expr::Text(bytes) => Ok(text(alloc, bytes)?),
        Expr::Truth(truth) => Ok(Value::Truth(*truth)),
        Expr::Nothing => Ok(Value::Nothing),
        Expr::Upper(name) => variable(name, env),
        Expr::Logic(logic) => Ok(Value::Logic(*logic)),
        Expr::Var(name) => Ok(Value::Formula(pool.make(Node::Var(name.try_clone()?))?)),
        Expr::Bot => Ok(Value::Formula(pool.make(Node::Bot)?)),
        Expr::Top => Ok(Value::Formula(pool.make(Node::Top)?)),
        Expr::Not(a) => prefixed(Prefix::Not, &eval(alloc, a, pool, env)?, pool),
        Expr::Nec(a) => prefixed(Prefix::Nec, &eval(alloc, a, pool, env)?, pool),
        Expr::Poss(a) => prefixed(Prefix::Poss, &eval(alloc, a, pool, env)?, pool),
        Expr::Binary(joint, a, b) => joined(*joint, &eval_pair(alloc, a, b, pool, env)?, pool),
        Expr::Sum(a, terms) => eval_series(alloc, a, terms, pool, env),
        Expr::Product(a, terms) => eval_series(alloc, a, terms, pool, env),
        Expr::Compare(relation, a, b) => {
            let operands = eval_pair(alloc, a, b, pool, env)?;
            compared(alloc, *relation, &operands, pool)
        }
        Expr::Deny(a) => Ok(Value::Truth(!eval_test(alloc, a, pool, env)?)),
        Expr::Both(a, b) => {
            if !eval_test(alloc, a, pool, env)? {
                return Ok(Value::Truth(false));
            }
            Ok(Value::Truth(eval_test(alloc, b, pool, env)?))
        }
        Expr::Either(a, b) => {
            if eval_test(alloc, a, pool, env)? {
                return Ok(Value::Truth(true));
            }
            Ok(Value::Truth(eval_test(alloc, b, pool, env)?))
        }
        Expr::List(items) => list_of(eval_all(alloc, items, pool, env)?),
        Expr::Call(function, arguments) => {
            let arguments = eval_all(alloc, arguments, pool, env)?;
            call(alloc, *function, arguments.as_slice(), pool)
        }
    }
}

/// What both expressions come to, the left one first.
#[cycle(eval)]
#[tactic(auto, using(lw_value::proofs::GrowingPools::variables_live_grow, lw_value::proofs::GrowingPools::variables_seen_grow, lw_value::proofs::GrowingPools::variables_evidence_grows))]
pub fn eval_pair(
    alloc: Global,
    left: &Expr,
    right: &Expr,
    pool: &mut Pool,
    env: &Env,
) -> Result<(Value, Value), EvalFault>
    requires live { AreVariablesLive pool.old env.now }
    requires evidence { HaveEvidence (variables_seen pool.old env.now) }
    ensures value { Gives (λ v. (shown_in pool.new v.0, shown_in pool.new v.1))
        (Pair (Eval (variables_seen pool.old env.now) (expression left.now))
        (Eval (variables_seen pool.old env.now) (expression right.now))) result }
    ensures live { IfOk result (λ v. IsLiveIn pool.new v.0 × IsLiveIn pool.new v.1) }
    ensures grows { Grows pool.old pool.new }
{
    let left = eval(alloc, left, pool, env)?;
    let right = eval(alloc, right, pool, env)?;
    Ok((left, right))
}

/// The truth value that the expression comes to.
#[cycle(eval)]
pub fn eval_test(alloc: Global, expr: &Expr, pool: &mut Pool, env: &Env) -> Result<bool, EvalFault>
    requires live { AreVariablesLive pool.old env.now }
    requires evidence { HaveEvidence (variables_seen pool.old env.now) }
    ensures value { Gives (λ b. b) (Tests (Eval (variables_seen pool.old env.now) (expression expr.now))) result }
    ensures grows { Grows pool.old pool.new }
{
    truth_in(&eval(alloc, expr, pool, env)?)
}

/// What the expressions come to, from left to right.
#[cycle(eval)]
#[tactic(auto, using(lw_value::proofs::GrowingPools::variables_live_grow, lw_value::proofs::GrowingPools::variables_seen_grow, lw_value::proofs::GrowingPools::variables_evidence_grows))]
pub fn eval_all(
    alloc: Global,
    exprs: &Exprs,
    pool: &mut Pool,
    env: &Env,
) -> Result<Items, EvalFault>
    requires live { AreVariablesLive pool.old env.now }
    requires evidence { HaveEvidence (variables_seen pool.old env.now) }
    ensures value { Gives (λ vs. seen_all pool.new (vals vs)) (Evals (variables_seen pool.old env.now) (expressions exprs.now)) result }
    ensures live { IfOk result (λ vs. AreItemsLive pool.new (vals vs)) }
    ensures grows { Grows pool.old pool.new }
{
    let mut values = Items::new();
    for i in 0..exprs.count() {
        values.push(alloc, eval(alloc, exprs.get(i), pool, env)?)?;
    }
    Ok(values)
}

/// The sum or product of the first operand and the further ones, each in turn.
#[cycle(eval)]
#[tactic(auto, using(lw_value::proofs::GrowingPools::variables_live_grow, lw_value::proofs::GrowingPools::variables_seen_grow, lw_value::proofs::GrowingPools::variables_evidence_grows))]
fn eval_series(
    alloc: Global,
    first: &Expr,
    terms: &Terms,
    pool: &mut Pool,
    env: &Env,
) -> Result<Value, EvalFault>
    requires live { AreVariablesLive pool.old env.now }
    requires evidence { HaveEvidence (variables_seen pool.old env.now) }
    ensures value { Gives (shown_in pool.new)
        (Series (variables_seen pool.old env.now) (expression first.now) (operands terms.now)) result }
    ensures live { IfOk result (IsLiveIn pool.new) }
    ensures grows { Grows pool.old pool.new }
{
    let mut total = eval(alloc, first, pool, env)?;
    for i in 0..terms.count() {
        let (sign, operand) = terms.get(i);
        let operand = eval(alloc, operand, pool, env)?;
        total = calculated(sign, &total, &operand)?;
    }
    Ok(total)
}
