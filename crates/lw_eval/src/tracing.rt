ghost use Rattle.std.specs.Prelude.{◌≡◌, ◌∷◌, [], map, IfOk};
ghost use Rattle.lw_formula.specs.Formula.{Formula};
ghost use Rattle.lw_pool.specs.Region.{tree_at, IsLive, Grows};
ghost use Rattle.lw_trace.specs.LetterlessForm.{letterless_of};
ghost use Rattle.lw_trace.specs.TraceFaults as traces;
ghost use Rattle.lw_ast.specs.declared.function.Function.TheVariants as function;
ghost use Rattle.lw_value.specs.Values.{formula, truth, number, vals};
ghost use Rattle.lw_eval.specs.Evaluations.{Got, Is};
ghost use Rattle.lw_eval.specs.Operators as operators;
ghost use Rattle.lw_eval.specs.Calls.{Decided, Traced, trace_values};
ghost use Rattle.lw_eval.specs.Private.Given.{Gives, IsCall, IsLiveIn, IsUntraced, shown_in};

use crate::fault::EvalFault;
use crate::operator::list_of;
use crate::trouble::Trouble;
use lw_formula::Chars;
use lw_pool::{FormId, Pool};
use lw_trace::{Trace, TraceFault};
use lw_value::{Items, Value};
use std::alloc::{AllocError, Global};

/// `trace(A)`.
pub fn trace(alloc: Global, pool: &Pool, formula: &Value) -> Result<Value, EvalFault>
    requires formula { IsLiveIn pool.now formula.now }
    ensures value { IsCall function.Trace pool.now pool.now (formula.now ∷ []) result }
    ensures live { IfOk result (IsLiveIn pool.now) }
{
    match formula {
        Value::Formula(a) => traced(alloc, pool, *a),
        _ => Err(EvalFault::Troubled(Trouble::Kind)),
    }
}

/// `letterless(A)`.
pub fn letterless(alloc: Global, pool: &mut Pool, formula: &Value) -> Result<Value, EvalFault>
    requires formula { IsLiveIn pool.old formula.now }
    ensures value { IsCall function.Letterless pool.old pool.new (formula.now ∷ []) result }
    ensures live { IfOk result (IsLiveIn pool.new) }
    ensures grows { Grows pool.old pool.new }
{
    match formula {
        Value::Formula(a) => normal_form(alloc, pool, *a),
        _ => Err(EvalFault::Troubled(Trouble::Kind)),
    }
}

// The formula's truth value at great heights, and the heights at which it has the other one, as a list.
fn traced(alloc: Global, pool: &Pool, id: FormId) -> Result<Value, EvalFault>
    requires { IsLive pool.now id }
    ensures value { Gives (shown_in pool.now)
        (Traced (tree_at pool.now id) (Decided (tree_at pool.now id) (Is (operators.list_of (vals (trace_values (tree_at pool.now id)))))))
        result }
    ensures live { IfOk result (IsLiveIn pool.now) }
{
    match lw_trace::trace(alloc, pool, id) {
        Ok(trace) => list_of(trace_items(alloc, &trace)?),
        Err(fault) => Err(untraced(alloc, &fault)),
    }
}

// The values of the list.
fn trace_items(alloc: Global, trace: &Trace) -> Result<Items, AllocError>
    ensures { IfOk result (λ items. items ≡ truth trace.now.rest ∷ map number trace.now.heights) }
{
    let mut items = Items::new();
    items.push(alloc, Value::Truth(trace.rest()))?;
    for height in trace.heights() {
        items.push(alloc, Value::Number(*height as u64))?;
    }
    Ok(items)
}

// The formula's normal form.
fn normal_form(alloc: Global, pool: &mut Pool, id: FormId) -> Result<Value, EvalFault>
    requires { IsLive pool.old id }
    ensures value { Gives (shown_in pool.new)
        (Traced (tree_at pool.old id) (Decided (tree_at pool.old id) (Is (Got (formula (letterless_of (tree_at pool.old id)))))))
        result }
    ensures live { IfOk result (IsLiveIn pool.new) }
    ensures grows { Grows pool.old pool.new }
{
    match lw_trace::letterless(alloc, pool, id) {
        Ok(form) => Ok(Value::Formula(form)),
        Err(fault) => Err(untraced(alloc, &fault)),
    }
}

// The trouble of a formula with variables, or with too many distinct subformulas.
fn untraced(alloc: Global, fault: &TraceFault) -> EvalFault
    ensures { (a : Formula) → traces.IsFaultOf a fault.now → IsUntraced a result }
{
    match fault {
        TraceFault::NotLetterless { name } => match Chars::from_bytes(alloc, name.as_bytes()) {
            Ok(name) => EvalFault::Troubled(Trouble::NotLetterless { name }),
            Err(_) => EvalFault::Memory,
        },
        TraceFault::TooLarge { count } => {
            EvalFault::Troubled(Trouble::TooLarge { count: *count })
        }
        TraceFault::Memory => EvalFault::Memory,
    }
}
