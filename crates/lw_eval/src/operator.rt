ghost use Rattle.std.specs.Prelude.{◌≡◌, ◌≤◌, IfOk, List};
ghost use Rattle.lw_formula.specs.Formula.{Formula};
ghost use Rattle.lw_pool.specs.Region.{Grows};
ghost use Rattle.lw_value.specs.Values.{vals, seen_all, AreItemsLive};
ghost use Rattle.lw_eval.specs.Evaluations.{Is};
ghost use Rattle.lw_eval.specs.Operands as operands;
ghost use Rattle.lw_eval.specs.Operators as operators;
ghost use Rattle.lw_eval.specs.Operators.{Prefixes, Joins, Calculates};
ghost use Rattle.lw_eval.specs.Private.Given.{Gives, IsLiveIn, shown_in};

use crate::fault::EvalFault;
use crate::trouble::Trouble;
use lw_ast::{Op, Prefix};
use lw_formula::Joint;
use lw_pool::{Node, Pool};
use lw_value::{Items, Value, weight};

/// The greatest weight of a list.
const WEIGHT_LIMIT: usize = 65_536;

/// `~`, `box` and `dia`.
pub fn prefixed(sign: Prefix, operand: &Value, pool: &mut Pool) -> Result<Value, EvalFault>
    requires live { IsLiveIn pool.old operand.now }
    ensures value { Gives (shown_in pool.new) (Prefixes sign (shown_in pool.old operand.now)) result }
    ensures live { IfOk result (IsLiveIn pool.new) }
    ensures grows { Grows pool.old pool.new }
{
    let Value::Formula(a) = operand else {
        return Err(EvalFault::Troubled(Trouble::Kind));
    };
    let node = match sign {
        Prefix::Not => Node::Not(*a),
        Prefix::Nec => Node::Nec(*a),
        Prefix::Poss => Node::Poss(*a),
    };
    Ok(Value::Formula(pool.make(node)?))
}

/// `&`, `v`, `->` and `<->`.
pub fn joined(joint: Joint, operands: &(Value, Value), pool: &mut Pool) -> Result<Value, EvalFault>
    requires left { IsLiveIn pool.old operands.now.0 }
    requires right { IsLiveIn pool.old operands.now.1 }
    ensures value { Gives (shown_in pool.new) (Joins joint (shown_in pool.old operands.now.0) (shown_in pool.old operands.now.1)) result }
    ensures live { IfOk result (IsLiveIn pool.new) }
    ensures grows { Grows pool.old pool.new }
{
    match operands {
        (Value::Formula(a), Value::Formula(b)) => {
            Ok(Value::Formula(pool.make(Node::joined(joint, *a, *b))?))
        }
        _ => Err(EvalFault::Troubled(Trouble::Kind)),
    }
}

/// `+`, `-` and `*`.
pub fn calculated(sign: Op, left: &Value, right: &Value) -> Result<Value, EvalFault>
    ensures value { (ts : List Formula) → Gives (shown_in ts) (Calculates sign (shown_in ts left.now) (shown_in ts right.now)) result }
    ensures live { (ts : List Formula) → IfOk result (IsLiveIn ts) }
{
    let (Value::Number(m), Value::Number(n)) = (left, right) else {
        return Err(EvalFault::Troubled(Trouble::Kind));
    };
    let number = match sign {
        Op::Plus => m.checked_add(*n),
        Op::Minus => m.checked_sub(*n),
        Op::Times => m.checked_mul(*n),
    };
    match number {
        Some(number) => Ok(Value::Number(number)),
        None => Err(EvalFault::Troubled(Trouble::Range)),
    }
}

/// The truth value that a condition, or an operand of `not`, `and` and `or`, is.
pub fn truth_in(value: &Value) -> Result<bool, EvalFault>
    ensures { (ts : List Formula) → Gives (λ b. b) (Is (operands.truth_in (shown_in ts value.now))) result }
{
    match value {
        Value::Truth(truth) => Ok(*truth),
        _ => Err(EvalFault::Troubled(Trouble::Kind)),
    }
}

/// A list of these items, if it isn't too heavy.
pub fn list_of(items: Items) -> Result<Value, EvalFault>
    ensures value { (ts : List Formula) → Gives (shown_in ts) (Is (operators.list_of (seen_all ts (vals items)))) result }
    ensures live { (ts : List Formula) → AreItemsLive ts (vals items) → IfOk result (IsLiveIn ts) }
{
    let list = Value::Items(items);
    if weight(&list) > WEIGHT_LIMIT {
        return Err(EvalFault::Troubled(Trouble::Range));
    }
    Ok(list)
}
