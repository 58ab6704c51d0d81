ghost use Rattle.std.specs.Prelude.{◌≡◌, ◌≢◌, IfOk, IfErr, List, not};
ghost use Rattle.lw_formula.specs.Formula.{Formula};
ghost use Rattle.lw_value.specs.Values.{truth};
ghost use Rattle.lw_eval.specs.Evaluations.{Got, Is, Tells};
ghost use Rattle.lw_eval.specs.Operands as operands;
ghost use Rattle.lw_eval.specs.Operators.{Compared, Compares};
ghost use Rattle.lw_eval.specs.Private.Given.{Gives, IsIncomparable, IsLiveIn, shown_in};

use crate::fault::EvalFault;
use crate::trouble::Trouble;
use lw_ast::Relation;
use lw_pool::Pool;
use lw_value::{Value, are_equal, is_comparable};
use std::alloc::Global;

/// `==`, `!=`, `<` and `<=`.
pub fn compared(
    alloc: Global,
    relation: Relation,
    operands: &(Value, Value),
    pool: &Pool,
) -> Result<Value, EvalFault>
    requires left { IsLiveIn pool.now operands.now.0 }
    requires right { IsLiveIn pool.now operands.now.1 }
    ensures value { Gives (shown_in pool.now)
        (Compares relation (shown_in pool.now operands.now.0) (shown_in pool.now operands.now.1)) result }
    ensures live { IfOk result (IsLiveIn pool.now) }
{
    match relation {
        Relation::Equal => match is_equal(alloc, operands, pool) {
            Ok(equal) => Ok(Value::Truth(equal)),
            Err(fault) => Err(fault),
        },
        Relation::Unequal => match is_equal(alloc, operands, pool) {
            Ok(equal) => Ok(Value::Truth(!equal)),
            Err(fault) => Err(fault),
        },
        Relation::Less => match operands {
            (Value::Number(m), Value::Number(n)) => Ok(Value::Truth(*m < *n)),
            _ => Err(EvalFault::Troubled(Trouble::Kind)),
        },
        Relation::AtMost => match operands {
            (Value::Number(m), Value::Number(n)) => Ok(Value::Truth(*m <= *n)),
            _ => Err(EvalFault::Troubled(Trouble::Kind)),
        },
    }
}

// Whether the values are equal, if no certificate stands in them.
#[tactic(auto, using(crate::proofs::ValuesCompared::equal, crate::proofs::ValuesCompared::unequal, crate::proofs::ValuesCompared::left_certified, crate::proofs::ValuesCompared::right_certified))]
fn is_equal(alloc: Global, operands: &(Value, Value), pool: &Pool) -> Result<bool, EvalFault>
    requires left { IsLiveIn pool.now operands.now.0 }
    requires right { IsLiveIn pool.now operands.now.1 }
    ensures equal { IfOk result (λ equal. Compared (shown_in pool.now operands.now.0) (shown_in pool.now operands.now.1)
        (Tells (shown_in pool.now operands.now.0 ≡ shown_in pool.now operands.now.1)) (Got (truth equal))) }
    ensures unequal { IfOk result (λ equal. Compared (shown_in pool.now operands.now.0) (shown_in pool.now operands.now.1)
        (Tells (shown_in pool.now operands.now.0 ≢ shown_in pool.now operands.now.1)) (Got (truth (not equal)))) }
    ensures fault { IfErr result (IsIncomparable (shown_in pool.now operands.now.0) (shown_in pool.now operands.now.1)) }
{
    let (left, right) = operands;
    if !is_comparable(alloc, left)? {
        return Err(EvalFault::Troubled(Trouble::Kind));
    }
    if !is_comparable(alloc, right)? {
        return Err(EvalFault::Troubled(Trouble::Kind));
    }
    Ok(are_equal(alloc, pool, left, right)?)
}
