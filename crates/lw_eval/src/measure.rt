ghost use Rattle.std.specs.Prelude.{◌≡◌, ◌∷◌, [], IfOk};
ghost use Rattle.lw_formula.specs.Formula.{depth};
ghost use Rattle.lw_pool.specs.Region.{tree_at, IsLive, Grows};
ghost use Rattle.lw_ast.specs.declared.function.Function.TheVariants as function;
ghost use Rattle.lw_eval.specs.Private.Given.{IsCall, IsLiveIn};

use crate::fault::EvalFault;
use crate::trouble::Trouble;
use lw_pool::{FormId, Pool};
use lw_value::Value;
use std::alloc::AllocError;

/// `depth(A)`.
pub fn depth(pool: &mut Pool, argument: &Value) -> Result<Value, EvalFault>
    requires argument { IsLiveIn pool.old argument.now }
    ensures value { IsCall function.Depth pool.old pool.new (argument.now ∷ []) result }
    ensures live { IfOk result (IsLiveIn pool.new) }
    ensures grows { Grows pool.old pool.new }
{
    match argument {
        Value::Formula(a) => Ok(Value::Number(modal_depth(pool, *a)?)),
        _ => Err(EvalFault::Troubled(Trouble::Kind)),
    }
}

// The modal depth. A formula is no deeper than the place at which it stands, so the number is exact.
#[tactic(auto, using(crate::proofs::DepthsBelow::depth_fits))]
fn modal_depth(pool: &Pool, id: FormId) -> Result<u64, AllocError>
    requires { IsLive pool.now id }
    ensures { IfOk result (λ d. d ≡ depth (tree_at pool.now id)) }
{
    let _ = pool.count();
    Ok(pool.modal_depth(id)? as u64)
}

/// `count(A)`.
pub fn count(pool: &mut Pool, argument: &Value) -> Result<Value, EvalFault>
    requires argument { IsLiveIn pool.old argument.now }
    ensures value { IsCall function.Count pool.old pool.new (argument.now ∷ []) result }
    ensures live { IfOk result (IsLiveIn pool.new) }
    ensures grows { Grows pool.old pool.new }
{
    match argument {
        Value::Formula(a) => Ok(Value::Number(pool.subformulas(*a)?.len() as u64)),
        _ => Err(EvalFault::Troubled(Trouble::Kind)),
    }
}
