ghost use Rattle.std.specs.Prelude.{◌≡◌, ◌∷◌, [], IfOk};
ghost use Rattle.lw_pool.specs.Region.{tree_at, IsLive, Grows};
ghost use Rattle.lw_ast.specs.declared.function.Function.TheVariants as function;
ghost use Rattle.lw_eval.specs.Calls.{Translates};
ghost use Rattle.lw_eval.specs.Private.Given.{Gives, IsCall, IsLiveIn, shown_in};

use crate::fault::EvalFault;
use crate::trouble::Trouble;
use lw_normal::{nnf, simplify};
use lw_pool::{FormId, Pool};
use lw_trans::{TransFault, boxdot, goedel};
use lw_value::Value;
use std::alloc::Global;

/// `nnf(A)`.
pub fn negation_normal_form(
    alloc: Global,
    pool: &mut Pool,
    argument: &Value,
) -> Result<Value, EvalFault>
    requires argument { IsLiveIn pool.old argument.now }
    ensures value { IsCall function.Nnf pool.old pool.new (argument.now ∷ []) result }
    ensures live { IfOk result (IsLiveIn pool.new) }
    ensures grows { Grows pool.old pool.new }
{
    match argument {
        Value::Formula(a) => Ok(Value::Formula(nnf(alloc, pool, *a)?)),
        _ => Err(EvalFault::Troubled(Trouble::Kind)),
    }
}

/// `simplify(A)`.
pub fn simplified(alloc: Global, pool: &mut Pool, argument: &Value) -> Result<Value, EvalFault>
    requires argument { IsLiveIn pool.old argument.now }
    ensures value { IsCall function.Simplify pool.old pool.new (argument.now ∷ []) result }
    ensures live { IfOk result (IsLiveIn pool.new) }
    ensures grows { Grows pool.old pool.new }
{
    match argument {
        Value::Formula(a) => Ok(Value::Formula(simplify(alloc, pool, *a)?)),
        _ => Err(EvalFault::Troubled(Trouble::Kind)),
    }
}

/// `boxdot(A)`.
pub fn from_grz(alloc: Global, pool: &mut Pool, argument: &Value) -> Result<Value, EvalFault>
    requires argument { IsLiveIn pool.old argument.now }
    ensures value { IsCall function.Boxdot pool.old pool.new (argument.now ∷ []) result }
    ensures live { IfOk result (IsLiveIn pool.new) }
    ensures grows { Grows pool.old pool.new }
{
    match argument {
        Value::Formula(a) => Ok(Value::Formula(boxdot(alloc, pool, *a)?)),
        _ => Err(EvalFault::Troubled(Trouble::Kind)),
    }
}

/// `goedel(A)`.
pub fn from_intuitionistic(
    alloc: Global,
    pool: &mut Pool,
    argument: &Value,
) -> Result<Value, EvalFault>
    requires argument { IsLiveIn pool.old argument.now }
    ensures value { IsCall function.Goedel pool.old pool.new (argument.now ∷ []) result }
    ensures live { IfOk result (IsLiveIn pool.new) }
    ensures grows { Grows pool.old pool.new }
{
    match argument {
        Value::Formula(a) => translated(alloc, pool, *a),
        _ => Err(EvalFault::Troubled(Trouble::Kind)),
    }
}

// Gödel's translation, if the formula is intuitionistic.
#[tactic(auto, using(crate::proofs::CallsAnswered::goedel_of, crate::proofs::CallsAnswered::modal_formula))]
fn translated(alloc: Global, pool: &mut Pool, id: FormId) -> Result<Value, EvalFault>
    requires { IsLive pool.old id }
    ensures value { Gives (shown_in pool.new) (Translates (tree_at pool.old id)) result }
    ensures live { IfOk result (IsLiveIn pool.new) }
    ensures grows { Grows pool.old pool.new }
{
    match goedel(alloc, pool, id) {
        Ok(form) => Ok(Value::Formula(form)),
        Err(TransFault::NotIntuitionistic { what }) => {
            Err(EvalFault::Troubled(Trouble::NotIntuitionistic { what }))
        }
        Err(TransFault::Memory) => Err(EvalFault::Memory),
    }
}
