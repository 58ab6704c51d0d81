ghost use Rattle.std.specs.Prelude.{◌≡◌, ◌∷◌, [], IfOk};
ghost use Rattle.lw_pool.specs.Region.{tree_at, IsLive, Grows};
ghost use Rattle.lw_ast.specs.declared.function.Function.TheVariants as function;
ghost use Rattle.lw_eval.specs.Calls.{Fixes};
ghost use Rattle.lw_eval.specs.Private.Given.{Gives, IsCall, IsVariable, IsLiveIn, shown_in};

use crate::fault::EvalFault;
use crate::trouble::Trouble;
use lw_fix::{FixFault, fixed_point};
use lw_formula::Name;
use lw_pool::{FormId, Node, Pool};
use lw_value::Value;
use std::alloc::Global;

/// `fixpoint(P, A)`.
#[tactic(auto, using(crate::proofs::VariablesGiven::fixpoint_of, crate::proofs::VariablesGiven::fixpoint_of_none))]
pub fn fixpoint(
    alloc: Global,
    pool: &mut Pool,
    variable: &Value,
    formula: &Value,
) -> Result<Value, EvalFault>
    requires variable { IsLiveIn pool.old variable.now }
    requires formula { IsLiveIn pool.old formula.now }
    ensures value { IsCall function.Fixpoint pool.old pool.new (variable.now ∷ formula.now ∷ []) result }
    ensures live { IfOk result (IsLiveIn pool.new) }
    ensures grows { Grows pool.old pool.new }
{
    let (Value::Formula(p), Value::Formula(a)) = (variable, formula) else {
        return Err(EvalFault::Troubled(Trouble::Kind));
    };
    match variable_at(pool, *p) {
        Ok(name) => fixed(alloc, pool, &name, *a),
        Err(fault) => Err(fault),
    }
}

// The fixed point of the formula for the variable, if it has one.
#[tactic(auto, using(crate::proofs::CallsAnswered::fix_of, crate::proofs::CallsAnswered::bare_variable, crate::proofs::CallsAnswered::many_boxes))]
fn fixed(alloc: Global, pool: &mut Pool, name: &Name, formula: FormId) -> Result<Value, EvalFault>
    requires { IsLive pool.old formula }
    ensures value { Gives (shown_in pool.new) (Fixes name.now (tree_at pool.old formula)) result }
    ensures live { IfOk result (IsLiveIn pool.new) }
    ensures grows { Grows pool.old pool.new }
{
    match fixed_point(alloc, pool, name, formula) {
        Ok(form) => Ok(Value::Formula(form)),
        Err(FixFault::NotModalised) => Err(EvalFault::Troubled(Trouble::NotModalised)),
        Err(FixFault::TooManyBoxes { count }) => {
            Err(EvalFault::Troubled(Trouble::TooManyBoxes { count }))
        }
        Err(FixFault::Memory) => Err(EvalFault::Memory),
    }
}

/// The name of the variable that the formula is.
pub fn variable_at(pool: &Pool, id: FormId) -> Result<Name, EvalFault>
    requires { IsLive pool.now id }
    ensures { IsVariable (tree_at pool.now id) result }
{
    match pool.node(id) {
        Node::Var(name) => Ok(name.try_clone()?),
        _ => Err(EvalFault::Troubled(Trouble::Kind)),
    }
}
