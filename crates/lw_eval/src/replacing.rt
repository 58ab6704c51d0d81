ghost use Rattle.std.specs.Prelude.{◌≡◌, ◌∷◌, [], IfOk};
ghost use Rattle.lw_pool.specs.Region.{Grows};
ghost use Rattle.lw_ast.specs.declared.function.Function.TheVariants as function;
ghost use Rattle.lw_eval.specs.Private.Given.{IsCall, IsLiveIn};

use crate::fault::EvalFault;
use crate::fixing::variable_at;
use crate::trouble::Trouble;
use lw_pool::Pool;
use lw_value::Value;

/// `substitute(A, P, B)`.
#[tactic(auto, using(crate::proofs::VariablesGiven::substitute_of, crate::proofs::VariablesGiven::substitute_of_none))]
pub fn substitute(
    pool: &mut Pool,
    formula: &Value,
    variable: &Value,
    by: &Value,
) -> Result<Value, EvalFault>
    requires formula { IsLiveIn pool.old formula.now }
    requires variable { IsLiveIn pool.old variable.now }
    requires by { IsLiveIn pool.old by.now }
    ensures value { IsCall function.Substitute pool.old pool.new (formula.now ∷ variable.now ∷ by.now ∷ []) result }
    ensures live { IfOk result (IsLiveIn pool.new) }
    ensures grows { Grows pool.old pool.new }
{
    let (Value::Formula(a), Value::Formula(p), Value::Formula(b)) = (formula, variable, by) else {
        return Err(EvalFault::Troubled(Trouble::Kind));
    };
    match variable_at(pool, *p) {
        Ok(name) => Ok(Value::Formula(pool.substitute(*a, &name, *b)?)),
        Err(fault) => Err(fault),
    }
}
