ghost use Rattle.std.specs.Prelude.{◌≡◌, IfOk, List};
ghost use Rattle.lw_formula.specs.Formula.{Formula};
ghost use Rattle.lw_value.specs.Values as val;
ghost use Rattle.lw_value.specs.Views.{value_of};
ghost use Rattle.lw_value.specs.Assignments.{value_at, variables_seen, AreVariablesLive};
ghost use Rattle.lw_eval.specs.declared.trouble.Trouble.TheVariants.{Unbound};
ghost use Rattle.lw_eval.specs.Evaluations.{found_or, Is};
ghost use Rattle.lw_eval.specs.Private.Given.{Gives, IsLiveIn, shown_in};

use crate::fault::EvalFault;
use crate::trouble::Trouble;
use lw_formula::Chars;
use lw_value::{Env, Value};
use std::alloc::{AllocError, Global};
use std::rc::Rc;

/// The value that is the text.
pub fn text(alloc: Global, text: &Chars) -> Result<Value, AllocError>
    ensures { IfOk result (λ value. value_of value ≡ val.text text.now) }
{
    Ok(Value::Text(Rc::new(alloc, text.try_clone()?)?))
}

/// The value that the script variable has.
#[tactic(auto, using(lw_value::proofs::VariablesSeen::value_at_live))]
pub fn variable(name: &Chars, env: &Env) -> Result<Value, EvalFault>
    ensures value { (ts : List Formula) →
        Gives (shown_in ts) (Is (found_or (Unbound name.now) (value_at (variables_seen ts env.now) name.now))) result }
    ensures live { (ts : List Formula) → AreVariablesLive ts env.now → IfOk result (IsLiveIn ts) }
{
    match env.get(name) {
        Some(value) => Ok(value.try_clone()?),
        None => Err(EvalFault::Troubled(Trouble::Unbound {
            name: name.try_clone()?,
        })),
    }
}
