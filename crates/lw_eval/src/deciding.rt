ghost use Rattle.std.specs.Prelude.{◌≡◌, ◌∷◌, [], IfOk, List};
ghost use Rattle.lw_formula.specs.Formula.{Formula};
ghost use Rattle.lw_formula.specs.Validity.{Valid};
ghost use Rattle.lw_pool.specs.Region.{tree_at, IsLive, Grows};
ghost use Rattle.lw_formula.specs.declared.logic.Logic.{Logic};
ghost use Rattle.lw_counter.specs.Answers.{IsAnswerTo};
ghost use Rattle.lw_decide.specs.Decided.{TellsValidity};
ghost use Rattle.lw_decide.specs.Fault.{IsFault};
ghost use Rattle.lw_ast.specs.declared.function.Function.TheVariants as function;
ghost use Rattle.lw_value.specs.Values.{truth};
ghost use Rattle.lw_value.specs.Views.{value_of};
ghost use Rattle.lw_value.specs.Certified.{evidence_of};
ghost use Rattle.lw_value.specs.Certified as values;
ghost use Rattle.lw_pool.specs.declared.id.FormId.{FormId};
ghost use Rattle.lw_eval.specs.Evaluations.{Got, Tells};
ghost use Rattle.lw_eval.specs.Calls.{Decided, Certifies};
ghost use Rattle.lw_eval.specs.Private.Given.{Gives, IsCall, IsUndecided, IsShown, IsLiveIn, shown_in};

use crate::fault::EvalFault;
use crate::trouble::Trouble;
use lw_cert::{Body, Certificate};
use lw_counter::Answer;
use lw_decide::{DecideFault, decide};
use lw_formula::Logic;
use lw_pool::{FormId, Pool};
use lw_value::Value;
use std::alloc::{AllocError, Global};
use std::rc::Rc;

/// `provable(L, A)`.
pub fn provable(
    alloc: Global,
    pool: &mut Pool,
    logic: &Value,
    formula: &Value,
) -> Result<Value, EvalFault>
    requires logic { IsLiveIn pool.old logic.now }
    requires formula { IsLiveIn pool.old formula.now }
    ensures value { IsCall function.Provable pool.old pool.new (logic.now ∷ formula.now ∷ []) result }
    ensures live { IfOk result (IsLiveIn pool.new) }
    ensures grows { Grows pool.old pool.new }
{
    match (logic, formula) {
        (Value::Logic(logic), Value::Formula(a)) => validity(alloc, pool, *logic, *a),
        _ => Err(EvalFault::Troubled(Trouble::Kind)),
    }
}

/// `certificate(L, A)`.
pub fn certificate(
    alloc: Global,
    pool: &mut Pool,
    logic: &Value,
    formula: &Value,
) -> Result<Value, EvalFault>
    requires logic { IsLiveIn pool.old logic.now }
    requires formula { IsLiveIn pool.old formula.now }
    ensures value { IsCall function.Certificate pool.old pool.new (logic.now ∷ formula.now ∷ []) result }
    ensures live { IfOk result (IsLiveIn pool.new) }
    ensures grows { Grows pool.old pool.new }
{
    match (logic, formula) {
        (Value::Logic(logic), Value::Formula(a)) => certified(alloc, pool, *logic, *a),
        _ => Err(EvalFault::Troubled(Trouble::Kind)),
    }
}

// Whether the formula is valid in the logic.
fn validity(
    alloc: Global,
    pool: &mut Pool,
    logic: Logic,
    formula: FormId,
) -> Result<Value, EvalFault>
    requires { IsLive pool.old formula }
    ensures value { Gives (shown_in pool.new) (Decided (tree_at pool.old formula) (Tells (Valid logic (tree_at pool.old formula)))) result }
    ensures live { IfOk result (IsLiveIn pool.new) }
    ensures grows { Grows pool.old pool.new }
{
    match decide(alloc, pool, logic, formula) {
        Ok(answer) => Ok(Value::Truth(is_yes(&answer))),
        Err(fault) => Err(undecided(fault)),
    }
}

// A certificate of what was decided.
fn certified(
    alloc: Global,
    pool: &mut Pool,
    logic: Logic,
    formula: FormId,
) -> Result<Value, EvalFault>
    requires { IsLive pool.old formula }
    ensures value { Gives (shown_in pool.new) (Decided (tree_at pool.old formula) (Certifies logic (tree_at pool.old formula))) result }
    ensures live { IfOk result (IsLiveIn pool.new) }
    ensures grows { Grows pool.old pool.new }
{
    match decide(alloc, pool, logic, formula) {
        Ok(answer) => Ok(shared(
            alloc,
            Certificate {
                logic,
                formula,
                body: body_of(answer),
            },
        )?),
        Err(fault) => Err(undecided(fault)),
    }
}

// Whether the answer is a proof.
fn is_yes(answer: &Answer) -> bool
    ensures { (logic : Logic) (a : Formula) → TellsValidity logic a answer.now → Tells (Valid logic a) (Got (truth result)) }
{
    match answer {
        Answer::Yes(_) => true,
        Answer::No(..) => false,
    }
}

// What the answer shows.
fn body_of(answer: Answer) -> Body
    ensures shows { (logic : Logic) (ts : List Formula) (a : Formula) →
        IsAnswerTo logic ts a answer → IsShown logic ts a (evidence_of result) }
{
    match answer {
        Answer::Yes(proof) => Body::Proved(proof),
        Answer::No(model, world) => Body::Refuted(model, world),
    }
}

/// The value that is the certificate.
pub fn shared(alloc: Global, certificate: Certificate) -> Result<Value, AllocError>
    ensures { IfOk result (λ value. value_of value ≡ values.certified certificate) }
{
    Ok(Value::Certificate(Rc::new(alloc, certificate)?))
}

/// The trouble of a formula that has too many distinct subformulas.
pub fn undecided(fault: DecideFault) -> EvalFault
    ensures { (old new : List Formula) (goal : FormId) → IsFault old new goal fault → IsUndecided (tree_at old goal) result }
{
    match fault {
        DecideFault::TooLarge { count } => EvalFault::Troubled(Trouble::TooLarge { count }),
        DecideFault::Memory => EvalFault::Memory,
    }
}
