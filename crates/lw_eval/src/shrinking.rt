ghost use Rattle.std.specs.Prelude.{◌≡◌, ◌∷◌, [], length, IfOk};
ghost use Rattle.lw_bisim.specs.Quotient as spec;
ghost use Rattle.lw_bisim.specs.Quotient.{IsQuotient, place_of};
ghost use Rattle.lw_ast.specs.declared.function.Function.TheVariants as function;
ghost use Rattle.lw_value.specs.Values.{certificate, refuted};
ghost use Rattle.lw_value.specs.Views.{value_of};
ghost use Rattle.lw_eval.specs.Private.Given.{IsCall, IsLiveIn};

use crate::deciding::shared;
use crate::fault::EvalFault;
use crate::trouble::Trouble;
use lw_bisim::Quotient;
use lw_cert::{Body, Certificate};
use lw_formula::Logic;
use lw_model::Model;
use lw_pool::{FormId, Pool};
use lw_value::Value;
use std::alloc::{AllocError, Global};

/// `smallest(C)`.
pub fn smallest(alloc: Global, pool: &Pool, certificate: &Value) -> Result<Value, EvalFault>
    requires certificate { IsLiveIn pool.now certificate.now }
    ensures value { IsCall function.Smallest pool.now pool.now (certificate.now ∷ []) result }
    ensures live { IfOk result (IsLiveIn pool.now) }
{
    let Value::Certificate(whole) = certificate else {
        return Err(EvalFault::Troubled(Trouble::Kind));
    };
    match &whole.body {
        Body::Proved(_) => Ok(certificate.try_clone()?),
        Body::Refuted(model, world) => {
            Ok(with_quotient(alloc, whole.logic, whole.formula, model, *world)?)
        }
    }
}

// The certificate of the quotient of the model, and of the class of the world.
fn with_quotient(
    alloc: Global,
    logic: Logic,
    formula: FormId,
    model: &Model,
    world: usize,
) -> Result<Value, AllocError>
    ensures { IfOk result (λ value. (q : spec.Quotient) × IsQuotient model.now q ×
        (value_of value ≡ certificate logic formula (refuted q.model (place_of q.places world)))) }
{
    let quotient = lw_bisim::smallest(alloc, model)?;
    let place = class_of(&quotient, model, world);
    let body = Body::Refuted(quotient.model().try_clone()?, place);
    shared(
        alloc,
        Certificate {
            logic,
            formula,
            body,
        },
    )
}

// The class of the world. A certificate's world is one of its model's, which nothing here has to know: of another it is 0.
fn class_of(quotient: &Quotient, model: &Model, world: usize) -> usize
    requires { length quotient.now.places ≡ model.now.worlds }
    ensures { result ≡ place_of quotient.now.places world }
{
    if world < model.worlds() {
        quotient.place(world)
    } else {
        0
    }
}
