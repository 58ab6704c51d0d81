ghost use Rattle.std.specs.Prelude.{◌≡◌, ◌∷◌, [], ℕ, ◌-◌, ◌^◌, min, IfOk};
ghost use Rattle.lw_pool.specs.Region.{tree_at, IsLive, Grows};
ghost use Rattle.lw_proof.specs.Tree.{lines};
ghost use Rattle.lw_proof.specs.Derivation.{Proves};
ghost use Rattle.lw_proof.specs.Pooled.{proof_at, IsProofLive};
ghost use Rattle.lw_share.specs.SetCounts.{CountsSets};
ghost use Rattle.lw_ast.specs.declared.function.Function.TheVariants as function;
ghost use Rattle.lw_value.specs.Values.{number};
ghost use Rattle.lw_value.specs.Evidence.{HasEvidence};
ghost use Rattle.lw_eval.specs.Private.Given.{IsCall, IsLiveIn, shown_in};

use crate::fault::EvalFault;
use crate::trouble::Trouble;
use lw_cert::Body;
use lw_formula::Logic;
use lw_pool::{FormId, Pool};
use lw_proof::Proof;
use lw_share::share;
use lw_value::{Items, Value};
use std::alloc::{AllocError, Global};

/// `shared(C)`.
pub fn sizes(alloc: Global, pool: &mut Pool, certificate: &Value) -> Result<Value, EvalFault>
    requires certificate { IsLiveIn pool.old certificate.now }
    requires evidence { HasEvidence (shown_in pool.old certificate.now) }
    ensures value { IsCall function.Shared pool.old pool.new (certificate.now ∷ []) result }
    ensures live { IfOk result (IsLiveIn pool.new) }
    ensures grows { Grows pool.old pool.new }
{
    let Value::Certificate(whole) = certificate else {
        return Err(EvalFault::Troubled(Trouble::Kind));
    };
    match &whole.body {
        Body::Proved(proof) => {
            let sets = set_count(alloc, pool, whole.logic, whole.formula, proof)?;
            Ok(Value::Items(two_numbers(alloc, proof.lines(), sets)?))
        }
        Body::Refuted(..) => Ok(Value::Nothing),
    }
}

// How many sets the steps of the proof close, each counted once.
fn set_count(
    alloc: Global,
    pool: &mut Pool,
    logic: Logic,
    goal: FormId,
    proof: &Proof,
) -> Result<usize, AllocError>
    requires goal { IsLive pool.old goal }
    requires proof { IsProofLive pool.old proof.now }
    requires proves { Proves logic (proof_at pool.old proof.now) (tree_at pool.old goal) }
    ensures sets { IfOk result (CountsSets logic (tree_at pool.old goal) (proof_at pool.old proof.now)) }
    ensures grows { Grows pool.old pool.new }
{
    let (table, _) = share(alloc, pool, logic, goal, proof)?;
    Ok(table.count())
}

// The list of the two numbers.
fn two_numbers(alloc: Global, steps: usize, sets: usize) -> Result<Items, AllocError>
    ensures { IfOk result (λ items. items ≡ number steps ∷ number sets ∷ []) }
{
    let mut items = Items::new();
    items.push(alloc, Value::Number(steps as u64))?;
    items.push(alloc, Value::Number(sets as u64))?;
    Ok(items)
}
