ghost use Rattle.std.specs.Prelude.{◌≡◌, ◌∷◌, [], IfOk};
ghost use Rattle.lw_pool.specs.Region.{Grows};
ghost use Rattle.lw_value.specs.Evidence.{HasEvidence};
ghost use Rattle.lw_eval.specs.Private.Given.{IsCall, IsLiveIn, AreLiveIn, all_shown_in, shown_in};
ghost use Rattle.lw_eval.specs.Private.Carried.{HaveItemsEvidence};

use crate::deciding::{certificate, provable};
use crate::fault::EvalFault;
use crate::fixing::fixpoint;
use crate::form::{from_grz, from_intuitionistic, negation_normal_form, simplified};
use crate::interpolating::interpolate;
use crate::listing::{append, item, length, vars};
use crate::measure::{count, depth};
use crate::replacing::substitute;
use crate::sharing::sizes;
use crate::shrinking::smallest;
use crate::tracing::{letterless, trace};
use crate::trouble::Trouble;
use lw_ast::Function;
use lw_pool::Pool;
use lw_value::Value;
use std::alloc::Global;

/// What the function gives for these arguments. It fails with the script's trouble, or for want of memory.
#[tactic(auto, using(crate::proofs::ArgumentsCounted::other_count))]
pub fn call(
    alloc: Global,
    function: Function,
    arguments: &[Value],
    pool: &mut Pool,
) -> Result<Value, EvalFault>
    requires live { AreLiveIn pool.old arguments.now }
    requires evidence { HaveItemsEvidence (all_shown_in pool.old arguments.now) }
    ensures value { IsCall function pool.old pool.new arguments.now result }
    ensures live { IfOk result (IsLiveIn pool.new) }
    ensures grows { Grows pool.old pool.new }
{
    match arguments {
        [a] => call_one(alloc, function, a, pool),
        [a, b] => call_two(alloc, function, a, b, pool),
        [a, b, c] => call_three(alloc, function, a, b, c, pool),
        _ => Err(EvalFault::Troubled(Trouble::Kind)),
    }
}

fn call_one(
    alloc: Global,
    function: Function,
    argument: &Value,
    pool: &mut Pool,
) -> Result<Value, EvalFault>
    requires live { IsLiveIn pool.old argument.now }
    requires evidence { HasEvidence (shown_in pool.old argument.now) }
    ensures value { IsCall function pool.old pool.new (argument.now ∷ []) result }
    ensures live { IfOk result (IsLiveIn pool.new) }
    ensures grows { Grows pool.old pool.new }
{
    match function {
        Function::Nnf => negation_normal_form(alloc, pool, argument),
        Function::Simplify => simplified(alloc, pool, argument),
        Function::Goedel => from_intuitionistic(alloc, pool, argument),
        Function::Boxdot => from_grz(alloc, pool, argument),
        Function::Vars => vars(alloc, pool, argument),
        Function::Depth => depth(pool, argument),
        Function::Count => count(pool, argument),
        Function::Length => length(pool, argument),
        Function::Smallest => smallest(alloc, pool, argument),
        Function::Trace => trace(alloc, pool, argument),
        Function::Letterless => letterless(alloc, pool, argument),
        Function::Shared => sizes(alloc, pool, argument),
        Function::Provable
        | Function::Certificate
        | Function::Interpolate
        | Function::Fixpoint
        | Function::Substitute
        | Function::Item
        | Function::Append => Err(EvalFault::Troubled(Trouble::Kind)),
    }
}

fn call_two(
    alloc: Global,
    function: Function,
    first: &Value,
    second: &Value,
    pool: &mut Pool,
) -> Result<Value, EvalFault>
    requires first { IsLiveIn pool.old first.now }
    requires second { IsLiveIn pool.old second.now }
    ensures value { IsCall function pool.old pool.new (first.now ∷ second.now ∷ []) result }
    ensures live { IfOk result (IsLiveIn pool.new) }
    ensures grows { Grows pool.old pool.new }
{
    match function {
        Function::Provable => provable(alloc, pool, first, second),
        Function::Certificate => certificate(alloc, pool, first, second),
        Function::Fixpoint => fixpoint(alloc, pool, first, second),
        Function::Item => item(pool, first, second),
        Function::Append => append(alloc, pool, first, second),
        Function::Interpolate
        | Function::Nnf
        | Function::Simplify
        | Function::Goedel
        | Function::Boxdot
        | Function::Substitute
        | Function::Vars
        | Function::Depth
        | Function::Count
        | Function::Length
        | Function::Smallest
        | Function::Trace
        | Function::Letterless
        | Function::Shared => Err(EvalFault::Troubled(Trouble::Kind)),
    }
}

fn call_three(
    alloc: Global,
    function: Function,
    first: &Value,
    second: &Value,
    third: &Value,
    pool: &mut Pool,
) -> Result<Value, EvalFault>
    requires first { IsLiveIn pool.old first.now }
    requires second { IsLiveIn pool.old second.now }
    requires third { IsLiveIn pool.old third.now }
    ensures value { IsCall function pool.old pool.new (first.now ∷ second.now ∷ third.now ∷ []) result }
    ensures live { IfOk result (IsLiveIn pool.new) }
    ensures grows { Grows pool.old pool.new }
{
    match function {
        Function::Interpolate => interpolate(alloc, pool, first, second, third),
        Function::Substitute => substitute(pool, first, second, third),
        Function::Provable
        | Function::Certificate
        | Function::Fixpoint
        | Function::Nnf
        | Function::Simplify
        | Function::Goedel
        | Function::Boxdot
        | Function::Vars
        | Function::Depth
        | Function::Count
        | Function::Length
        | Function::Item
        | Function::Append
        | Function::Smallest
        | Function::Trace
        | Function::Letterless
        | Function::Shared => Err(EvalFault::Troubled(Trouble::Kind)),
    }
}
