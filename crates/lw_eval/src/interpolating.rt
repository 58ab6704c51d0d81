ghost use Rattle.std.specs.Prelude.{◌≡◌, ◌∷◌, [], IfOk};
ghost use Rattle.lw_formula.specs.Formula.{impl};
ghost use Rattle.lw_pool.specs.Region.{tree_at, IsLive, Grows};
ghost use Rattle.lw_counter.specs.Answers.{IsAnswerTo};
ghost use Rattle.lw_decide.specs.Decided.{TellsValidity};
ghost use Rattle.lw_ast.specs.declared.function.Function.TheVariants as function;
ghost use Rattle.lw_eval.specs.Calls.{Supported, Decided, Interpolates};
ghost use Rattle.lw_eval.specs.Private.Given.{Gives, IsCall, IsLiveIn, shown_in};

use crate::deciding::undecided;
use crate::fault::EvalFault;
use crate::trouble::Trouble;
use lw_counter::Answer;
use lw_decide::decide;
use lw_formula::{Joint, Logic};
use lw_interp::{has_interpolants, interpolant};
use lw_pool::{FormId, Node, Pool};
use lw_value::Value;
use std::alloc::Global;

/// `interpolate(L, A, B)`.
pub fn interpolate(
    alloc: Global,
    pool: &mut Pool,
    logic: &Value,
    left: &Value,
    right: &Value,
) -> Result<Value, EvalFault>
    requires logic { IsLiveIn pool.old logic.now }
    requires left { IsLiveIn pool.old left.now }
    requires right { IsLiveIn pool.old right.now }
    ensures value { IsCall function.Interpolate pool.old pool.new (logic.now ∷ left.now ∷ right.now ∷ []) result }
    ensures live { IfOk result (IsLiveIn pool.new) }
    ensures grows { Grows pool.old pool.new }
{
    match (logic, left, right) {
        (Value::Logic(logic), Value::Formula(a), Value::Formula(b)) => {
            interpolated(alloc, pool, *logic, *a, *b)
        }
        _ => Err(EvalFault::Troubled(Trouble::Kind)),
    }
}

// An interpolant of two formulas, if the logic has them here and the left formula implies the right one.
fn interpolated(
    alloc: Global,
    pool: &mut Pool,
    logic: Logic,
    left: FormId,
    right: FormId,
) -> Result<Value, EvalFault>
    requires left { IsLive pool.old left }
    requires right { IsLive pool.old right }
    ensures value { Gives (shown_in pool.new)
        (Supported logic (Decided (impl (tree_at pool.old left) (tree_at pool.old right))
        (Interpolates logic (tree_at pool.old left) (tree_at pool.old right)))) result }
    ensures live { IfOk result (IsLiveIn pool.new) }
    ensures grows { Grows pool.old pool.new }
{
    if !has_interpolants(logic) {
        return Err(EvalFault::Troubled(Trouble::NoInterpolants { logic }));
    }
    let goal = pool.make(Node::joined(Joint::Imp, left, right))?;
    match decide(alloc, pool, logic, goal) {
        Ok(answer) => read_off(alloc, pool, logic, &answer, left, right),
        Err(fault) => Err(undecided(fault)),
    }
}

// An interpolant of the two formulas, read off the answer to whether the left one implies the right one.
fn read_off(
    alloc: Global,
    pool: &mut Pool,
    logic: Logic,
    answer: &Answer,
    left: FormId,
    right: FormId,
) -> Result<Value, EvalFault>
    requires left { IsLive pool.old left }
    requires right { IsLive pool.old right }
    requires answer { IsAnswerTo logic pool.old (impl (tree_at pool.old left) (tree_at pool.old right)) answer.now }
    requires validity { TellsValidity logic (impl (tree_at pool.old left) (tree_at pool.old right)) answer.now }
    ensures value { Gives (shown_in pool.new) (Interpolates logic (tree_at pool.old left) (tree_at pool.old right)) result }
    ensures live { IfOk result (IsLiveIn pool.new) }
    ensures grows { Grows pool.old pool.new }
{
    let Answer::Yes(proof) = answer else {
        return Ok(Value::Nothing);
    };
    match interpolant(alloc, pool, logic, proof, left, right) {
        Ok(between) => Ok(Value::Formula(between)),
        // The logic was asked before, so that memory alone can want.
        Err(_) => Err(EvalFault::Memory),
    }
}
