ghost use Rattle.std.specs.Prelude.{◌≡◌, ◌∷◌, [], IfOk};
ghost use Rattle.lw_pool.specs.Region.{tree_at, IsLive, Grows};
ghost use Rattle.lw_ast.specs.declared.function.Function.TheVariants as function;
ghost use Rattle.lw_value.specs.Values.{vals, seen_all, AreItemsLive};
ghost use Rattle.lw_eval.specs.Calls.{Lists};
ghost use Rattle.lw_eval.specs.Private.Given.{Gives, IsCall, IsLiveIn, letters_of, shown_in};

use crate::fault::EvalFault;
use crate::operator::list_of;
use crate::trouble::Trouble;
use lw_formula::Name;
use lw_pool::{FormId, Node, Pool};
use lw_value::{Items, Value};
use std::alloc::{AllocError, Global};

/// `length(X)`.
#[tactic(auto, using(crate::proofs::ItemsSeen::count_seen))]
pub fn length(pool: &Pool, list: &Value) -> Result<Value, EvalFault>
    ensures value { IsCall function.Length pool.now pool.now (list.now ∷ []) result }
    ensures live { IfOk result (IsLiveIn pool.now) }
{
    match list {
        Value::Items(items) => Ok(Value::Number(items.count() as u64)),
        _ => Err(EvalFault::Troubled(Trouble::Kind)),
    }
}

/// `item(X, N)`.
#[tactic(auto, using(crate::proofs::ItemsSeen::item_found, crate::proofs::ItemsSeen::item_below, crate::proofs::ItemsSeen::item_missing, crate::proofs::ItemsSeen::item_live))]
pub fn item(pool: &Pool, list: &Value, number: &Value) -> Result<Value, EvalFault>
    requires list { IsLiveIn pool.now list.now }
    ensures value { IsCall function.Item pool.now pool.now (list.now ∷ number.now ∷ []) result }
    ensures live { IfOk result (IsLiveIn pool.now) }
{
    let (Value::Items(items), Value::Number(number)) = (list, number) else {
        return Err(EvalFault::Troubled(Trouble::Kind));
    };
    if *number < 1 || *number > items.count() as u64 {
        return Err(EvalFault::Troubled(Trouble::Range));
    }
    Ok(items.get((*number - 1) as usize).try_clone()?)
}

/// `append(X, E)`.
#[tactic(auto, using(crate::proofs::ItemsSeen::list_with_last, crate::proofs::EvaluationsRepeated::pushed_live))]
pub fn append(alloc: Global, pool: &Pool, list: &Value, last: &Value) -> Result<Value, EvalFault>
    requires list { IsLiveIn pool.now list.now }
    requires last { IsLiveIn pool.now last.now }
    ensures value { IsCall function.Append pool.now pool.now (list.now ∷ last.now ∷ []) result }
    ensures live { IfOk result (IsLiveIn pool.now) }
{
    let Value::Items(items) = list else {
        return Err(EvalFault::Troubled(Trouble::Kind));
    };
    let mut longer = items.try_clone()?;
    longer.push(alloc, last.try_clone()?)?;
    list_of(longer)
}

/// `vars(A)`.
pub fn vars(alloc: Global, pool: &mut Pool, formula: &Value) -> Result<Value, EvalFault>
    requires formula { IsLiveIn pool.old formula.now }
    ensures value { IsCall function.Vars pool.old pool.new (formula.now ∷ []) result }
    ensures live { IfOk result (IsLiveIn pool.new) }
    ensures grows { Grows pool.old pool.new }
{
    match formula {
        Value::Formula(a) => variables(alloc, pool, *a),
        _ => Err(EvalFault::Troubled(Trouble::Kind)),
    }
}

// The list of the formula's variables, each as a formula.
fn variables(alloc: Global, pool: &mut Pool, formula: FormId) -> Result<Value, EvalFault>
    requires { IsLive pool.old formula }
    ensures value { Gives (shown_in pool.new) (Lists (tree_at pool.old formula)) result }
    ensures live { IfOk result (IsLiveIn pool.new) }
    ensures grows { Grows pool.old pool.new }
{
    let names = pool.variables(formula)?;
    list_of(letters(alloc, pool, names.as_slice())?)
}

// The variables of these names, as formulas.
fn letters(alloc: Global, pool: &mut Pool, names: &[Name]) -> Result<Items, AllocError>
    ensures seen { IfOk result (λ items. seen_all pool.new (vals items) ≡ vals (letters_of names.now)) }
    ensures live { IfOk result (λ items. AreItemsLive pool.new (vals items)) }
    ensures grows { Grows pool.old pool.new }
{
    let mut letters = Items::new();
    for name in names {
        let letter = pool.make(Node::Var(name.try_clone()?))?;
        letters.push(alloc, Value::Formula(letter))?;
    }
    Ok(letters)
}
