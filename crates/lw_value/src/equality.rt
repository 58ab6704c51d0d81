ghost use Rattle.std.specs.Prelude.{◌≡◌, ◌↔◌, IfOk, IsTrue};
ghost use Rattle.lw_value.specs.Values.{AreLive, seen};
ghost use Rattle.lw_value.specs.Evidence.{HasNoCertificate};
ghost use Rattle.lw_value.specs.Views.{value_of};
ghost use Rattle.lw_value.specs.Private.Likeness.{Alike, HaveLikeHeads, is_certificate};

use crate::value::{Value, weight};
use crate::walk::{push_items, push_pairs};
use lw_pool::Pool;
use std::alloc::{AllocError, Global};

/// Whether no certificate stands in the value, inside lists neither. It fails for want of memory alone.
pub fn is_comparable(alloc: Global, value: &Value) -> Result<bool, AllocError>
    ensures { IfOk result (λ comparable. IsTrue comparable ↔ HasNoCertificate (value_of value.now)) }
{
    let mut left = Vec::new(alloc);
    left.push(value)?;
    while let Some(value) = left.pop() {
        if is_certificate(value) {
            return Ok(false);
        }
        push_items(value, &mut left)?;
    }
    Ok(true)
}

fn is_certificate(value: &Value) -> bool
    ensures { result ≡ is_certificate (value_of value.now) }
{
    matches!(value, Value::Certificate(_))
}

/// Whether the values have one kind and are equal, lists item by item; formulas are equal where their trees are. Lists
/// of different weights are told apart at once. It fails for want of memory alone.
pub fn are_equal(
    alloc: Global,
    pool: &Pool,
    left: &Value,
    right: &Value,
) -> Result<bool, AllocError>
    requires left_live { AreLive pool.now (value_of left.now) }
    requires right_live { AreLive pool.now (value_of right.now) }
    requires left_comparable { HasNoCertificate (value_of left.now) }
    requires right_comparable { HasNoCertificate (value_of right.now) }
    ensures { IfOk result (λ equal. IsTrue equal ↔ (seen pool.now (value_of left.now) ≡ seen pool.now (value_of right.now))) }
{
    let _ = pool.count();
    if weight(left) != weight(right) {
        return Ok(false);
    }
    are_alike(alloc, left, right)
}

/// Whether the values are the same, and have no certificate.
fn are_alike(alloc: Global, left: &Value, right: &Value) -> Result<bool, AllocError>
    ensures { IfOk result (λ alike. IsTrue alike ↔ Alike (value_of left.now) (value_of right.now)) }
{
    let mut pairs = Vec::new(alloc);
    pairs.push((left, right))?;
    while let Some((left, right)) = pairs.pop() {
        if !have_like_heads(left, right) {
            return Ok(false);
        }
        push_pairs(left, right, &mut pairs)?;
    }
    Ok(true)
}

/// Whether the values have one kind, and are equal, or lists of as many items.
fn have_like_heads(left: &Value, right: &Value) -> bool
    ensures { IsTrue result ↔ HaveLikeHeads (value_of left.now) (value_of right.now) }
{
    match (left, right) {
        (Value::Formula(left), Value::Formula(right)) => left == right,
        (Value::Truth(left), Value::Truth(right)) => left == right,
        (Value::Number(left), Value::Number(right)) => left == right,
        (Value::Text(left), Value::Text(right)) => left.as_bytes() == right.as_bytes(),
        (Value::Items(left), Value::Items(right)) => left.count() == right.count(),
        (Value::Logic(left), Value::Logic(right)) => left == right,
        (Value::Nothing, Value::Nothing) => true,
        _ => false,
    }
}
