ghost use Rattle.std.specs.Prelude.{◌≡◌, ◌++◌, OnOk};
ghost use Rattle.lw_value.specs.Views.{value_of};
ghost use Rattle.lw_value.specs.Private.LengthsLeft.{values_under, items_of};
ghost use Rattle.lw_value.specs.Private.Likeness.{pairs_under, pairs_of};

use crate::value::Value;
use std::alloc::AllocError;

/// Puts the items, if it is a list, behind what is left.
pub fn push_items<'a>(value: &'a Value, left: &mut Vec<&'a Value>) -> Result<(), AllocError>
    ensures { OnOk result (values_under left.new.items ≡ values_under left.old.items ++ items_of (value_of value.now)) }
{
    if let Value::Items(items) = value {
        for item in items.as_slice() {
            left.push(item)?;
        }
    }
    Ok(())
}

/// Puts the items of both, if both are lists, pair by pair behind what is left.
pub fn push_pairs<'a>(
    left: &'a Value,
    right: &'a Value,
    pairs: &mut Vec<(&'a Value, &'a Value)>,
) -> Result<(), AllocError>
    ensures { OnOk result (pairs_under pairs.new.items ≡ pairs_under pairs.old.items ++ pairs_of (value_of left.now) (value_of right.now)) }
{
    if let Value::Items(left) = left {
        if let Value::Items(right) = right {
            for pair in left.as_slice().iter().zip(right.as_slice()) {
                pairs.push(pair)?;
            }
        }
    }
    Ok(())
}
