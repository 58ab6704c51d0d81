ghost use Rattle.std.specs.Prelude.{◌≡◌, ◌+◌, ◌-◌, ◌*◌, ◌++◌, length, min, map, IfOk, OnOk, IfSome, IfNone, [], ◌<◌};
ghost use Rattle.std.specs.Fmt.{decimal};
ghost use Rattle.lw_value.specs.Values.{AreLive, AreItemsLive, seen, seen_all};
ghost use Rattle.lw_value.specs.ValueTexts.{measure_of, line_measure};
ghost use Rattle.lw_value.specs.Views.{value_of, values_of};
ghost use Rattle.lw_value.specs.Private.LengthsLeft.{own_length};

use crate::text::truth_text;
use crate::value::Value;
use crate::walk::push_items;
use lw_pool::Pool;
use lw_read::{LONGEST_TEXT, text_length};
use std::alloc::{AllocError, Global};

/// The measured length of the value, or 1,048,577 where it is greater: in bytes, that of its text, but a certificate,
/// inside lists too, is measured by its formula's text. Shared formulas are measured once, and no further item is looked
/// at once the length is too great. It fails for want of memory alone.
pub fn measured(alloc: Global, pool: &Pool, value: &Value) -> Result<usize, AllocError>
    requires { AreLive pool.now (value_of value.now) }
    ensures { IfOk result (λ len. len ≡ min (measure_of (seen pool.now (value_of value.now))) (LONGEST_TEXT + 1)) }
{
    let mut left = Vec::new(alloc);
    left.push(value)?;
    let mut total: usize = 0;
    while let Some(value) = left.pop() {
        total = total.saturating_add(own_length(alloc, pool, value)?);
        if total > LONGEST_TEXT {
            return Ok(LONGEST_TEXT + 1);
        }
        push_items(value, &mut left)?;
    }
    Ok(total)
}

/// The measured length of the line that is printed of the values, or 1,048,577 where it is greater: theirs and the
/// spaces between them, in bytes. It fails for want of memory alone.
pub fn measured_line(alloc: Global, pool: &Pool, values: &[Value]) -> Result<usize, AllocError>
    requires { AreItemsLive pool.now (values_of values.now) }
    ensures { IfOk result (λ len. len ≡ min (line_measure (seen_all pool.now (values_of values.now))) (LONGEST_TEXT + 1)) }
{
    let mut total = values.len().saturating_sub(1);
    for value in values {
        total = total.saturating_add(measured(alloc, pool, value)?);
    }
    Ok(total.min(LONGEST_TEXT + 1))
}

/// The length of the value's text without its items', or the greatest `usize` where it is longer.
fn own_length(alloc: Global, pool: &Pool, value: &Value) -> Result<usize, AllocError>
    requires { AreLive pool.now (value_of value.now) }
    ensures { IfOk result (λ len. len ≡ min (own_length (seen pool.now (value_of value.now))) usize.MAX) }
{
    match value {
        Value::Formula(id) => text_length(alloc, pool, *id),
        Value::Truth(truth) => Ok(truth_text(*truth).len()),
        Value::Number(number) => Ok(format!(in alloc; "{number}")?.len()),
        Value::Text(text) => Ok(text.as_bytes().len()),
        Value::Items(items) => Ok(
            items
                .count()
                .saturating_sub(1)
                .saturating_mul(2)
                .saturating_add(2),
        ),
        Value::Logic(logic) => Ok(logic.word().len()),
        Value::Certificate(certificate) => text_length(alloc, pool, certificate.formula),
        Value::Nothing => Ok(4),
    }
}
