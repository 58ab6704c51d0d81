//! Cases on the closure of the text's formula.

ghost use Rattle.std.specs.Prelude.{◌<◌};
ghost use Rattle.lw_closure.specs.Table.{item_count};

use crate::formulas::entered;
use crate::items::add_item;
use crate::unanswered::Unanswered;
use lw_closure::{Closure, ClosureFault, closure};
use lw_formula::Logic;
use lw_pool::Pool;
use std::alloc::{AllocError, Global};

// The item's components, its guard if it has one, and whether it is absurd.
fn item_text(alloc: Global, table: &Closure, item: usize) -> Result<String, AllocError>
    requires { item < item_count table.now }
{
    let mut text = format!(in alloc; "{item} {:?}", table.parts(item))?;
    if let Some(guard) = table.guard(item) {
        write!(text, " guard {guard}")?;
    }
    if table.absurd(item) {
        text.push_str(" absurd")?;
    }
    Ok(text)
}

fn table_text(alloc: Global, table: &Closure) -> Result<String, AllocError> {
    let mut list = format!(in alloc; "{} formulas", table.count())?;
    for item in 0..2 * table.count() {
        add_item(&mut list, item_text(alloc, table, item)?.as_str())?;
    }
    Ok(list)
}

/// Each item of the closure in the logic, or how many formulas are too many.
pub fn closure_line(alloc: Global, logic: Logic, text: &[u8]) -> Result<String, Unanswered> {
    let mut pool = Pool::new(alloc);
    items_in(alloc, &mut pool, logic, text)
}

fn items_in(
    alloc: Global,
    pool: &mut Pool,
    logic: Logic,
    text: &[u8],
) -> Result<String, Unanswered> {
    let goal = entered(alloc, pool, text)?;
    match closure(alloc, pool, logic, goal) {
        Ok(table) => Ok(table_text(alloc, &table)?),
        Err(ClosureFault::TooLarge { count }) => Ok(format!(in alloc; "too large {count}")?),
        Err(ClosureFault::Memory) => Err(Unanswered),
    }
}
