//! Cases on formulas without variables in GL.

ghost use Rattle.lw_pool.specs.Region.{IsLive};

use crate::formulas::entered;
use crate::items::add_item;
use crate::unanswered::Unanswered;
use lw_formula::Name;
use lw_pool::{FormId, Pool};
use lw_read::print_formula;
use lw_trace::{Trace, TraceFault, letterless, trace};
use std::alloc::{AllocError, Global};

// The truth value at great heights, and the heights at which it is the other one.
fn trace_text(alloc: Global, trace: &Trace) -> Result<String, AllocError> {
    let mut list = String::from_str(alloc, if trace.rest() { "yes" } else { "no" })?;
    for height in trace.heights() {
        add_item(&mut list, format!(in alloc; "{height}")?.as_str())?;
    }
    Ok(list)
}

fn name_refusal(alloc: Global, name: &Name) -> Result<Vec<u8>, AllocError> {
    let mut text = Vec::from_slice(alloc, b"not letterless ")?;
    text.extend_from_slice(name.as_bytes())?;
    Ok(text)
}

// What the fault says.
fn refusal(alloc: Global, fault: &TraceFault) -> Result<Vec<u8>, Unanswered> {
    match fault {
        TraceFault::NotLetterless { name } => Ok(name_refusal(alloc, name)?),
        TraceFault::TooLarge { count } => {
            Ok(format!(in alloc; "too large {count}")?.into_bytes())
        }
        TraceFault::Memory => Err(Unanswered),
    }
}

// The normal form, printed behind the trace.
fn with_form(
    alloc: Global,
    pool: &mut Pool,
    id: FormId,
    trace: &Trace,
) -> Result<Vec<u8>, Unanswered>
    requires { IsLive pool.old id }
{
    let mut line = format!(in alloc; "{}; ", trace_text(alloc, trace)?)?.into_bytes();
    match letterless(alloc, pool, id) {
        Ok(form) => line.extend_from_slice(&print_formula(alloc, pool, form)?)?,
        Err(fault) => line.extend_from_slice(&refusal(alloc, &fault)?)?,
    }
    Ok(line)
}

fn traced(alloc: Global, pool: &mut Pool, id: FormId) -> Result<Vec<u8>, Unanswered>
    requires { IsLive pool.old id }
{
    match trace(alloc, pool, id) {
        Ok(trace) => with_form(alloc, pool, id, &trace),
        Err(fault) => refusal(alloc, &fault),
    }
}

/// The trace of the formula and its normal form, or why it has none.
pub fn trace_line(alloc: Global, text: &[u8]) -> Result<Vec<u8>, Unanswered> {
    let mut pool = Pool::new(alloc);
    let id = entered(alloc, &mut pool, text)?;
    traced(alloc, &mut pool, id)
}
