//! Cases on fixed points.

ghost use Rattle.lw_pool.specs.Region.{IsLive};

use crate::formulas::entered;
use crate::unanswered::Unanswered;
use lw_fix::{FixFault, fixed_point};
use lw_formula::Name;
use lw_pool::{FormId, Pool};
use lw_read::print_formula;
use std::alloc::{AllocError, Global};

// What the fault says.
fn refusal(alloc: Global, fault: FixFault) -> Result<Vec<u8>, Unanswered> {
    match fault {
        FixFault::NotModalised => Ok(said(alloc, "not modalised")?),
        FixFault::TooManyBoxes { count } => {
            Ok(format!(in alloc; "too many boxes {count}")?.into_bytes())
        }
        FixFault::Memory => Err(Unanswered),
    }
}

fn said(alloc: Global, words: &str) -> Result<Vec<u8>, AllocError> {
    Vec::from_slice(alloc, words.as_bytes())
}

fn solved(alloc: Global, pool: &mut Pool, name: &Name, id: FormId) -> Result<Vec<u8>, Unanswered>
    requires { IsLive pool.old id }
{
    match fixed_point(alloc, pool, name, id) {
        Ok(form) => Ok(print_formula(alloc, pool, form)?),
        Err(fault) => refusal(alloc, fault),
    }
}

/// The fixed point for the variable that is named first of the formula behind it, or why it has none.
pub fn fixed_point_line(alloc: Global, rest: &str) -> Result<Vec<u8>, Unanswered> {
    let (name, text) = rest.split_once(' ').ok_or(Unanswered)?;
    let name = Name::from_bytes(alloc, name.as_bytes())?;
    let mut pool = Pool::new(alloc);
    let id = entered(alloc, &mut pool, text.as_bytes())?;
    solved(alloc, &mut pool, &name, id)
}
