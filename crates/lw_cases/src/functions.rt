//! Cases on the functions on formulas: what they give for a formula, printed.

ghost use Rattle.lw_pool.specs.Region.{IsLive};

use crate::formulas::entered;
use crate::unanswered::Unanswered;
use lw_normal::{nnf, simplify};
use lw_pool::{FormId, Pool};
use lw_read::print_formula;
use lw_trans::{Connective, TransFault, boxdot, goedel};
use std::alloc::{AllocError, Global};

// What the function of this name gives.
fn image(alloc: Global, pool: &mut Pool, verb: &str, id: FormId) -> Result<Vec<u8>, Unanswered>
    requires { IsLive pool.old id }
{
    let image = match verb {
        "nnf" => nnf(alloc, pool, id)?,
        "simplify" => simplify(alloc, pool, id)?,
        _ => boxdot(alloc, pool, id)?,
    };
    Ok(print_formula(alloc, pool, image)?)
}

/// What `nnf`, `simplify` or `boxdot` gives for the formula.
pub fn image_line(alloc: Global, verb: &str, text: &[u8]) -> Result<Vec<u8>, Unanswered> {
    let mut pool = Pool::new(alloc);
    let id = entered(alloc, &mut pool, text)?;
    image(alloc, &mut pool, verb, id)
}

fn word(what: Connective) -> &'static str {
    match what {
        Connective::Nec => "box",
        Connective::Poss => "dia",
        Connective::Iff => "<->",
        Connective::Top => "true",
    }
}

// What the fault says.
fn fault_line(alloc: Global, fault: TransFault) -> Result<Vec<u8>, Unanswered> {
    match fault {
        TransFault::NotIntuitionistic { what } => Ok(refusal(alloc, what)?),
        TransFault::Memory => Err(Unanswered),
    }
}

fn refusal(alloc: Global, what: Connective) -> Result<Vec<u8>, AllocError> {
    Ok(format!(in alloc; "not intuitionistic {}", word(what))?.into_bytes())
}

// What `goedel` gives.
fn translated(alloc: Global, pool: &mut Pool, id: FormId) -> Result<Vec<u8>, Unanswered>
    requires { IsLive pool.old id }
{
    match goedel(alloc, pool, id) {
        Ok(image) => Ok(print_formula(alloc, pool, image)?),
        Err(fault) => fault_line(alloc, fault),
    }
}

/// What `goedel` gives for the formula, or the connective that it names.
pub fn goedel_line(alloc: Global, text: &[u8]) -> Result<Vec<u8>, Unanswered> {
    let mut pool = Pool::new(alloc);
    let id = entered(alloc, &mut pool, text)?;
    translated(alloc, &mut pool, id)
}
