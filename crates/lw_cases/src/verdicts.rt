//! What the judge of proofs says in each logic.

ghost use Rattle.lw_cert.specs.Sheet.{Sheet};
ghost use Rattle.lw_cert.specs.Certificates.{IsSheetOf};

use crate::certificates::LOGICS;
use crate::items::add_item;
use crate::unanswered::Unanswered;
use lw_cert::{Body, Certificate, read_certificate};
use lw_check::{Verdict, check};
use lw_formula::Logic;
use lw_pool::Pool;
use std::alloc::{AllocError, Global};

fn verdict_text(alloc: Global, verdict: Verdict) -> Result<String, AllocError> {
    match verdict {
        Verdict::Accepted => String::from_str(alloc, "accepted"),
        Verdict::Rejected { step, why } => format!(in alloc; "{step} {why:?}"),
    }
}

// The verdict on the certificate's proof in the logic.
fn verdict_on(
    alloc: Global,
    pool: &mut Pool,
    logic: Logic,
    certificate: &Certificate,
) -> Result<Verdict, Unanswered>
    requires { (sheet : Sheet) × IsSheetOf pool.old certificate.now sheet }
{
    match &certificate.body {
        Body::Proved(proof) => Ok(check(alloc, pool, logic, certificate.formula, proof)?),
        Body::Refuted(..) => Err(Unanswered),
    }
}

fn verdict_in(alloc: Global, logic: Logic, text: &[u8]) -> Result<Verdict, Unanswered> {
    let mut pool = Pool::new(alloc);
    let certificate = read_certificate(alloc, &mut pool, text)?;
    verdict_on(alloc, &mut pool, logic, &certificate)
}

/// The verdicts on the proof of the text in each logic, whichever logic the text names.
pub fn verdicts_line(alloc: Global, text: &[u8]) -> Result<String, Unanswered> {
    let mut list = String::new(alloc);
    for logic in &LOGICS {
        let verdict = verdict_in(alloc, *logic, text)?;
        add_item(&mut list, verdict_text(alloc, verdict)?.as_str())?;
    }
    Ok(list)
}
