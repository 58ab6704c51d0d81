ghost use Rattle.std.specs.Prelude.{◌≤◌, ◌<◌, ℕ, List, IfOk};
ghost use Rattle.lw_pool.specs.Region.{IsLive, tree_at};
ghost use Rattle.lw_proof.specs.Pooled.{IsProofLive, proof_at};
ghost use Rattle.lw_cert.specs.Sheet.{Sheet, Steps};
ghost use Rattle.lw_cert.specs.Certificates.{IsSheetOf};
ghost use Rattle.lw_cli.specs.Checked.{IsFinding, IsJudged};
ghost use Rattle.lw_cli.specs.Commands.{CheckOutcome};
ghost use Rattle.lw_cli.specs.Private.CheckSteps.{IsRefutation, IsTextFault};
ghost use Rattle.lw_cert.specs.CertificateFaults.{IsFaultOf};

use crate::file_limit::FILE_LIMIT;
use crate::finding::Finding;
use crate::report::Report;
use lw_cert::{Body, CertFault, Certificate, read_certificate};
use lw_check::{Verdict, check};
use lw_formula::Logic;
use lw_model::{Model, holds, in_class};
use lw_pool::{FormId, Pool};
use lw_proof::Proof;
use std::alloc::{AllocError, Global};

/// What is to be said of a file of these bytes. It fails for want of memory alone.
fn finding_of(alloc: Global, bytes: &[u8]) -> Result<Finding, AllocError>
    ensures { IfOk result (IsFinding bytes.now) }
{
    if bytes.len() > FILE_LIMIT {
        return Ok(Finding::FileLimit);
    }
    let mut pool = Pool::new(alloc);
    match read_certificate(alloc, &mut pool, bytes) {
        Ok(certificate) => judged(alloc, &mut pool, &certificate),
        Err(fault) => refusal(&fault),
    }
}

// What is to be said of a text with this fault.
fn refusal(fault: &CertFault) -> Result<Finding, AllocError>
    ensures { (bytes : List ℕ) → IsFaultOf bytes fault.now → IfOk result (IsTextFault bytes) }
{
    match fault {
        CertFault::ModelText { line } => Ok(Finding::ModelText(*line)),
        CertFault::ProofText { line } => Ok(Finding::ProofText(*line)),
        CertFault::Memory => Err(AllocError),
    }
}

// What is to be said of the certificate.
fn judged(alloc: Global, pool: &mut Pool, certificate: &Certificate) -> Result<Finding, AllocError>
    requires { (sheet : Sheet) × IsSheetOf pool.old certificate.now sheet }
    ensures { (sheet : Sheet) → IsSheetOf pool.old certificate.now sheet → IfOk result (IsJudged sheet.logic sheet.formula sheet.content) }
{
    let logic = certificate.logic;
    let formula = certificate.formula;
    match &certificate.body {
        Body::Proved(proof) => proof_finding(alloc, pool, logic, formula, proof),
        Body::Refuted(model, world) => { model_finding(alloc, pool, logic, formula, model, *world) }
    }
}

// What is to be said of the proof.
fn proof_finding(
    alloc: Global,
    pool: &mut Pool,
    logic: Logic,
    goal: FormId,
    proof: &Proof,
) -> Result<Finding, AllocError>
    requires goal { IsLive pool.old goal }
    requires proof { IsProofLive pool.old proof.now }
    ensures { IfOk result (IsJudged logic (tree_at pool.old goal) (Steps (proof_at pool.old proof.now))) }
{
    match check(alloc, pool, logic, goal, proof)? {
        Verdict::Accepted => Ok(Finding::Accepted),
        Verdict::Rejected { step, .. } => Ok(Finding::RejectedStep(step)),
    }
}

// What is to be said of the model.
fn model_finding(
    alloc: Global,
    pool: &Pool,
    logic: Logic,
    goal: FormId,
    model: &Model,
    world: usize,
) -> Result<Finding, AllocError>
    requires goal { IsLive pool.now goal }
    requires world { world < model.now.worlds }
    ensures { IfOk result (IsRefutation logic (tree_at pool.now goal) model.now world) }
{
    let _worlds = model.worlds();
    if !in_class(model, logic) {
        return Ok(Finding::RejectedModel);
    }
    if holds(alloc, model, world, pool, goal)? {
        Ok(Finding::RejectedModel)
    } else {
        Ok(Finding::Accepted)
    }
}

/// What is to be said of the certificate whose text these bytes are. It fails for want of memory alone.
pub fn check_report(alloc: Global, bytes: &[u8]) -> Result<Report, AllocError>
    ensures report { IfOk result (λ report. CheckOutcome bytes.now report.line.items report.status) }
    ensures status { IfOk result (λ report. report.status ≤ 1) }
{
    let finding = finding_of(alloc, bytes)?;
    Ok(Report {
        line: finding.line(alloc)?.into_bytes(),
        status: finding.status(),
    })
}
