ghost use Rattle.std.specs.Prelude.{◌≡◌, ◌<◌, false, [], List, IfOk, IfErr, MatchOption};
ghost use Rattle.lw_formula.specs.Formula.{Formula};
ghost use Rattle.lw_pool.specs.Region.{Grows};
ghost use Rattle.lw_cert.specs.Lines.{Whole};
ghost use Rattle.lw_cert.specs.CertificateFaults.{IsFaultOf};
ghost use Rattle.lw_cert.specs.Certificates.{IsTextOf};
ghost use Rattle.lw_cert.specs.Private.StageViews.{Leads, Refuses, IsNamedFault, last_piece, state_of};
ghost use Rattle.lw_cert.specs.Private.LineMachine.{is_modelling, is_ended};

use crate::certificate::Certificate;
use crate::fault::CertFault;
use crate::next::advanced;
use crate::split::first_line;
use crate::stage::Stage;
use lw_pool::Pool;
use std::alloc::Global;

/// The certificate of which the text is, its formulas in the pool. `ModelText` and `ProofText` come exactly where it is
/// that of none, with the first line, from 1, at which no certificate's text goes on, a step is deeper than 4,096, or a
/// formula's text has a fault. No memory is taken by the number of worlds that a text states. After every answer the
/// pool has what it had, and perhaps formulas above.
pub fn read_certificate(
    alloc: Global,
    pool: &mut Pool,
    text: &[u8],
) -> Result<Certificate, CertFault>
    ensures certificate { IfOk result (λ certificate. IsTextOf pool.new certificate text.now) }
    ensures fault { IfErr result (λ fault. IsFaultOf text.now fault) }
    ensures grows { Grows pool.old pool.new }
{
    let mut stage = Stage::Start;
    let mut rest = text;
    let mut at = 0;
    while let Some((line, next)) = first_line(rest) {
        stage = taken(alloc, pool, stage, line, at)?;
        rest = next;
        at += 1;
    }
    ended(stage, rest, at)
}

// Takes the line behind so many.
fn taken(
    alloc: Global,
    pool: &mut Pool,
    stage: Stage,
    line: &[u8],
    at: usize,
) -> Result<Stage, CertFault>
    requires { at < usize.MAX }
    ensures next { IfOk result (Leads line.now pool.old stage pool.new) }
    ensures fault { IfErr result (Refuses pool.old stage (Whole line.now) at) }
    ensures grows { Grows pool.old pool.new }
{
    let refused = refusal(&stage, at + 1);
    match advanced(alloc, pool, stage, line) {
        Ok(Some(next)) => Ok(next),
        Ok(None) => Err(refused),
        Err(_) => Err(CertFault::Memory),
    }
}

// Takes the end of the text behind so many lines, where the rest is what stands there without a line feed.
fn ended(stage: Stage, rest: &[u8], at: usize) -> Result<Certificate, CertFault>
    requires { at < usize.MAX }
    ensures certificate { IfOk result (λ certificate. (rest.now ≡ []) × (stage ≡ Stage.Ended certificate)) }
    ensures fault { IfErr result (λ fault. (ts : List Formula) → Refuses ts stage (last_piece rest.now) at fault) }
{
    let refused = refusal(&stage, at + 1);
    if !rest.is_empty() {
        return Err(refused);
    }
    match whole(stage) {
        Some(certificate) => Ok(certificate),
        None => Err(refused),
    }
}

// The certificate, where its lines are all there.
fn whole(stage: Stage) -> Option<Certificate>
    ensures { MatchOption result (is_ended (state_of stage) ≡ false) (λ certificate. stage ≡ Stage.Ended certificate) }
{
    match stage {
        Stage::Ended(certificate) => Some(certificate),
        Stage::Start => None,
        Stage::Headed => None,
        Stage::Chosen(_logic) => None,
        Stage::Named(_head) => None,
        Stage::Proving(_head, _depths, _steps) => None,
        Stage::Sizing(_head) => None,
        Stage::Counted(_head, _worlds) => None,
        Stage::Listing(_head, _table) => None,
    }
}

// The fault of a line at which no certificate goes on from the stage.
fn refusal(stage: &Stage, line: usize) -> CertFault
    ensures { IsNamedFault stage.now line result }
{
    if is_modelling(stage) {
        CertFault::ModelText { line }
    } else {
        CertFault::ProofText { line }
    }
}

// Whether the next line is one of the body of a model.
fn is_modelling(stage: &Stage) -> bool
    ensures { result ≡ is_modelling (state_of stage.now) }
{
    match stage {
        Stage::Sizing(_) | Stage::Counted(..) | Stage::Listing(..) => true,
        Stage::Start
        | Stage::Headed
        | Stage::Chosen(_)
        | Stage::Named(_)
        | Stage::Proving(..)
        | Stage::Ended(_) => false,
    }
}
