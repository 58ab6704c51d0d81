//! Cases on certificates.

ghost use Rattle.std.specs.Prelude.{◌≡◌};
ghost use Rattle.lw_cases.specs.Certified.{certificate_of};

use crate::formulas::entered;
use crate::repeats::{add_repeat, repeat_list};
use crate::setting::Setting;
use crate::top_call::{both_lines, shrunk_line};
use crate::unanswered::Unanswered;
use lw_cert::{Body, CertFault, Certificate, certificate_text, read_certificate};
use lw_counter::Answer;
use lw_decide::decide;
use lw_formula::Logic;
use lw_pool::{FormId, Pool};
use lw_proof::Proof;
use std::alloc::{AllocError, Global};

/// The logics, in the order in which each is named.
pub const LOGICS: [Logic; 8] = [
    Logic::K,
    Logic::KT,
    Logic::S4,
    Logic::S5,
    Logic::GL,
    Logic::Grz,
    Logic::K4,
    Logic::KD,
];

// The certificate of the answer to the formula.
fn certificate_of(logic: Logic, formula: FormId, answer: Answer) -> Certificate
    ensures { result ≡ certificate_of logic formula answer }
{
    let body = match answer {
        Answer::Yes(proof) => Body::Proved(proof),
        Answer::No(model, world) => Body::Refuted(model, world),
    };
    Certificate {
        logic,
        formula,
        body,
    }
}

// The text of the certificate that shows whether the text's formula is valid in the logic.
fn certified(alloc: Global, logic: Logic, text: &[u8]) -> Result<Vec<u8>, Unanswered> {
    let mut pool = Pool::new(alloc);
    certified_in(alloc, &mut pool, logic, text)
}

fn certified_in(
    alloc: Global,
    pool: &mut Pool,
    logic: Logic,
    text: &[u8],
) -> Result<Vec<u8>, Unanswered> {
    let formula = entered(alloc, pool, text)?;
    let answer = decide(alloc, pool, logic, formula)?;
    let certificate = certificate_of(logic, formula, answer);
    Ok(certificate_text(alloc, pool, &certificate)?)
}

// What a script and `check` write in the logic, with their statuses.
fn logic_line(setting: &Setting, logic: Logic) -> Result<Vec<u8>, Unanswered> {
    let lines = both_lines(setting, logic)?;
    let mut line = format!(in setting.alloc; "{}: ", logic.word())?.into_bytes();
    line.extend_from_slice(&lines)?;
    Ok(line)
}

/// In each logic what a script prints of whether the text is valid, and what `check` writes of the certificate that a
/// script prints of it.
pub fn logics_line(setting: &Setting) -> Result<Vec<u8>, Unanswered> {
    let mut line = Vec::new(setting.alloc);
    for logic in &LOGICS {
        line.extend_from_slice(&logic_line(setting, *logic)?)?;
    }
    Ok(line)
}

// What `check` writes in the logic of the certificate with the smallest model.
fn shrunk_in(setting: &Setting, logic: Logic) -> Result<Vec<u8>, AllocError> {
    let mut line = format!(in setting.alloc; "{}: ", logic.word())?.into_bytes();
    line.extend_from_slice(&shrunk_line(setting, logic)?)?;
    Ok(line)
}

/// In each logic what `check` writes of the certificate of the text that a script prints with the smallest model.
pub fn shrunk_lines(setting: &Setting) -> Result<Vec<u8>, Unanswered> {
    let mut line = Vec::new(setting.alloc);
    for logic in &LOGICS {
        line.extend_from_slice(&shrunk_in(setting, *logic)?)?;
    }
    Ok(line)
}

/// Whether the text is written again, from a copy of the certificate that is read from it.
pub fn copy_line(alloc: Global, text: &[u8]) -> Result<&'static str, Unanswered> {
    let mut pool = Pool::new(alloc);
    let certificate = read_certificate(alloc, &mut pool, text)?;
    let again = certificate_text(alloc, &pool, &certificate.try_clone()?)?;
    Ok(if again.as_slice() == text {
        "the same"
    } else {
        "another"
    })
}

// The numbers of a copy of the proof.
fn numbers_of(alloc: Global, proof: &Proof) -> Result<String, AllocError> {
    let copy = proof.try_clone()?;
    let (lines, depth, count) = (copy.lines(), copy.depth(), copy.count());
    format!(in alloc; "{lines} lines, depth {depth}, {count} subproofs")
}

/// How many lines the text's proof has, how deep it is, and how many subproofs its first step has.
pub fn proof_line(alloc: Global, text: &[u8]) -> Result<String, Unanswered> {
    let mut pool = Pool::new(alloc);
    match read_certificate(alloc, &mut pool, text)?.body {
        Body::Proved(proof) => Ok(numbers_of(alloc, &proof)?),
        Body::Refuted(..) => Err(Unanswered),
    }
}

// Why the text is no certificate's, if it is none.
fn fault(alloc: Global, text: &[u8]) -> Option<CertFault> {
    let mut pool = Pool::new(alloc);
    read_certificate(alloc, &mut pool, text).err()
}

fn fault_text(alloc: Global, text: &[u8]) -> Result<String, AllocError> {
    match fault(alloc, text) {
        Some(CertFault::ModelText { line }) => format!(in alloc; "model {line}"),
        Some(CertFault::ProofText { line }) => format!(in alloc; "proof {line}"),
        Some(CertFault::Memory) => Err(AllocError),
        None => String::from_str(alloc, "none"),
    }
}

/// The faults of the text cut behind each of its bytes from none on, each with how often it comes in a row.
pub fn cut_line(alloc: Global, text: &[u8]) -> Result<String, AllocError> {
    let mut faults = Vec::new(alloc);
    for len in 0..=text.len() {
        add_repeat(&mut faults, fault_text(alloc, &text[..len])?)?;
    }
    repeat_list(alloc, &faults)
}
