//! Cases on interpolants: what is read off the text's proof, and whether it is an interpolant.

ghost use Rattle.lw_formula.specs.Formula.{impl};
ghost use Rattle.lw_pool.specs.Region.{IsLive, Grows, tree_at};
ghost use Rattle.lw_proof.specs.Derivation.{Proves};
ghost use Rattle.lw_proof.specs.Pooled.{proof_at, IsProofLive};
ghost use Rattle.lw_cert.specs.Sheet.{Sheet};
ghost use Rattle.lw_cert.specs.Certificates.{IsSheetOf};

use crate::unanswered::Unanswered;
use lw_cert::{Body, Certificate, read_certificate};
use lw_check::{Verdict, check};
use lw_counter::Answer;
use lw_decide::decide;
use lw_formula::{Logic, Name};
use lw_interp::{InterpFault, interpolant};
use lw_pool::{FormId, Node, Pool};
use lw_proof::Proof;
use lw_read::print_formula;
use std::alloc::{AllocError, Global};

/// The interpolant that is read off the text's proof, and whether it is one; or that the text's logic has none.
pub fn interpolant_line(alloc: Global, text: &[u8]) -> Result<Vec<u8>, Unanswered> {
    let mut pool = Pool::new(alloc);
    let certificate = read_certificate(alloc, &mut pool, text)?;
    of_certificate(alloc, &mut pool, &certificate)
}

fn of_certificate(
    alloc: Global,
    pool: &mut Pool,
    certificate: &Certificate,
) -> Result<Vec<u8>, Unanswered>
    requires { (sheet : Sheet) × IsSheetOf pool.old certificate.now sheet }
{
    let (logic, goal) = (certificate.logic, certificate.formula);
    match &certificate.body {
        Body::Proved(proof) => of_proof(alloc, pool, logic, goal, proof),
        Body::Refuted(..) => Err(Unanswered),
    }
}

// Of a proof that the judge accepts.
fn of_proof(
    alloc: Global,
    pool: &mut Pool,
    logic: Logic,
    goal: FormId,
    proof: &Proof,
) -> Result<Vec<u8>, Unanswered>
    requires goal { IsLive pool.old goal }
    requires proof { IsProofLive pool.old proof.now }
{
    match check(alloc, pool, logic, goal, proof)? {
        Verdict::Accepted => of_accepted(alloc, pool, logic, goal, proof),
        Verdict::Rejected { .. } => Err(Unanswered),
    }
}

fn of_accepted(
    alloc: Global,
    pool: &mut Pool,
    logic: Logic,
    goal: FormId,
    proof: &Proof,
) -> Result<Vec<u8>, Unanswered>
    requires goal { IsLive pool.old goal }
    requires proof { IsProofLive pool.old proof.now }
    requires proved { Proves logic (proof_at pool.old proof.now) (tree_at pool.old goal) }
{
    match pool.node(goal) {
        Node::Imp(left, right) => {
            let (left, right) = (*left, *right);
            between(alloc, pool, logic, proof, left, right)
        }
        _ => Err(Unanswered),
    }
}

// What is read off the proof of `left -> right`.
fn between(
    alloc: Global,
    pool: &mut Pool,
    logic: Logic,
    proof: &Proof,
    left: FormId,
    right: FormId,
) -> Result<Vec<u8>, Unanswered>
    requires left { IsLive pool.old left }
    requires right { IsLive pool.old right }
    requires proof { IsProofLive pool.old proof.now }
    requires proved { Proves logic (proof_at pool.old proof.now) (impl (tree_at pool.old left) (tree_at pool.old right)) }
{
    match interpolant(alloc, pool, logic, proof, left, right) {
        Ok(id) => told(alloc, pool, logic, (left, id, right)),
        Err(InterpFault::NoInterpolants { logic }) => Ok(refusal(alloc, logic)?),
        Err(InterpFault::Memory) => Err(Unanswered),
    }
}

fn refusal(alloc: Global, logic: Logic) -> Result<Vec<u8>, AllocError> {
    Ok(format!(in alloc; "no interpolants {}", logic.word())?.into_bytes())
}

// The formula in the middle, and whether it is an interpolant of the others.
fn told(
    alloc: Global,
    pool: &mut Pool,
    logic: Logic,
    formulas: (FormId, FormId, FormId),
) -> Result<Vec<u8>, Unanswered>
    requires left { IsLive pool.old formulas.0 }
    requires between { IsLive pool.old formulas.1 }
    requires right { IsLive pool.old formulas.2 }
{
    let (left, id, right) = formulas;
    let mut line = print_formula(alloc, pool, id)?;
    let stands = are_within(pool, id, left)? && are_within(pool, id, right)?;
    let follows = implies(alloc, pool, logic, left, id)? && implies(alloc, pool, logic, id, right)?;
    line.extend_from_slice(if stands && follows {
        b", an interpolant"
    } else {
        b", no interpolant"
    })?;
    Ok(line)
}

// Whether the implication is decided to be valid.
fn implies(
    alloc: Global,
    pool: &mut Pool,
    logic: Logic,
    left: FormId,
    right: FormId,
) -> Result<bool, Unanswered>
    requires left { IsLive pool.old left }
    requires right { IsLive pool.old right }
    ensures { Grows pool.old pool.new }
{
    let goal = pool.make(Node::Imp(left, right))?;
    match decide(alloc, pool, logic, goal)? {
        Answer::Yes(_) => Ok(true),
        Answer::No(..) => Ok(false),
    }
}

// Whether the first formula's variables are among the other's.
fn are_within(pool: &Pool, inner: FormId, outer: FormId) -> Result<bool, AllocError>
    requires inner { IsLive pool.now inner }
    requires outer { IsLive pool.now outer }
{
    let names = pool.variables(outer)?;
    for name in &pool.variables(inner)? {
        if !has(&names, name) {
            return Ok(false);
        }
    }
    Ok(true)
}

fn has(names: &[Name], name: &Name) -> bool {
    names
        .iter()
        .any(|other| other.as_bytes() == name.as_bytes())
}
