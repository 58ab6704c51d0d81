//! Formulas that no text can have: deep ones, and ones that share much.

ghost use Rattle.std.specs.Prelude.{IfOk};
ghost use Rattle.lw_pool.specs.Region.{IsLive, Grows};

use crate::formulas::length_of_text;
use crate::unanswered::Unanswered;
use lw_cert::{Body, Certificate, certificate_text};
use lw_formula::{Logic, Name};
use lw_model::Model;
use lw_pool::{FormId, Node, Pool};
use lw_read::PrintFault;
use std::alloc::{AllocError, Global};

fn letter(alloc: Global, pool: &mut Pool) -> Result<FormId, Unanswered>
    ensures live { IfOk result (IsLive pool.new) }
    ensures grows { Grows pool.old pool.new }
{
    Ok(pool.make(Node::Var(Name::from_bytes(alloc, b"p")?))?)
}

// `p` under so many boxes
fn boxed(alloc: Global, pool: &mut Pool, boxes: usize) -> Result<FormId, Unanswered>
    ensures { IfOk result (IsLive pool.new) }
{
    let mut form = letter(alloc, pool)?;
    'boxes: for _ in 0..boxes {
        form = pool.make(Node::Nec(form))?;
    }
    Ok(form)
}

// What the pool says of the formula.
fn about(alloc: Global, pool: &Pool, id: FormId) -> Result<String, AllocError>
    requires { IsLive pool.now id }
{
    let count = pool.subformulas(id)?.len();
    let depth = pool.modal_depth(id)?;
    let names = pool.variables(id)?.len();
    format!(in alloc; "depth {depth}, {names} variables, {count} subformulas")
}

// What the pool says of `p` under so many boxes.
fn about_boxes(alloc: Global, pool: &mut Pool, boxes: usize) -> Result<String, Unanswered> {
    let top = boxed(alloc, pool, boxes)?;
    Ok(about(alloc, pool, top)?)
}

/// What a pool says of `p` under so many boxes.
pub fn boxes_line(alloc: Global, boxes: usize) -> Result<String, Unanswered> {
    let mut pool = Pool::new(alloc);
    about_boxes(alloc, &mut pool, boxes)
}

// How many formulas are left where they are released.
fn left(alloc: Global, pool: &mut Pool, boxes: usize) -> Result<usize, Unanswered> {
    let count = pool.count();
    let mark = pool.mark();
    let _ = boxed(alloc, pool, boxes)?;
    if pool.count() < count {
        return Err(Unanswered);
    }
    pool.release(mark);
    Ok(pool.count())
}

/// How many formulas are left where `p` under so many boxes is released in a pool that had it under three.
pub fn released_line(alloc: Global, boxes: usize) -> Result<String, Unanswered> {
    let mut pool = Pool::new(alloc);
    let _ = boxed(alloc, &mut pool, 3)?;
    let count = left(alloc, &mut pool, boxes)?;
    Ok(format!(in alloc; "{count} left")?)
}

/// `p`, joined with itself by `&` so many times over
pub fn doubled(alloc: Global, pool: &mut Pool, times: usize) -> Result<FormId, Unanswered>
    ensures live { IfOk result (IsLive pool.new) }
    ensures grows { Grows pool.old pool.new }
{
    let mut form = letter(alloc, pool)?;
    'times: for _ in 0..times {
        form = pool.make(Node::And(form, form))?;
    }
    Ok(form)
}

// What the pool says of `p` joined with itself so many times over.
fn about_doubled(alloc: Global, pool: &mut Pool, times: usize) -> Result<String, Unanswered> {
    let top = doubled(alloc, pool, times)?;
    Ok(lengths(alloc, pool, top)?)
}

/// What a pool says of `p` joined with itself so many times over: as a tree it has 2^n leaves.
pub fn doubled_line(alloc: Global, times: usize) -> Result<String, Unanswered> {
    let mut pool = Pool::new(alloc);
    about_doubled(alloc, &mut pool, times)
}

// How long the formula's text is, and that of a certificate.
fn lengths(alloc: Global, pool: &Pool, id: FormId) -> Result<String, AllocError>
    requires { IsLive pool.now id }
{
    let count = pool.subformulas(id)?.len();
    let length = length_of_text(alloc, pool, id)?;
    let written = written_length(alloc, pool, id)?;
    format!(in alloc; "{count} subformulas, {length}, certificate {written}")
}

fn named(alloc: Global, pool: &mut Pool, name: &[u8]) -> Result<FormId, Unanswered>
    ensures live { IfOk result (IsLive pool.new) }
    ensures grows { Grows pool.old pool.new }
{
    Ok(pool.make(Node::Var(Name::from_bytes(alloc, name)?))?)
}

// How many distinct subformulas the formula has once `q` is put for `p`.
fn renamed(alloc: Global, pool: &mut Pool, times: usize) -> Result<usize, Unanswered> {
    let top = doubled(alloc, pool, times)?;
    let q = named(alloc, pool, b"q")?;
    let changed = pool.substitute(top, &Name::from_bytes(alloc, b"p")?, q)?;
    Ok(pool.subformulas(changed)?.len())
}

/// How many formulas a pool has, once `q` is put for `p` in `p` joined with itself so many times over.
pub fn renamed_line(alloc: Global, times: usize) -> Result<String, Unanswered> {
    let mut pool = Pool::new(alloc);
    let count = renamed(alloc, &mut pool, times)?;
    Ok(format!(in alloc; "{count} subformulas, {} in all", pool.count())?)
}

// How many bytes the certificate has in which a model of one world refutes the formula, or that it is too long.
fn written_length(alloc: Global, pool: &Pool, formula: FormId) -> Result<String, AllocError>
    requires { IsLive pool.now formula }
{
    let body = Body::Refuted(Model::new(alloc, 1)?, 0);
    let certificate = Certificate {
        logic: Logic::K,
        formula,
        body,
    };
    match certificate_text(alloc, pool, &certificate) {
        Ok(text) => format!(in alloc; "{} bytes", text.len()),
        Err(PrintFault::TextLimit) => String::from_str(alloc, "text limit"),
        Err(PrintFault::Memory) => Err(AllocError),
    }
}
