ghost use Rattle.std.specs.Prelude.{◌≡◌, ◌≤◌, ◌∷◌, ◌++◌, [], ℕ, List, IfOk, OnOk, MatchOption, reverse, replicate, map};
ghost use Rattle.std.specs.declared.alloc.Global.{Global};
ghost use Rattle.std.specs.declared.vec.Vec.{Vec};
ghost use Rattle.lw_formula.specs.Formula.{Formula};
ghost use Rattle.lw_pool.specs.Region.{Grows};
ghost use Rattle.lw_cert.specs.Private.StageViews.{IsNext, Concludes, grown, ruled, table};

use crate::build::built;
use crate::certificate::{Body, Certificate};
use crate::formula::exact;
use crate::row::read_row;
use crate::stage::{Head, Stage, Step, Table};
use crate::words::{after, number, rule_of, sign_of};
use lw_formula::Logic;
use lw_model::Model;
use lw_pool::{Pool, SignedId};
use std::alloc::{AllocError, Global};

/// The greatest depth of a step in a text that is read.
const DEPTH_LIMIT: usize = 4096;

/// The stage to which the line leads, or `None` where no certificate goes on with it. It fails for want of memory
/// alone. After every answer the pool has what it had, and perhaps formulas above.
pub fn advanced(
    alloc: Global,
    pool: &mut Pool,
    stage: Stage,
    line: &[u8],
) -> Result<Option<Stage>, AllocError>
    ensures next { IfOk result (IsNext line.now pool.old stage pool.new) }
    ensures grows { Grows pool.old pool.new }
{
    match stage {
        Stage::Start => Ok(headed(line)),
        Stage::Headed => Ok(chosen(line)),
        Stage::Chosen(logic) => named(alloc, pool, logic, line),
        Stage::Named(head) => followed(alloc, head, line),
        Stage::Proving(head, depths, steps) => proving(alloc, pool, head, depths, steps, line),
        Stage::Sizing(head) => counted(alloc, head, line),
        Stage::Counted(head, worlds) => refuted(alloc, head, worlds, line),
        Stage::Listing(head, table) => listing(alloc, head, table, line),
        Stage::Ended(_) => Ok(None),
    }
}

fn headed(line: &[u8]) -> Option<Stage>
    ensures { (ts : List Formula) → IsNext line.now ts Stage.Start ts result }
{
    if line == b"certificate 1".as_slice() {
        Some(Stage::Headed)
    } else {
        None
    }
}

fn chosen(line: &[u8]) -> Option<Stage>
    ensures { (ts : List Formula) → IsNext line.now ts Stage.Headed ts result }
{
    match Logic::from_word(after(line, b"logic ")?) {
        Some(logic) => Some(Stage::Chosen(logic)),
        None => None,
    }
}

fn named(
    alloc: Global,
    pool: &mut Pool,
    logic: Logic,
    line: &[u8],
) -> Result<Option<Stage>, AllocError>
    ensures next { IfOk result (IsNext line.now pool.old (Stage.Chosen logic) pool.new) }
    ensures grows { Grows pool.old pool.new }
{
    let Some(text) = after(line, b"formula ") else {
        return Ok(None);
    };
    match exact(alloc, pool, text)? {
        Some(formula) => Ok(Some(Stage::Named(Head { logic, formula }))),
        None => Ok(None),
    }
}

fn followed(alloc: Global, head: Head, line: &[u8]) -> Result<Option<Stage>, AllocError>
    ensures { IfOk result (λ next. (ts : List Formula) → IsNext line.now ts (Stage.Named head) ts next) }
{
    if line == b"proof".as_slice() {
        let mut depths = Vec::new(alloc);
        depths.push(1)?;
        Ok(Some(Stage::Proving(head, depths, Vec::new(alloc))))
    } else if line == b"model".as_slice() {
        Ok(Some(Stage::Sizing(head)))
    } else {
        Ok(None)
    }
}

fn proving(
    alloc: Global,
    pool: &mut Pool,
    head: Head,
    mut depths: Vec<usize>,
    steps: Vec<Step>,
    line: &[u8],
) -> Result<Option<Stage>, AllocError>
    ensures next { IfOk result (IsNext line.now pool.old (Stage.Proving head depths steps) pool.new) }
    ensures grows { Grows pool.old pool.new }
{
    match depths.pop() {
        Some(depth) => stepped(alloc, pool, head, depth, depths, steps, line),
        None => proved(alloc, head, depths, steps, line),
    }
}

// Takes the line of a step of this depth, the depths of the steps behind which stand below.
fn stepped(
    alloc: Global,
    pool: &mut Pool,
    head: Head,
    depth: usize,
    mut depths: Vec<usize>,
    mut steps: Vec<Step>,
    line: &[u8],
) -> Result<Option<Stage>, AllocError>
    ensures next { (all : Vec ℕ Global) → all.items ≡ depths.items ++ depth ∷ []
        → IfOk result (IsNext line.now pool.old (Stage.Proving head all steps) pool.new) }
    ensures grows { Grows pool.old pool.new }
{
    let Some((rule, signed)) = rule_of(line) else {
        return Ok(None);
    };
    let Some((sign, text)) = sign_of(signed) else {
        return Ok(None);
    };
    let Some(form) = exact(alloc, pool, text)? else {
        return Ok(None);
    };
    if depth > DEPTH_LIMIT {
        return Ok(None);
    }
    let principal = SignedId { sign, form };
    steps.push(Step { rule, principal })?;
    push_all(&mut depths, depth + 1, rule.arity())?;
    Ok(Some(Stage::Proving(head, depths, steps)))
}

// Puts the number at the end so often.
fn push_all(depths: &mut Vec<usize>, depth: usize, count: usize) -> Result<(), AllocError>
    ensures { OnOk result (reverse depths.new.items ≡ replicate count depth ++ reverse depths.old.items) }
{
    for _ in 0..count {
        depths.push(depth)?;
    }
    Ok(())
}

// Takes the line behind the steps of a proof, of which no more are to come.
fn proved(
    alloc: Global,
    head: Head,
    depths: Vec<usize>,
    steps: Vec<Step>,
    line: &[u8],
) -> Result<Option<Stage>, AllocError>
    requires { depths.items ≡ [] }
    ensures { IfOk result (λ next. (all : Vec ℕ Global) → all.items ≡ [] → (ts : List Formula) →
        IsNext line.now ts (Stage.Proving head all steps) ts next) }
{
    if line == b"end".as_slice() {
        concluded(alloc, head, steps)
    } else {
        Ok(None)
    }
}

// The certificate of the proof that the steps make.
fn concluded(alloc: Global, head: Head, steps: Vec<Step>) -> Result<Option<Stage>, AllocError>
    ensures { IfOk result (λ next. MatchOption next (grown (map ruled steps.items) [] ≡ []) (Concludes head steps.items)) }
{
    let mut proofs = built(alloc, steps)?;
    match proofs.pop() {
        Some(proof) => Ok(Some(Stage::Ended(Certificate {
            logic: head.logic,
            formula: head.formula,
            body: Body::Proved(proof),
        }))),
        None => Ok(None),
    }
}

fn counted(alloc: Global, head: Head, line: &[u8]) -> Result<Option<Stage>, AllocError>
    ensures { IfOk result (λ next. (ts : List Formula) → IsNext line.now ts (Stage.Sizing head) ts next) }
{
    let Some(word) = after(line, b"worlds ") else {
        return Ok(None);
    };
    match number(alloc, word)? {
        Some(worlds) if worlds >= 1 => Ok(Some(Stage::Counted(head, worlds))),
        _ => Ok(None),
    }
}

fn refuted(
    alloc: Global,
    head: Head,
    worlds: usize,
    line: &[u8],
) -> Result<Option<Stage>, AllocError>
    ensures { IfOk result (λ next. (ts : List Formula) → IsNext line.now ts (Stage.Counted head worlds) ts next) }
{
    let Some(word) = after(line, b"refuted ") else {
        return Ok(None);
    };
    match number(alloc, word)? {
        Some(refuted) if refuted < worlds => {
            let model = Model::new(alloc, worlds)?;
            Ok(Some(Stage::Listing(
                head,
                Table {
                    model,
                    refuted,
                    next: 0,
                },
            )))
        }
        _ => Ok(None),
    }
}

fn listing(
    alloc: Global,
    head: Head,
    table: Table,
    line: &[u8],
) -> Result<Option<Stage>, AllocError>
    ensures { IfOk result (λ next. (ts : List Formula) → IsNext line.now ts (Stage.Listing head table) ts next) }
{
    let Table {
        mut model,
        refuted,
        next,
    } = table;
    if next >= model.worlds() {
        return Ok(listed(head, model, refuted, line));
    }
    let found = read_row(alloc, line, next, &mut model)?;
    if found {
        let next = next + 1;
        Ok(Some(Stage::Listing(
            head,
            Table {
                model,
                refuted,
                next,
            },
        )))
    } else {
        Ok(None)
    }
}

// Takes the line behind the worlds of a model.
fn listed(head: Head, model: Model, refuted: usize, line: &[u8]) -> Option<Stage>
    ensures { (ts : List Formula) (next : ℕ) → model.worlds ≤ next →
        IsNext line.now ts (Stage.Listing head (table model refuted next)) ts result }
{
    if line == b"end".as_slice() {
        Some(Stage::Ended(Certificate {
            logic: head.logic,
            formula: head.formula,
            body: Body::Refuted(model, refuted),
        }))
    } else {
        None
    }
}
