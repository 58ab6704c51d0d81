ghost use Rattle.std.specs.Prelude.{◌≡◌, ℕ, ◌<◌, ◌↔◌, false, List, length, All, Contains, IsTrue, IfOk, ⊤};
ghost use Rattle.std.specs.List.{slice_index_or};
ghost use Rattle.lw_formula.specs.Formula.{Formula, letter, neg, nec, poss};
ghost use Rattle.lw_formula.specs.Joint as formulas;
ghost use Rattle.lw_formula.specs.Truth.{IsTrueAt};
ghost use Rattle.lw_pool.specs.Region.{tree_at, IsLive};
ghost use Rattle.lw_model.specs.Private.TruthTable.{IsRow, truth_table};

use crate::model::Model;
use crate::row::Row;
use lw_formula::{Joint, Name};
use lw_pool::{FormId, Node, Pool, Step, fold};
use std::alloc::{AllocError, Global};

/// Whether the pool's formula is true at the world. It fails for want of memory alone. The work is at most the number of
/// the formula's distinct subformulas, times the number of the model's worlds and pairs, with a look-up by halves of each
/// world's variables for a variable; the memory is that of a truth value for each of these subformulas at each world.
pub fn holds(
    alloc: Global,
    model: &Model,
    world: usize,
    pool: &Pool,
    id: FormId,
) -> Result<bool, AllocError>
    requires world { world < model.now.worlds }
    requires live { IsLive pool.now id }
    ensures { IfOk result (λ answer. IsTrue answer ↔ IsTrueAt model.now world (tree_at pool.now id)) }
{
    let mut pool = pool;
    let row = fold(alloc, &mut pool, id, &Truth { alloc, model })?;
    Ok(row.at(world))
}

/// The walk that finds the truth of formulas at each world.
#[derive(Drop)]
struct Truth<'a> {
    alloc: Global,
    model: &'a Model,
}

impl<'a, 'b> Step<&'b Pool> for Truth<'a> {
    type Out = Row;

    ghost is_right = { λ truth _ a row. IsRow truth.model.now a row };

    ghost suits = { λ _ _. ⊤ };

    ghost suits_on = { λ _ _ _ _ suits. suits };

    ghost lasts = { λ _ _ _ _ _ _ _ right. right };

    fn blank(&self) -> Row {
        Row::empty(self.alloc)
    }

    fn step(&self, pool: &mut &'b Pool, at: FormId, done: &[Row]) -> Result<Row, AllocError> {
        let (alloc, model) = (self.alloc, self.model);
        match pool.node(at) {
            Node::Var(name) => letter_row(alloc, model, name),
            Node::Bot => Row::new(alloc, model.worlds(), false),
            Node::Top => Row::new(alloc, model.worlds(), true),
            Node::Not(a) => negated_row(alloc, model, &done[a.0]),
            Node::And(a, b) => joined_row(alloc, model, Joint::And, &done[a.0], &done[b.0]),
            Node::Or(a, b) => joined_row(alloc, model, Joint::Or, &done[a.0], &done[b.0]),
            Node::Imp(a, b) => joined_row(alloc, model, Joint::Imp, &done[a.0], &done[b.0]),
            Node::Iff(a, b) => joined_row(alloc, model, Joint::Iff, &done[a.0], &done[b.0]),
            Node::Nec(a) => box_row(alloc, model, &done[a.0]),
            Node::Poss(a) => dia_row(alloc, model, &done[a.0]),
        }
    }
}

fn letter_row(alloc: Global, model: &Model, name: &Name) -> Result<Row, AllocError>
    ensures { IfOk result (IsRow model.now (letter name.now)) }
{
    let mut row = Row::new(alloc, model.worlds(), false)?;
    for world in 0..model.worlds() {
        row.set(world, model.fact(world, name));
    }
    Ok(row)
}

fn negated_row(alloc: Global, model: &Model, of: &Row) -> Result<Row, AllocError>
    requires { length of.now ≡ model.now.worlds }
    ensures { (a : Formula) → IsRow model.now a of.now → IfOk result (IsRow model.now (neg a)) }
{
    let mut row = Row::new(alloc, model.worlds(), false)?;
    for world in 0..model.worlds() {
        row.set(world, !of.at(world));
    }
    Ok(row)
}

fn joined_row(
    alloc: Global,
    model: &Model,
    connective: Joint,
    left: &Row,
    right: &Row,
) -> Result<Row, AllocError>
    requires left { length left.now ≡ model.now.worlds }
    requires right { length right.now ≡ model.now.worlds }
    ensures { (a b : Formula) → IsRow model.now a left.now → IsRow model.now b right.now →
        IfOk result (IsRow model.now (formulas.join connective a b)) }
{
    let mut row = Row::new(alloc, model.worlds(), false)?;
    for world in 0..model.worlds() {
        row.set(world, join(connective, left.at(world), right.at(world)));
    }
    Ok(row)
}

fn join(connective: Joint, left: bool, right: bool) -> bool
    ensures { result ≡ truth_table connective left right }
{
    match connective {
        Joint::And => left && right,
        Joint::Or => left || right,
        Joint::Imp => !left || right,
        Joint::Iff => left == right,
    }
}

// True at each world that sees no world at which the other row is false.
fn box_row(alloc: Global, model: &Model, of: &Row) -> Result<Row, AllocError>
    requires { length of.now ≡ model.now.worlds }
    ensures { (a : Formula) → IsRow model.now a of.now → IfOk result (IsRow model.now (nec a)) }
{
    let mut row = Row::new(alloc, model.worlds(), true)?;
    for world in 0..model.worlds() {
        row.set(world, is_true_at_all(of, model.successors(world)));
    }
    Ok(row)
}

// True at each world that sees a world at which the other row is true.
fn dia_row(alloc: Global, model: &Model, of: &Row) -> Result<Row, AllocError>
    requires { length of.now ≡ model.now.worlds }
    ensures { (a : Formula) → IsRow model.now a of.now → IfOk result (IsRow model.now (poss a)) }
{
    let mut row = Row::new(alloc, model.worlds(), false)?;
    for world in 0..model.worlds() {
        row.set(world, is_true_at_some(of, model.successors(world)));
    }
    Ok(row)
}

fn is_true_at_all(of: &Row, worlds: &[usize]) -> bool
    requires { All (λ w. w < length of.now) worlds.now }
    ensures { IsTrue result ↔ ((w : ℕ) → Contains worlds.now w → IsTrue (slice_index_or of.now w false)) }
{
    for world in worlds {
        if !of.at(*world) {
            return false;
        }
    }
    true
}

fn is_true_at_some(of: &Row, worlds: &[usize]) -> bool
    requires { All (λ w. w < length of.now) worlds.now }
    ensures { IsTrue result ↔ ((w : ℕ) × Contains worlds.now w × IsTrue (slice_index_or of.now w false)) }
{
    for world in worlds {
        if of.at(*world) {
            return true;
        }
    }
    false
}
