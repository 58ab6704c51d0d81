ghost use Rattle.std.specs.Prelude.{◌≡◌, not, ◌&&◌, ◌||◌, map, replicate, IfOk, ⊤};
ghost use Rattle.std.specs.Bool.{beq};
ghost use Rattle.std.specs.List.{zip};
ghost use Rattle.lw_pool.specs.Region.{tree_at, IsLive};
ghost use Rattle.lw_trace.specs.Private.TruthRows as rows;

use lw_pool::{FormId, Node, Pool, Step, fold};
use std::alloc::{AllocError, Global};

/// The truth values of the formula at so many heights, from 0 on, by a table with a row for each distinct subformula.
pub fn truth_row(
    alloc: Global,
    pool: &Pool,
    id: FormId,
    heights: usize,
) -> Result<Vec<bool>, AllocError>
    requires { IsLive pool.now id }
    ensures { IfOk result (λ row. row.items ≡ rows.truth_row (tree_at pool.now id) heights) }
{
    let mut pool = pool;
    fold(alloc, &mut pool, id, &TruthRows { alloc, heights })
}

/// The walk that finds the rows of truth values.
#[derive(Drop)]
struct TruthRows {
    alloc: Global,
    heights: usize,
}

impl<'a> Step<&'a Pool> for TruthRows {
    type Out = Vec<bool>;

    ghost is_right = { λ by _ a row. row.items ≡ rows.truth_row a by.heights };

    ghost suits = { λ _ _. ⊤ };

    ghost suits_on = { λ _ _ _ _ suits. suits };

    ghost lasts = { λ _ _ _ _ _ _ _ right. right };

    fn blank(&self) -> Vec<bool> {
        Vec::new(self.alloc)
    }

    fn step(
        &self,
        pool: &mut &'a Pool,
        at: FormId,
        done: &[Vec<bool>],
    ) -> Result<Vec<bool>, AllocError> {
        let alloc = self.alloc;
        match pool.node(at) {
            Node::Var(_) | Node::Bot => constant(alloc, false, self.heights),
            Node::Top => constant(alloc, true, self.heights),
            Node::Not(a) => negation(alloc, &done[a.0]),
            Node::And(a, b) => conjunction(alloc, &done[a.0], &done[b.0]),
            Node::Or(a, b) => disjunction(alloc, &done[a.0], &done[b.0]),
            Node::Imp(a, b) => implication(alloc, &done[a.0], &done[b.0]),
            Node::Iff(a, b) => equivalence(alloc, &done[a.0], &done[b.0]),
            Node::Nec(a) => all_before(alloc, &done[a.0]),
            Node::Poss(a) => some_before(alloc, &done[a.0]),
        }
    }
}

/// The same value at so many heights.
fn constant(alloc: Global, value: bool, heights: usize) -> Result<Vec<bool>, AllocError>
    ensures { IfOk result (λ values. values.items ≡ replicate heights value) }
{
    vec![in alloc; value; heights]
}

/// The values of `~B`.
fn negation(alloc: Global, row: &[bool]) -> Result<Vec<bool>, AllocError>
    ensures { IfOk result (λ values. values.items ≡ map (λ b. not b) row.now) }
{
    row.iter().map(|value| !*value).collect(alloc)
}

/// The values of `B & C`.
fn conjunction(alloc: Global, left: &[bool], right: &[bool]) -> Result<Vec<bool>, AllocError>
    ensures { IfOk result (λ values. values.items ≡ map (λ p. p.0 && p.1) (zip left.now right.now)) }
{
    left.iter().zip(right).map(|(b, c)| *b && *c).collect(alloc)
}

/// The values of `B v C`.
fn disjunction(alloc: Global, left: &[bool], right: &[bool]) -> Result<Vec<bool>, AllocError>
    ensures { IfOk result (λ values. values.items ≡ map (λ p. p.0 || p.1) (zip left.now right.now)) }
{
    left.iter().zip(right).map(|(b, c)| *b || *c).collect(alloc)
}

/// The values of `B -> C`.
fn implication(alloc: Global, left: &[bool], right: &[bool]) -> Result<Vec<bool>, AllocError>
    ensures { IfOk result (λ values. values.items ≡ map (λ p. not p.0 || p.1) (zip left.now right.now)) }
{
    left.iter()
        .zip(right)
        .map(|(b, c)| !*b || *c)
        .collect(alloc)
}

/// The values of `B <-> C`.
fn equivalence(alloc: Global, left: &[bool], right: &[bool]) -> Result<Vec<bool>, AllocError>
    ensures { IfOk result (λ values. values.items ≡ map (λ p. beq p.0 p.1) (zip left.now right.now)) }
{
    left.iter().zip(right).map(|(b, c)| *b == *c).collect(alloc)
}

/// At each place, whether all values before it are true.
fn all_before(alloc: Global, row: &[bool]) -> Result<Vec<bool>, AllocError>
    ensures { IfOk result (λ values. values.items ≡ rows.all_before row.now) }
{
    let mut values = Vec::with_capacity(alloc, row.len())?;
    let mut all = true;
    for value in row {
        values.push(all)?;
        all &= *value;
    }
    Ok(values)
}

/// At each place, whether some value before it is true.
fn some_before(alloc: Global, row: &[bool]) -> Result<Vec<bool>, AllocError>
    ensures { IfOk result (λ values. values.items ≡ rows.some_before row.now) }
{
    let mut values = Vec::with_capacity(alloc, row.len())?;
    let mut some = false;
    for value in row {
        values.push(some)?;
        some |= *value;
    }
    Ok(values)
}
