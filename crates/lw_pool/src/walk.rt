ghost use Rattle.std.specs.Prelude.{◌≡◌, ◌≤◌, List, length, IsTrue, IfOk};
ghost use Rattle.lw_formula.specs.Formula.{Formula};
ghost use Rattle.lw_pool.specs.Region.{tree_at, IsLive, Grows};
ghost use Rattle.lw_pool.specs.Walk.{AreOperandsRight};

use crate::id::FormId;
use crate::pool::Pool;
use std::alloc::{AllocError, Global};

/// What a walk goes over: a pool, or a pool that is only read.
pub trait Formulas {
    /// The pool's formulas.
    ghost formulas: { Self → List Formula };

    /// The pool.
    fn pool(&self) -> &Pool
        ensures { result.now ≡ formulas self.now };
}

impl Formulas for Pool {
    ghost formulas = { λ pool. pool };

    fn pool(&self) -> &Pool {
        self
    }
}

impl<'a> Formulas for &'a Pool {
    ghost formulas = { λ pool. pool.now };

    fn pool(&self) -> &Pool {
        *self
    }
}

/// A function on formulas whose value at a formula comes of those at its operands.
pub trait Step<P: Formulas> {
    /// What it gives for one formula.
    type Out: Drop;

    /// In a pool of these formulas, what is right for a formula.
    ghost is_right: { Self → List Formula → Formula → Self.Out → Type 0 };

    /// What it needs of the pool beside the formula.
    ghost suits: { Self → List Formula → Type 0 };

    /// What stands in the table at a formula that isn't wanted. It is never read.
    fn blank(&self) -> Self::Out;

    /// The value at the formula, where `done` has those at its operands, each at the operand's place. It fails for want
    /// of memory alone.
    fn step(&self, pool: &mut P, at: FormId, done: &[Self::Out]) -> Result<Self::Out, AllocError>
        requires suits { suits self.now (P.formulas pool.old) }
        requires at { IsLive (P.formulas pool.old) at }
        requires done { at.0 ≤ length done.now }
        requires operands { AreOperandsRight (is_right self.now (P.formulas pool.old)) (P.formulas pool.old) done.now at }
        ensures right { IfOk result (is_right self.now (P.formulas pool.new) (tree_at (P.formulas pool.old) at)) }
        ensures grows { Grows (P.formulas pool.old) (P.formulas pool.new) };

    /// What suits goes on to do so while the pool grows.
    ghost suits_on: { (by : Self) (old new : List Formula) → Grows old new → suits by old → suits by new };

    /// What is right stays so while the pool grows.
    ghost lasts: { (by : Self) (old new : List Formula) (a : Formula) (out : Self.Out) →
        Grows old new → suits by old → is_right by old a out → is_right by new a out };
}

/// The function's value at the formula. Each distinct subformula is met once, operands first, and nothing recurses: the
/// work is one step for each, and a table with an entry for each id up to this one. It fails for want of memory alone.
/// After either answer the pool has what it had, and perhaps formulas above.
pub fn fold<P: Formulas, F: Step<P>>(
    alloc: Global,
    pool: &mut P,
    id: FormId,
    by: &F,
) -> Result<F::Out, AllocError>
    requires suits { F.suits by.now (P.formulas pool.old) }
    requires id { IsLive (P.formulas pool.old) id }
    ensures right { IfOk result (F.is_right by.now (P.formulas pool.new) (tree_at (P.formulas pool.old) id)) }
    ensures grows { Grows (P.formulas pool.old) (P.formulas pool.new) }
{
    let marks = pool.pool().subformula_table(id)?;
    let mut done = Vec::with_capacity(alloc, id.0)?;
    for at in 0..id.0 {
        let out = entry(pool, FormId(at), marks[at], &done, by)?;
        done.push(out)?;
    }
    by.step(pool, id, &done)
}

/// The table's next entry.
fn entry<P: Formulas, F: Step<P>>(
    pool: &mut P,
    at: FormId,
    wanted: bool,
    done: &[F::Out],
    by: &F,
) -> Result<F::Out, AllocError>
    requires suits { F.suits by.now (P.formulas pool.old) }
    requires at { IsLive (P.formulas pool.old) at }
    requires done { at.0 ≤ length done.now }
    requires operands { IsTrue wanted → AreOperandsRight (F.is_right by.now (P.formulas pool.old)) (P.formulas pool.old) done.now at }
    ensures right { IsTrue wanted → IfOk result (F.is_right by.now (P.formulas pool.new) (tree_at (P.formulas pool.old) at)) }
    ensures grows { Grows (P.formulas pool.old) (P.formulas pool.new) }
{
    if wanted {
        by.step(pool, at, done)
    } else {
        Ok(by.blank())
    }
}
