ghost use Rattle.std.specs.Prelude.{IfOk, ⊤};
ghost use Rattle.lw_formula.specs.Formula.{conj, disj, nec, poss};
ghost use Rattle.lw_pool.specs.Region.{tree_at, IsLive, IsAt, Grows};
ghost use Rattle.lw_pool.proofs.RegionGrowth.{IsAt-grows};
ghost use Rattle.lw_trans.specs.Translations as translations;

use lw_pool::{FormId, Node, Pool, Step, fold};
use std::alloc::{AllocError, Global};

/// The id of the formula with `box B & B` for each `box B` and `dia B v B` for each `dia B`, from the inside out. It is
/// valid in GL exactly where the formula is valid in Grz. It fails for want of memory alone. After either answer the
/// pool has what it had, and perhaps formulas above.
pub fn boxdot(alloc: Global, pool: &mut Pool, id: FormId) -> Result<FormId, AllocError>
    requires { IsLive pool.old id }
    ensures at { IfOk result (IsAt pool.new (translations.boxdot (tree_at pool.old id))) }
    ensures grows { Grows pool.old pool.new }
{
    fold(alloc, pool, id, &IntoGl)
}

/// The walk that translates from Grz into GL.
#[derive(Drop)]
struct IntoGl;

impl Step<Pool> for IntoGl {
    type Out = FormId;

    ghost is_right = { λ _ ts a. IsAt ts (translations.boxdot a) };

    ghost suits = { λ _ _. ⊤ };

    ghost suits_on = { λ _ _ _ _ suits. suits };

    ghost lasts = { λ _ old new a id grows _ at. IsAt-grows old new (translations.boxdot a) id grows at };

    fn blank(&self) -> FormId {
        FormId(0)
    }

    fn step(&self, pool: &mut Pool, at: FormId, done: &[FormId]) -> Result<FormId, AllocError> {
        match pool.node(at) {
            Node::Var(_) | Node::Bot | Node::Top => Ok(at),
            Node::Not(a) => {
                let a = done[a.0];
                pool.make(Node::Not(a))
            }
            Node::And(a, b) => {
                let (a, b) = (done[a.0], done[b.0]);
                pool.make(Node::And(a, b))
            }
            Node::Or(a, b) => {
                let (a, b) = (done[a.0], done[b.0]);
                pool.make(Node::Or(a, b))
            }
            Node::Imp(a, b) => {
                let (a, b) = (done[a.0], done[b.0]);
                pool.make(Node::Imp(a, b))
            }
            Node::Iff(a, b) => {
                let (a, b) = (done[a.0], done[b.0]);
                pool.make(Node::Iff(a, b))
            }
            Node::Nec(a) => {
                let a = done[a.0];
                necessary_and_true(pool, a)
            }
            Node::Poss(a) => {
                let a = done[a.0];
                possible_or_true(pool, a)
            }
        }
    }
}

/// `box B & B`
fn necessary_and_true(pool: &mut Pool, id: FormId) -> Result<FormId, AllocError>
    requires { IsLive pool.old id }
    ensures at { IfOk result (IsAt pool.new (conj (nec (tree_at pool.old id)) (tree_at pool.old id))) }
    ensures grows { Grows pool.old pool.new }
{
    let boxed = pool.make(Node::Nec(id))?;
    pool.make(Node::And(boxed, id))
}

/// `dia B v B`
fn possible_or_true(pool: &mut Pool, id: FormId) -> Result<FormId, AllocError>
    requires { IsLive pool.old id }
    ensures at { IfOk result (IsAt pool.new (disj (poss (tree_at pool.old id)) (tree_at pool.old id))) }
    ensures grows { Grows pool.old pool.new }
{
    let possible = pool.make(Node::Poss(id))?;
    pool.make(Node::Or(possible, id))
}
