ghost use Rattle.std.specs.Prelude.{IfOk};
ghost use Rattle.lw_formula.specs.Variables.{replace};
ghost use Rattle.lw_pool.specs.Region.{tree_at, IsLive, IsAt, Grows};
ghost use Rattle.lw_pool.specs.Private.Substituted.{IsSubstituted, IsLive-grows, IsSubstituted-grows};

use crate::id::FormId;
use crate::node::Node;
use crate::pool::Pool;
use crate::walk::{Step, fold};
use lw_formula::Name;
use std::alloc::AllocError;

impl Pool {
    /// The id of the formula with the one at `by` for every occurrence of the variable. It fails for want of memory
    /// alone. After either answer the pool has what it had, and perhaps formulas above.
    pub fn substitute(&mut self, id: FormId, name: &Name, by: FormId) -> Result<FormId, AllocError>
        requires id { IsLive self.old id }
        requires by { IsLive self.old by }
        ensures at { IfOk result (IsAt self.new (replace name.now (tree_at self.old by) (tree_at self.old id))) }
        ensures grows { Grows self.old self.new }
    {
        let alloc = self.allocator();
        fold(alloc, self, id, &Substitution { name, by })
    }
}

/// The walk that puts the formula at `by` for each occurrence of the variable.
#[derive(Drop)]
struct Substitution<'a> {
    name: &'a Name,
    by: FormId,
}

impl<'a> Step<Pool> for Substitution<'a> {
    type Out = FormId;

    ghost is_right = { λ change. IsSubstituted change.name.now change.by };

    ghost suits = { λ change ts. IsLive ts change.by };

    ghost suits_on = { λ change old new grows live. IsLive-grows old new change.by grows live };

    ghost lasts = { λ change old new a id grows live at. IsSubstituted-grows change.name.now change.by old new a id grows live at };

    fn blank(&self) -> FormId {
        self.by
    }

    fn step(&self, pool: &mut Pool, at: FormId, done: &[FormId]) -> Result<FormId, AllocError> {
        match pool.node(at) {
            Node::Var(own) => Ok(if own == self.name { self.by } else { at }),
            Node::Bot | Node::Top => Ok(at),
            Node::Not(a) => {
                let a = done[a.0];
                pool.make(Node::Not(a))
            }
            Node::And(a, b) => {
                let (a, b) = (done[a.0], done[b.0]);
                pool.make(Node::And(a, b))
            }
            Node::Or(a, b) => {
                let (a, b) = (done[a.0], done[b.0]);
                pool.make(Node::Or(a, b))
            }
            Node::Imp(a, b) => {
                let (a, b) = (done[a.0], done[b.0]);
                pool.make(Node::Imp(a, b))
            }
            Node::Iff(a, b) => {
                let (a, b) = (done[a.0], done[b.0]);
                pool.make(Node::Iff(a, b))
            }
            Node::Nec(a) => {
                let a = done[a.0];
                pool.make(Node::Nec(a))
            }
            Node::Poss(a) => {
                let a = done[a.0];
                pool.make(Node::Poss(a))
            }
        }
    }
}
