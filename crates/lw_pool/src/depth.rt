ghost use Rattle.std.specs.Prelude.{◌≡◌, min, IfOk, ⊤};
ghost use Rattle.std.below.core.specs.declared.int.usize.TheConstants.{MAX};
ghost use Rattle.lw_formula.specs.Formula.{depth};
ghost use Rattle.lw_pool.specs.Region.{tree_at, IsLive};

use crate::id::FormId;
use crate::node::Node;
use crate::pool::Pool;
use crate::walk::{Step, fold};
use std::alloc::AllocError;

impl Pool {
    /// The greatest number of `Nec` and `Poss` above a leaf, or the greatest `usize` where there are more. It fails for
    /// want of memory alone.
    pub fn modal_depth(&self, id: FormId) -> Result<usize, AllocError>
        requires { IsLive self.now id }
        ensures { IfOk result (λ modal_depth. modal_depth ≡ min (depth (tree_at self.now id)) usize.MAX) }
    {
        let mut pool = self;
        fold(self.allocator(), &mut pool, id, &Depth)
    }
}

/// The walk that finds modal depths.
#[derive(Drop)]
struct Depth;

impl<'a> Step<&'a Pool> for Depth {
    type Out = usize;

    ghost is_right = { λ _ _ a modal_depth. modal_depth ≡ min (depth a) MAX };

    ghost suits = { λ _ _. ⊤ };

    ghost suits_on = { λ _ _ _ _ suits. suits };

    ghost lasts = { λ _ _ _ _ _ _ _ right. right };

    fn blank(&self) -> usize {
        0
    }

    fn step(&self, pool: &mut &'a Pool, at: FormId, done: &[usize]) -> Result<usize, AllocError> {
        Ok(match pool.node(at) {
            Node::Var(_) | Node::Bot | Node::Top => 0,
            Node::Not(a) => done[a.0],
            Node::And(a, b) | Node::Or(a, b) | Node::Imp(a, b) | Node::Iff(a, b) => {
                done[a.0].max(done[b.0])
            }
            Node::Nec(a) | Node::Poss(a) => done[a.0].saturating_add(1),
        })
    }
}
