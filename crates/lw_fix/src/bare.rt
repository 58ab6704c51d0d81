ghost use Rattle.std.specs.Prelude.{◌≡◌, IfOk, ⊤};
ghost use Rattle.lw_pool.specs.Region.{tree_at, IsLive};
ghost use Rattle.lw_fix.specs.Private.OutermostIds.{stands_bare};

use lw_formula::Name;
use lw_pool::{FormId, Node, Pool, Step, fold};
use std::alloc::{AllocError, Global};

/// Whether the variable has an occurrence in the formula under no modality.
pub fn stands_bare(alloc: Global, pool: &Pool, name: &Name, id: FormId) -> Result<bool, AllocError>
    requires { IsLive pool.now id }
    ensures { IfOk result (λ bare. bare ≡ stands_bare name.now (tree_at pool.now id)) }
{
    let mut pool = pool;
    fold(alloc, &mut pool, id, &Bare { name })
}

/// The walk that looks for an occurrence under no modality.
#[derive(Drop)]
struct Bare<'a> {
    name: &'a Name,
}

impl<'a, 'b> Step<&'b Pool> for Bare<'a> {
    type Out = bool;

    ghost is_right = { λ by _ a bare. bare ≡ stands_bare by.name.now a };

    ghost suits = { λ _ _. ⊤ };

    ghost suits_on = { λ _ _ _ _ suits. suits };

    ghost lasts = { λ _ _ _ _ _ _ _ right. right };

    fn blank(&self) -> bool {
        false
    }

    fn step(&self, pool: &mut &'b Pool, at: FormId, done: &[bool]) -> Result<bool, AllocError> {
        Ok(match pool.node(at) {
            Node::Var(own) => own == self.name,
            Node::Bot | Node::Top | Node::Nec(_) | Node::Poss(_) => false,
            Node::Not(a) => done[a.0],
            Node::And(a, b) | Node::Or(a, b) | Node::Imp(a, b) | Node::Iff(a, b) => done[a.0]
                || done[b.0],
        })
    }
}
