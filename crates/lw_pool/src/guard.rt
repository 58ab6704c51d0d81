ghost use Rattle.std.specs.Prelude.{◌≡◌, IfOk, IfSome, option_map};
ghost use Rattle.lw_formula.specs.Components.{guard_of};
ghost use Rattle.lw_pool.specs.Region.{IsLive, Grows, signed_at};

use crate::id::SignedId;
use crate::node::Node;
use crate::pool::Pool;
use lw_formula::Sign;
use std::alloc::AllocError;

impl Pool {
    /// The guard of a π, which the step of Grz adds: `T box(A -> box A)` for `F box A`, and `F dia(~A & dia A)` for
    /// `T dia A`. It is put into the pool, with what it is made of, where it isn't there. Nothing else has a guard. It
    /// fails for want of memory alone. After either answer the pool has what it had, and perhaps formulas above.
    pub fn guard(&mut self, item: SignedId) -> Result<Option<SignedId>, AllocError>
        requires { IsLive self.old item.form }
        ensures guard { IfOk result (λ guard. option_map (signed_at self.new) guard ≡ guard_of (signed_at self.new item)) }
        ensures live { IfOk result (λ guard. IfSome guard (λ id. IsLive self.new id.form)) }
        ensures grows { Grows self.old self.new }
    {
        match (item.sign, self.node(item.form)) {
            (Sign::F, Node::Nec(a)) => {
                let a = *a;
                let same = self.make(Node::Imp(a, item.form))?;
                let form = self.make(Node::Nec(same))?;
                Ok(Some(SignedId {
                    sign: Sign::T,
                    form,
                }))
            }
            (Sign::T, Node::Poss(a)) => {
                let a = *a;
                let not = self.make(Node::Not(a))?;
                let other = self.make(Node::And(not, item.form))?;
                let form = self.make(Node::Poss(other))?;
                Ok(Some(SignedId {
                    sign: Sign::F,
                    form,
                }))
            }
            _ => Ok(None),
        }
    }
}
