ghost use Rattle.std.specs.Prelude.{◌≡◌, IfOk};
ghost use Rattle.lw_formula.specs.Tree.{tree_of};
ghost use Rattle.lw_pool.specs.Region.{tree_at, IsLive, IsAt, Grows};

use crate::id::FormId;
use crate::node::Node;
use crate::pool::Pool;
use lw_formula::Form;
use std::alloc::AllocError;

impl Pool {
    /// The formula as a plain tree. It walks the tree, so a formula that the pool shares much in takes long and much
    /// memory. It fails for want of memory alone.
    pub fn to_form(&self, id: FormId) -> Result<Form, AllocError>
        requires { IsLive self.now id }
        ensures { IfOk result (λ form. tree_of form ≡ tree_at self.now id) }
    {
        let alloc = self.allocator();
        match self.node(id) {
            Node::Var(name) => Ok(Form::Var(name.try_clone()?)),
            Node::Bot => Ok(Form::Bot),
            Node::Top => Ok(Form::Top),
            Node::Not(a) => Ok(Form::Not(Box::new(alloc, self.to_form(*a)?)?)),
            Node::And(a, b) => Ok(Form::And(
                Box::new(alloc, self.to_form(*a)?)?,
                Box::new(alloc, self.to_form(*b)?)?,
            )),
            Node::Or(a, b) => Ok(Form::Or(
                Box::new(alloc, self.to_form(*a)?)?,
                Box::new(alloc, self.to_form(*b)?)?,
            )),
            Node::Imp(a, b) => Ok(Form::Imp(
                Box::new(alloc, self.to_form(*a)?)?,
                Box::new(alloc, self.to_form(*b)?)?,
            )),
            Node::Iff(a, b) => Ok(Form::Iff(
                Box::new(alloc, self.to_form(*a)?)?,
                Box::new(alloc, self.to_form(*b)?)?,
            )),
            Node::Nec(a) => Ok(Form::Nec(Box::new(alloc, self.to_form(*a)?)?)),
            Node::Poss(a) => Ok(Form::Poss(Box::new(alloc, self.to_form(*a)?)?)),
        }
    }

    /// The id of the tree's formula, which is put into the pool where it isn't there. It fails for want of memory
    /// alone. After either answer the pool has what it had, and perhaps formulas above.
    pub fn from_form(&mut self, form: &Form) -> Result<FormId, AllocError>
        ensures at { IfOk result (IsAt self.new (tree_of form.now)) }
        ensures grows { Grows self.old self.new }
    {
        match form {
            Form::Var(name) => self.make(Node::Var(name.try_clone()?)),
            Form::Bot => self.make(Node::Bot),
            Form::Top => self.make(Node::Top),
            Form::Not(a) => {
                let a = self.from_form(a)?;
                self.make(Node::Not(a))
            }
            Form::And(a, b) => {
                let a = self.from_form(a)?;
                let b = self.from_form(b)?;
                self.make(Node::And(a, b))
            }
            Form::Or(a, b) => {
                let a = self.from_form(a)?;
                let b = self.from_form(b)?;
                self.make(Node::Or(a, b))
            }
            Form::Imp(a, b) => {
                let a = self.from_form(a)?;
                let b = self.from_form(b)?;
                self.make(Node::Imp(a, b))
            }
            Form::Iff(a, b) => {
                let a = self.from_form(a)?;
                let b = self.from_form(b)?;
                self.make(Node::Iff(a, b))
            }
            Form::Nec(a) => {
                let a = self.from_form(a)?;
                self.make(Node::Nec(a))
            }
            Form::Poss(a) => {
                let a = self.from_form(a)?;
                self.make(Node::Poss(a))
            }
        }
    }
}
