ghost use Rattle.std.specs.Prelude.{IfOk, OnOk};
ghost use Rattle.lw_formula.specs.Variables.{AreVariables, AreInByteOrder};
ghost use Rattle.lw_pool.specs.Region.{tree_at, IsLive};
ghost use Rattle.lw_pool.specs.Private.IdWalk.{AddsOwnName};

use crate::id::FormId;
use crate::node::Node;
use crate::pool::Pool;
use lw_formula::{Name, add_name};
use std::alloc::AllocError;

impl Pool {
    /// The variables of the formula, each once, in the order of their bytes. It fails for want of memory alone.
    pub fn variables(&self, id: FormId) -> Result<Vec<Name>, AllocError>
        requires { IsLive self.now id }
        ensures { IfOk result (λ names. AreVariables (tree_at self.now id) names.items) }
    {
        let parts = self.subformulas(id)?;
        let mut names = Vec::new(self.allocator());
        for part in &parts {
            add_variable(&mut names, self.node(*part))?;
        }
        Ok(names)
    }
}

/// Puts the node's own name, if it is a variable, into its place.
fn add_variable(names: &mut Vec<Name>, node: &Node) -> Result<(), AllocError>
    requires { AreInByteOrder names.old.items }
    ensures { OnOk result (AddsOwnName node.now names.old.items names.new.items) }
{
    match node {
        Node::Var(name) => add_name(names, name),
        _ => Ok(()),
    }
}
