ghost use Rattle.std.specs.Prelude.{◌≡◌, ◌<◌, ◌≤◌, List, [], length, take, OnErr, IfOk};
ghost use Rattle.std.specs.List.{slice_index_or};
ghost use Rattle.lw_formula.specs.Private.FormulaCode.{coded_formula};
ghost use Rattle.lw_formula.specs.FiniteModel.{AreDistinct};
ghost use Rattle.lw_formula.specs.Formula.{Formula};
ghost use Rattle.lw_pool.specs.Region.{tree_at, IsLive, AreChildrenBelow, tree_of_node, Grows, IsAt, IsMade, IsAbsent, AreIdsExact, AreNamed, AreOperandsBelow};
ghost use Rattle.lw_pool.specs.Private.NodeRegion.{trees, IsNamed, IsRegion};
ghost use base.Stored.{coded_list};

use crate::id::FormId;
use crate::mark::Mark;
use crate::node::Node;
use indexmap::IndexSet;
use std::alloc::{AllocError, Global};
use std::marker::Model;

/// Formulas that are shared: each stands once, behind its operands, and is named by its place. A pool is seen as the
/// list of its formulas.
#[derive(Drop)]
pub struct Pool {
    nodes: IndexSet<Node>,
}

impl Model for Pool {
    ghost Value = { List Formula };

    ghost coded = { coded_list coded_formula };

    ghost view = { λ pool. trees pool.nodes.keys };

    ghost invariant = { λ pool. IsRegion pool.nodes.keys };
}

impl Pool {
    /// An empty pool, which has taken no memory yet.
    pub fn new(alloc: Global) -> Pool
        ensures { result ≡ [] }
    {
        Pool {
            nodes: IndexSet::new(alloc),
        }
    }

    /// The id of the node's formula: that of the formula where the pool has it, which takes no memory, or the next one,
    /// under which the formula is put. It fails for want of memory alone, and then the pool is as before.
    pub fn make(&mut self, node: Node) -> Result<FormId, AllocError>
        requires { AreChildrenBelow (length self.old) node }
        ensures made { IfOk result (λ id. IsMade self.old self.new (tree_of_node self.old node) id) }
        ensures at { IfOk result (IsAt self.new (tree_of_node self.old node)) }
        ensures grows { Grows self.old self.new }
        ensures failed { OnErr result (self.new ≡ self.old) }
        ensures absent { OnErr result (IsAbsent self.old (tree_of_node self.old node)) }
    {
        check_name(&node);
        let (index, _) = self.nodes.insert_full(node)?;
        Ok(FormId(index))
    }

    /// The formula's main connective with the ids of its operands.
    pub fn node(&self, id: FormId) -> &Node
        requires { IsLive self.now id }
        ensures tree { tree_of_node self.now result.now ≡ tree_at self.now id }
        ensures below { AreChildrenBelow id.0 result.now }
    {
        entry(self.nodes.as_slice(), id.0)
    }

    /// How many formulas there are. The ids are the numbers below.
    pub fn count(&self) -> usize
        ensures count { result ≡ length self.now }
        ensures distinct { AreDistinct self.now }
        ensures ids { AreIdsExact self.now }
        ensures operands { AreOperandsBelow self.now }
        ensures names { AreNamed self.now }
    {
        self.nodes.len()
    }

    /// The present count, to which `release` can cut the pool back.
    pub fn mark(&self) -> Mark
        ensures { result ≡ length self.now }
    {
        Mark {
            count: self.nodes.len(),
        }
    }

    /// Lets go of the formulas that were made since the mark was taken. Their ids are then free for others.
    pub fn release(&mut self, mark: Mark)
        requires { mark ≤ length self.old }
        ensures { self.new ≡ take mark self.old }
    {
        self.nodes.truncate(mark.count);
    }

    /// The memory that the pool is kept in.
    pub(crate) fn allocator(&self) -> Global
        ensures ids { AreIdsExact self.now }
        ensures operands { AreOperandsBelow self.now }
    {
        *self.nodes.allocator()
    }
}

/// The node's own letter, if it is one, is a name, as its type says.
fn check_name(node: &Node)
    ensures { IsNamed node.now }
{
    if let Node::Var(name) = node {
        let _ = name.as_bytes();
    }
}

/// The node at this place.
fn entry(nodes: &[Node], at: usize) -> &Node
    requires { at < length nodes.now }
    ensures { result.now ≡ slice_index_or nodes.now at result.now }
{
    &nodes[at]
}
