ghost use Rattle.std.specs.Prelude.{◌≡◌, ◌<◌, length, map, filter, vec_len, if◌then◌else◌, IfOk};
ghost use Rattle.std.specs.List.{enumerate_from};
ghost use Rattle.lw_formula.specs.Formula.{subformula_count};
ghost use Rattle.lw_pool.specs.Region.{tree_at, IsLive, AreChildrenBelow, AreSubformulas, is_marked, AreMarks};
ghost use Rattle.lw_pool.specs.Private.IdWalk.{with_children};

use crate::id::FormId;
use crate::node::Node;
use crate::pool::Pool;
use std::alloc::{AllocError, Global};

impl Pool {
    /// The ids of the formula's distinct subformulas, ascending, so that its own id is the last. It fails for want of
    /// memory alone.
    pub fn subformulas(&self, id: FormId) -> Result<Vec<FormId>, AllocError>
        requires { IsLive self.now id }
        ensures ids { IfOk result (λ ids. AreSubformulas self.now id ids.items) }
        ensures count { IfOk result (λ ids. vec_len ids ≡ subformula_count (tree_at self.now id)) }
    {
        let marks = self.subformula_table(id)?;
        marked(self.allocator(), &marks)
    }

    /// For each id from 0 to this one, whether its formula is a subformula of this one's. It fails for want of memory
    /// alone.
    pub fn subformula_table(&self, id: FormId) -> Result<Vec<bool>, AllocError>
        requires { IsLive self.now id }
        ensures { IfOk result (λ marks. AreMarks self.now id marks.items) }
    {
        let mut marks = vec![in self.allocator(); false; id.0]?;
        marks.push(true)?;
        // parents stand above their children
        for at in (0..marks.len()).rev() {
            hand_down(&mut marks, at, self.node(FormId(at)));
        }
        Ok(marks)
    }
}

/// Marks the children of the node at this place, if the place is marked.
fn hand_down(marks: &mut Vec<bool>, at: usize, node: &Node)
    requires within { at < length marks.old.items }
    requires below { AreChildrenBelow at node.now }
    ensures { marks.new.items ≡
        (if is_marked marks.old.items at then with_children node.now marks.old.items else marks.old.items) }
{
    if !marks[at] {
        return;
    }
    match node {
        Node::Var(_) | Node::Bot | Node::Top => {}
        Node::Not(a) | Node::Nec(a) | Node::Poss(a) => marks[a.0] = true,
        Node::And(a, b) | Node::Or(a, b) | Node::Imp(a, b) | Node::Iff(a, b) => {
            marks[a.0] = true;
            marks[b.0] = true;
        }
    }
}

/// The ids that are marked, ascending.
fn marked(alloc: Global, marks: &[bool]) -> Result<Vec<FormId>, AllocError>
    ensures { IfOk result (λ ids. ids.items ≡
        map (λ p. record { 0 = p.0 }) (filter (λ p. p.1) (enumerate_from 0 marks.now))) }
{
    marks
        .iter()
        .enumerate()
        .filter(|(_, marked)| **marked)
        .map(|(at, _)| FormId(at))
        .collect(alloc)
}
