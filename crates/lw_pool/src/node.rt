ghost use Rattle.std.specs.Prelude.{◌≡◌, ℕ, ◌<◌, List};
ghost use Rattle.lw_formula.specs.Formula.{Formula};
ghost use Rattle.lw_formula.specs.Joint.{join, joint_of};
ghost use Rattle.lw_pool.specs.Region.{tree_at, tree_of_node, AreChildrenBelow};

use crate::id::FormId;
use lw_formula::{Joint, Name};

/// A formula by its main connective and the ids of its operands.
#[derive(Debug, Drop, PartialEq, Eq, Hash)]
pub enum Node {
    Var(Name),
    Bot,
    Top,
    Not(FormId),
    And(FormId, FormId),
    Or(FormId, FormId),
    Imp(FormId, FormId),
    Iff(FormId, FormId),
    Nec(FormId),
    Poss(FormId),
}

impl Node {
    /// The formula with the connective between the two.
    pub fn joined(joint: Joint, left: FormId, right: FormId) -> Node
        ensures tree { (ts : List Formula) → tree_of_node ts result ≡ join joint (tree_at ts left) (tree_at ts right) }
        ensures below { (n : ℕ) → left.0 < n → right.0 < n → AreChildrenBelow n result }
    {
        match joint {
            Joint::And => Node::And(left, right),
            Joint::Or => Node::Or(left, right),
            Joint::Imp => Node::Imp(left, right),
            Joint::Iff => Node::Iff(left, right),
        }
    }

    /// The connective that stands between two operands, if the formula has such.
    pub fn joint(&self) -> Option<Joint>
        ensures { (ts : List Formula) → result ≡ joint_of (tree_of_node ts self.now) }
    {
        match self {
            Node::And(_, _) => Some(Joint::And),
            Node::Or(_, _) => Some(Joint::Or),
            Node::Imp(_, _) => Some(Joint::Imp),
            Node::Iff(_, _) => Some(Joint::Iff),
            Node::Var(_) | Node::Bot | Node::Top | Node::Not(_) | Node::Nec(_) | Node::Poss(_) =>
                None,
        }
    }
}
