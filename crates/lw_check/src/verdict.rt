use lw_proof::Why;

/// What the checker says of a proof.
#[derive(Clone, Copy, Debug, PartialEq, Eq)]
pub enum Verdict {
    /// The proof proves the goal.
    Accepted,
    /// A step breaks its rule: the number of the first such step, from 1 in pre-order, or the greatest `usize` where
    /// the number is over it, and the first reason.
    Rejected { step: usize, why: Why },
}
