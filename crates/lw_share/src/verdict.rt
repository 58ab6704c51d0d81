/// What the checker says of a table and its root.
#[derive(Clone, Copy, Debug, PartialEq, Eq)]
pub enum SharedVerdict {
    /// The table is a proof of the goal.
    Accepted,
    /// The number of the first line that doesn't hold, from 0; or the count of lines, where all hold and only the root's
    /// set has something beside the goal under F.
    Rejected { line: usize },
}
