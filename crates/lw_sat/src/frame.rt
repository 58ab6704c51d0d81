use lw_proof::{Proof, Rule};

/// A first component and perhaps a second.
pub type Side = (usize, Option<usize>);

/// A rule that was used on the way from the seed to the label: what it was used on, the sides of its premises, and
/// which premise is under work.
#[derive(Drop)]
pub enum Frame {
    /// There is one premise.
    Alone {
        rule: Rule,
        item: usize,
        side: Side,
    },
    /// The first of two premises is under work.
    First {
        rule: Rule,
        item: usize,
        first: Side,
        second: Side,
    },
    /// The second of two premises is under work, and the proof closes the first.
    Second {
        rule: Rule,
        item: usize,
        first: Side,
        second: Side,
        proof: Proof,
    },
}

/// What comes of a frame when the premise that was under work is closed.
#[derive(Drop)]
pub enum Folded {
    /// What was to be closed before the rule is closed by this proof.
    Closed(Proof),
    /// The other premise is under work, in this frame.
    Turned(Frame),
}
