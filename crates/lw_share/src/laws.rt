ghost use Rattle.lw_share.specs.Laws.{OneSetCount, SharedIsValid, SharedProofUnfolds, UnfoldedProves, UnfoldsOnce};

/// The root of a shared proof unfolds to a tree.
pub fn shared_proof_unfolds()
    ensures { SharedProofUnfolds }
{}

/// A line unfolds to one tree at most.
pub fn unfolds_once()
    ensures { UnfoldsOnce }
{}

/// The tree to which a shared proof unfolds proves the goal.
pub fn unfolded_proves()
    ensures { UnfoldedProves }
{}

/// In each of the eight logics what has a shared proof is valid.
pub fn shared_is_valid()
    ensures { SharedIsValid }
{}

/// The sets that the steps of a proof close are counted in one way.
pub fn one_set_count()
    ensures { OneSetCount }
{}
