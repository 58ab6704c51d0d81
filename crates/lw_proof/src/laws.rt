ghost use Rattle.lw_proof.specs.Laws.{EqualSetsAreClosedAlike, FirstBreakIsExact, LargerSetsAreClosed, ProvedIsValid};

/// In each of the eight logics what has a proof is valid.
pub fn soundness()
    ensures { ProvedIsValid }
{}

/// A proof closes each set that has what a closed set has.
pub fn weakening()
    ensures { LargerSetsAreClosed }
{}

/// Sets with the same members are closed by the same proofs.
pub fn extensionality()
    ensures { EqualSetsAreClosedAlike }
{}

/// There is a first step that breaks its rule exactly where a proof doesn't close its set.
pub fn first_break_is_exact()
    ensures { FirstBreakIsExact }
{}
