//! Laws of interpolants. Each function does nothing: its clause is the law, which is proved.
ghost use Rattle.lw_interp.specs.Laws.{ReadOffIsInterpolant, ReadOffIsSmall};

/// What is read off a proof of an implication in K, KT, S4 or GL is an interpolant of its sides.
pub fn read_off_is_interpolant()
    ensures { ReadOffIsInterpolant }
{}

/// It has at most so many nodes: the proof's lines, times one more than the nodes of the implication.
pub fn read_off_is_small()
    ensures { ReadOffIsSmall }
{}
