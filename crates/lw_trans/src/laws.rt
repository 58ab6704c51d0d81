//! Laws of the translations. Each function does nothing: its clause is the law, which is proved.
ghost use Rattle.lw_trans.specs.Laws.{GoedelIsFaithful, BoxdotIsFaithful};

/// An intuitionistic formula is intuitionistically valid exactly where its translation is valid in S4.
pub fn goedel_is_faithful()
    ensures { GoedelIsFaithful }
{}

/// A formula is valid in Grz exactly where its translation is valid in GL.
pub fn boxdot_is_faithful()
    ensures { BoxdotIsFaithful }
{}
