//! Laws of the truth of formulas without variables. Each function does nothing: its clause is the law, which is proved.
ghost use Rattle.lw_trace.specs.Laws.{HeightsAreExact, TruthGoesByHeight, TruthSettles, TraceDecides};
ghost use Rattle.lw_trace.specs.Laws.{FormIsEquivalent, FormIsUnique, FormIsLetterless};

/// In each model of GL's class a world that sees none has height 0, and another has one more than the greatest height
/// that it sees.
pub fn heights_are_exact()
    ensures { HeightsAreExact }
{}

/// At each world of each model of GL's class a formula without variables is true exactly where its truth value at the
/// world's height is yes.
pub fn truth_goes_by_height()
    ensures { TruthGoesByHeight }
{}

/// From the modal depth on the truth value is the same at all heights.
pub fn truth_settles()
    ensures { TruthSettles }
{}

/// A formula without variables is valid in GL exactly where its trace is yes with no exceptions.
pub fn trace_decides()
    ensures { TraceDecides }
{}

/// A formula without variables is equivalent to its normal form in GL.
pub fn form_is_equivalent()
    ensures { FormIsEquivalent }
{}

/// Two formulas without variables are equivalent in GL exactly where they have the same normal form.
pub fn form_is_unique()
    ensures { FormIsUnique }
{}

/// The normal form has no variables.
pub fn form_is_letterless()
    ensures { FormIsLetterless }
{}
