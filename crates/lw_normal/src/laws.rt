//! Laws of the normal form and of simplification. Each function does nothing: its clause is the law, which is proved.
ghost use Rattle.lw_normal.specs.Laws.{NnfKeepsTruth, NnfIsNnf, NnfStaysSmall, SimplifyKeepsTruth, SimplifyAddsNoNodes};

/// The normal form is true at the same worlds of every finite model as the formula.
pub fn nnf_keeps_truth()
    ensures { NnfKeepsTruth }
{}

/// The normal form has `~` at variables alone, and neither `->` nor `<->`.
pub fn nnf_is_nnf()
    ensures { NnfIsNnf }
{}

/// The normal form has at most 6 distinct subformulas for each of the formula.
pub fn nnf_stays_small()
    ensures { NnfStaysSmall }
{}

/// The simplified formula is true at the same worlds of every finite model as the formula.
pub fn simplify_keeps_truth()
    ensures { SimplifyKeepsTruth }
{}

/// The simplified formula has no more nodes than the formula.
pub fn simplify_adds_no_nodes()
    ensures { SimplifyAddsNoNodes }
{}
