//! Laws of bisimilar worlds and of quotients. Each function does nothing: its clause is the law, which is proved.
ghost use Rattle.lw_bisim.specs.Laws.{BisimilarWorldsAgree, QuotientKeepsTruth, QuotientKeepsClass, QuotientRefutes};
ghost use Rattle.lw_bisim.specs.Laws.{QuotientWorldsDiffer, QuotientIsSmallest, QuotientIsOne};

/// Two worlds of a model are bisimilar exactly where the same formulas are true at them.
pub fn bisimilar_worlds_agree()
    ensures { BisimilarWorldsAgree }
{}

/// At a world of a model and at its class the same formulas are true.
pub fn quotient_keeps_truth()
    ensures { QuotientKeepsTruth }
{}

/// The quotient of a model of a logic's class is of that class, in each of the eight logics.
pub fn quotient_keeps_class()
    ensures { QuotientKeepsClass }
{}

/// So a formula that a model of a logic's class refutes at a world is refuted by the quotient at the world's class.
pub fn quotient_refutes()
    ensures { QuotientRefutes }
{}

/// Of two worlds of a quotient, some formula is true at the first and false at the second.
pub fn quotient_worlds_differ()
    ensures { QuotientWorldsDiffer }
{}

/// A model that has, for each world of another, a world at which the same formulas are true has at least as many worlds
/// as the other's quotient.
pub fn quotient_is_smallest()
    ensures { QuotientIsSmallest }
{}

/// A model has one quotient: its classes are numbered in one way, and are in one relation, with one set of variables each.
pub fn quotient_is_one()
    ensures { QuotientIsOne }
{}
