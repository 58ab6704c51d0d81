//! Laws of truth and of validity. Each function does nothing: its clause is the law, which is proved.
ghost use Rattle.lw_formula.specs.Laws.{TruthsAgree, NoLogicIsEmpty, TruthDependsOnVariables, SubstitutionKeepsValidity};

/// In every finite model, at every world, the test of truth says yes exactly where the formula is true.
pub fn truths_agree()
    ensures { TruthsAgree }
{}

/// In none of the eight logics is `false` valid: each has a model.
pub fn no_logic_is_empty()
    ensures { NoLogicIsEmpty }
{}

/// Two models with the same relation, and with the same facts of a formula's variables, give the formula the same
/// truth at each world.
pub fn truth_depends_on_variables()
    ensures { TruthDependsOnVariables }
{}

/// A formula that is valid in a logic stays valid there with any formula for one of its variables.
pub fn substitution_keeps_validity()
    ensures { SubstitutionKeepsValidity }
{}
