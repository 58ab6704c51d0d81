/// Why a step of a proof breaks its rule, in the order in which the reasons are looked for.
#[derive(Clone, Copy, Debug, PartialEq, Eq, Hash)]
pub enum Why {
    /// The rule isn't one of the logic.
    Logic,
    /// The principal isn't one that the rule takes, whatever the set is.
    Shape,
    /// The step has another number of subproofs than its rule has premises.
    Arity,
    /// What must be in the set isn't there.
    Missing,
    /// The formula of a cut isn't a subformula of the goal.
    Goal,
}
