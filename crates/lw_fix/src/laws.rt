//! Laws of fixed points. Each function does nothing: its clause is the law, which is proved.
ghost use Rattle.lw_fix.specs.Laws.{FixIsFixedPoint, FixIsUnique, FixUnfolds, OutermostAreExact, OrderSaysNothing};

/// A formula in which every occurrence of p is under `box` or `dia` has a fixed point for p, and the construction gives
/// it: it has no p and no further variables, in GL it is equivalent to the formula with it for p, and p is equivalent to
/// it where p is equivalent to the formula.
pub fn fix_is_fixed_point()
    ensures { FixIsFixedPoint }
{}

/// What is equivalent in GL to the formula with it for p is equivalent in GL to the fixed point.
pub fn fix_is_unique()
    ensures { FixIsUnique }
{}

/// The fixed point is the formula with, for p in each outermost modal subformula, the fixed point of the formula with
/// `true` for that box, or `false` for that dia.
pub fn fix_unfolds()
    ensures { FixUnfolds }
{}

/// The list of outermost modal subformulas with p has each of them, once, and no others.
pub fn outermost_are_exact()
    ensures { OutermostAreExact }
{}

/// The formulas of the construction depend on the set of the replaced subformulas alone.
pub fn order_says_nothing()
    ensures { OrderSaysNothing }
{}
