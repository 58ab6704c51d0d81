ghost use Rattle.lw_closure.specs.Laws.{GrowthKeeps, ItemsAreFormulas};

/// What closes a set of items by the rules over items closes the signed formulas of the items by the calculus.
pub fn items_are_formulas()
    ensures { ItemsAreFormulas }
{}

/// A pool that has kept a closure's formulas still has when it has grown.
pub fn growth_keeps()
    ensures { GrowthKeeps }
{}
