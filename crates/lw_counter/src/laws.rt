//! Laws of fragments. Each function does nothing: its clause is the law, which is proved.
ghost use Rattle.lw_counter.specs.Laws.{OpenFragmentsAreModels, OpenItemsAreOpenFormulas, OpenItemsMakeCountermodels};

/// In each of the eight logics the model of an open fragment is of the logic's class, and every label holds at its world.
pub fn open_fragments_are_models()
    ensures { OpenFragmentsAreModels }
{}

/// A fragment that is open by the rules over a closure's items is open by the calculus' rules over their formulas.
pub fn open_items_are_open_formulas()
    ensures { OpenItemsAreOpenFormulas }
{}

/// So the model of a fragment that is open by the rules over a closure's items is of the logic's class, and the signed
/// formula of each item of a label holds at the label's world.
pub fn open_items_make_countermodels()
    ensures { OpenItemsMakeCountermodels }
{}
