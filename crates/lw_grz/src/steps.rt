ghost use Rattle.lw_formula.specs.declared.logic.Logic.TheVariants.{Grz};
ghost use Rattle.lw_search.specs.Private.LabelLack.{goal_modals};
ghost use Rattle.lw_grz.specs.Private.LackedGuards.{by_guards};

use lw_closure::Closure;
use lw_search::StepRule;

/// The steps of Grz: to the component and the guard of a π, with the label's ν.
pub(crate) struct GuardedSteps;

impl StepRule for GuardedSteps {
    ghost logic = { Grz };

    ghost suffice = { by_guards };

    ghost bound = { goal_modals };

    fn is_reflexive(&self) -> bool {
        true
    }

    fn is_serial(&self) -> bool {
        false
    }

    fn has_links(&self) -> bool {
        false
    }

    fn keeps_nu(&self) -> bool {
        true
    }

    fn keeps_inside(&self) -> bool {
        false
    }

    fn beside(&self, closure: &Closure, item: usize) -> Option<usize> {
        closure.guard(item)
    }
}
