ghost use Rattle.lw_formula.specs.declared.logic.Logic.TheVariants.{GL};
ghost use Rattle.lw_search.specs.Private.LabelLack.{goal_modals};
ghost use Rattle.lw_gl.specs.Private.LackedNus.{by_lacking};

use lw_closure::{Closure, flip};
use lw_search::StepRule;

/// The steps of GL: to the component of a π and to the π under the other sign, with the label's ν and their components.
pub(crate) struct DiagonalSteps;

impl StepRule for DiagonalSteps {
    ghost logic = { GL };

    ghost suffice = { by_lacking };

    ghost bound = { goal_modals };

    fn is_reflexive(&self) -> bool {
        false
    }

    fn is_serial(&self) -> bool {
        false
    }

    fn has_links(&self) -> bool {
        false
    }

    fn keeps_nu(&self) -> bool {
        true
    }

    fn keeps_inside(&self) -> bool {
        true
    }

    fn beside(&self, _closure: &Closure, item: usize) -> Option<usize> {
        Some(flip(item))
    }
}
