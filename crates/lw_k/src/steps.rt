ghost use Rattle.lw_k.specs.Private.DepthLeft.{by_depth, goal_depth, logic_of};

use lw_closure::Closure;
use lw_search::StepRule;

/// The steps of KT where worlds see themselves, else those of KD where each world sees one, and else those of K: to the
/// component of a π, or in KD of a ν, with the components of the label's ν.
pub(crate) struct Steps<const REFLEXIVE: bool, const SERIAL: bool>;

impl<const REFLEXIVE: bool, const SERIAL: bool> StepRule for Steps<REFLEXIVE, SERIAL> {
    ghost logic = { logic_of REFLEXIVE SERIAL };

    ghost suffice = { by_depth };

    ghost bound = { goal_depth };

    fn is_reflexive(&self) -> bool {
        REFLEXIVE
    }

    fn is_serial(&self) -> bool {
        !REFLEXIVE && SERIAL
    }

    fn has_links(&self) -> bool {
        false
    }

    fn keeps_nu(&self) -> bool {
        false
    }

    fn keeps_inside(&self) -> bool {
        true
    }

    fn beside(&self, _closure: &Closure, _item: usize) -> Option<usize> {
        None
    }
}
