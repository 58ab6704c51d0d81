ghost use Rattle.lw_s4.specs.Private.HistoryRank.{by_history, logic_of, square_of_modals};

use lw_closure::Closure;
use lw_search::StepRule;

/// The steps of S4 where worlds see themselves, and else those of K4: to the component of a π, with the label's ν, and
/// in K4 with their components too, where no link to a world that is there serves the π.
pub(crate) struct LinkedSteps<const REFLEXIVE: bool>;

impl<const REFLEXIVE: bool> StepRule for LinkedSteps<REFLEXIVE> {
    ghost logic = { logic_of REFLEXIVE };

    ghost suffice = { by_history };

    ghost bound = { square_of_modals };

    fn is_reflexive(&self) -> bool {
        REFLEXIVE
    }

    fn is_serial(&self) -> bool {
        false
    }

    fn has_links(&self) -> bool {
        true
    }

    fn keeps_nu(&self) -> bool {
        true
    }

    fn keeps_inside(&self) -> bool {
        !REFLEXIVE
    }

    fn beside(&self, _closure: &Closure, _item: usize) -> Option<usize> {
        None
    }
}
