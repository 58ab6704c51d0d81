// What steps use.
ghost use Rattle.std.specs.Option.{ForSome};
ghost use Rattle.std.specs.Prelude.{◌≡◌, ℕ, ◌<◌, IsTrue, Some};
ghost use Rattle.lw_search.specs.Ranked.{StepsTo};
ghost use Rattle.lw_closure.specs.Table.{item_count};
ghost use Rattle.lw_sat.specs.SeedPath.{IsWide};
ghost use Rattle.lw_sat.specs.Sets.{top, IsOfItems};
ghost use Rattle.lw_search.specs.Private.StepUse.{kept_of, meets, step_rule, LeavesSent, LeavesUsed, LosesAdded};

use crate::rule::StepRule;
use crate::tableau::Tableau;
use lw_formula::Parts;
use lw_proof::Rule;
use lw_sat::Board;

impl<R: StepRule> Tableau<'_, R> {
    // Whether the label above has something that a step keeps of the item.
    fn sends(&self, above: &Board, item: usize) -> bool
        requires { item < item_count self.now }
        ensures { result ≡ meets self.now (kept_of self.now item) (top above.now.labels) }
    {
        match self.closure.parts(item) {
            Parts::Nu(inner) => (self.rule.keeps_nu() && above.has(item))
                || (self.rule.keeps_inside() && above.has(inner)),
            _ => false,
        }
    }

    /// The rule of a step on the item: a Step on a π, or a Serial on a ν.
    pub fn step_rule(&self, item: usize) -> Rule
        requires { item < item_count self.now }
        ensures { result ≡ step_rule self.now item }
    {
        match self.closure.parts(item) {
            Parts::Nu(_) => Rule::Serial,
            Parts::Nothing | Parts::One(..) | Parts::Two(..) | Parts::Pi(_) => Rule::Step,
        }
    }

    // The component of a π or a ν.
    fn inner(&self, item: usize) -> Option<usize>
        requires { item < item_count self.now }
        ensures below { ForSome result (λ c. c < item_count self.now) }
        ensures inner { (c : ℕ) → StepsTo self.now item c → result ≡ Some c }
    {
        match self.closure.parts(item) {
            Parts::Nu(inner) | Parts::Pi(inner) => Some(inner),
            Parts::Nothing | Parts::One(..) | Parts::Two(..) => None,
        }
    }

    // Takes out of the label above what the step on the item adds.
    fn leave_added(&self, above: &mut Board, item: usize)
        requires wide { IsWide self.now above.old }
        requires item { item < item_count self.now }
        ensures { LosesAdded self.now item above.old above.new }
    {
        if let Some(inner) = self.inner(item) {
            above.remove(inner);
            if let Some(beside) = self.rule.beside(self.closure, item) {
                above.remove(beside);
            }
        }
    }

    // Keeps of the label what a step on the item sends into the label above.
    fn keep_sent(&self, board: &mut Board, above: &Board, item: usize)
        requires wide { IsWide self.now board.old }
        requires items { IsOfItems self.now (top board.old.labels) }
        requires there { IsTrue (top board.old.labels item) }
        ensures { LeavesSent self.now item (top above.now.labels) board.old board.new }
    {
        for other in 0..self.item_count() {
            if other != item && !self.sends(above, other) {
                board.remove(other);
            }
        }
    }

    /// Leaves of the label what a step on the item uses, where the proof above it uses what is in the label above, and
    /// takes out of that what the step adds.
    pub fn use_step(&self, board: &mut Board, above: &mut Board, item: usize)
        requires wide { IsWide self.now board.old }
        requires items { IsOfItems self.now (top board.old.labels) }
        requires item { item < item_count self.now }
        requires there { IsTrue (top board.old.labels item) }
        requires steps { (c : ℕ) × StepsTo self.now item c }
        requires above_wide { IsWide self.now above.old }
        ensures { LeavesUsed self.now item (top above.old.labels) board.old board.new }
    {
        self.leave_added(above, item);
        self.keep_sent(board, above, item);
    }
}
