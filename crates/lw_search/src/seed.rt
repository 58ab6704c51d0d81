// The seeds of steps.
ghost use Rattle.std.specs.Prelude.{◌≡◌, ◌<◌, ◌≤◌, ◌&&◌, ◌||◌, nat_eq, IfOk};
ghost use Rattle.lw_closure.specs.Table.{item_count};
ghost use Rattle.lw_sat.specs.SeedPath.{root, spot_of, Becomes, IsWide};
ghost use Rattle.lw_sat.specs.Saturated.{room};
ghost use Rattle.lw_sat.specs.Sets.{either, top, IsOfItems};
ghost use Rattle.lw_search.specs.Private.SearchLevels.{most_room};
ghost use Rattle.lw_search.specs.Private.StepUse.{kept_of};
ghost use Rattle.lw_search.specs.Step.{seed};

use crate::rule::StepRule;
use crate::tableau::Tableau;
use lw_formula::Parts;
use lw_sat::Board;
use std::alloc::{AllocError, Global};

// Puts the item into the label, if it's wanted there.
fn add_if(board: &mut Board, wanted: bool, item: usize)
    requires { item < board.old.bits }
    ensures { Becomes board.old board.new (record (spot_of board.old) { set = λ i. (wanted && nat_eq item i) || top board.old.labels i }) }
{
    if wanted {
        board.add_side((item, None));
    }
}

impl<R: StepRule> Tableau<'_, R> {
    // Puts in what a step keeps of an item of the label below.
    fn take_along(&self, board: &mut Board, item: usize)
        requires wide { IsWide self.now board.old }
        requires item { item < item_count self.now }
        ensures { Becomes board.old board.new (record (spot_of board.old) { set = either (kept_of self.now item) (top board.old.labels) }) }
    {
        if let Parts::Nu(inner) = self.closure.parts(item) {
            add_if(board, self.rule.keeps_nu(), item);
            add_if(board, self.rule.keeps_inside(), inner);
        }
    }

    /// A board with the seed of the step from the label on `item`, whose component is `inner`.
    pub fn plant(
        &self,
        alloc: Global,
        label: &Board,
        item: usize,
        inner: usize,
    ) -> Result<Board, AllocError>
        requires items { IsOfItems self.now (top label.now.labels) }
        requires item { item < item_count self.now }
        requires inner { inner < item_count self.now }
        ensures wide { IfOk result (λ board. IsWide self.now board) }
        ensures spot { IfOk result (λ board. spot_of board ≡ root (seed self.now (top label.now.labels) item inner)) }
        ensures room { IfOk result (λ board. room board ≤ most_room (item_count self.now)) }
    {
        let mut seed = Board::new(alloc, self.item_count())?;
        for kept in 0..self.item_count() {
            if label.has(kept) {
                self.take_along(&mut seed, kept);
            }
        }
        seed.add_side((inner, self.rule.beside(self.closure, item)));
        Ok(seed)
    }
}
