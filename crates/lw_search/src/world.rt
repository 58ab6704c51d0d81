// Unclosed labels become worlds.
ghost use Rattle.std.specs.Prelude.{◌≡◌, ◌<◌, IfOk, OnOk};
ghost use Rattle.std.specs.List.{All};
ghost use Rattle.lw_closure.specs.Table.{item_count};
ghost use Rattle.lw_closure.specs.Unclosed.{IsUnclosedLabel};
ghost use Rattle.lw_sat.specs.Sets.{among, top, IsOfItems};
ghost use Rattle.lw_search.specs.Private.SearchLevels.{label, serving_room, work_room, Aim, IsServing, IsUnderWork};

use crate::level::Search;
use crate::rule::StepRule;
use crate::tableau::Tableau;
use lw_sat::Board;
use std::alloc::{AllocError, Global};

impl<R: StepRule> Tableau<'_, R> {
    // The items of the label, in their order.
    fn items_in(&self, alloc: Global, label: &Board) -> Result<Vec<usize>, AllocError>
        requires { IsOfItems self.now (top label.now.labels) }
        ensures below { IfOk result (λ items. All (λ item. item < item_count self.now) items.items) }
        ensures same { IfOk result (λ items. among items.items ≡ top label.now.labels) }
    {
        let mut items = Vec::new(alloc);
        for item in 0..self.item_count() {
            if label.has(item) {
                items.push(item)?;
            }
        }
        Ok(items)
    }

    /// Puts the last level's label, which is unclosed, behind the worlds. Its items are served from the first on.
    pub fn settle(&self, alloc: Global, search: &mut Search) -> Result<(), AllocError>
        requires work { (aim : Aim) × IsUnderWork self.now aim search.old }
        requires unclosed { IsUnclosedLabel self.now (label search.old.level) }
        ensures serving { (aim : Aim) → IsUnderWork self.now aim search.old → OnOk result (IsServing self.now aim search.new) }
        ensures room { (aim : Aim) → IsUnderWork self.now aim search.old
            → OnOk result (serving_room self.now aim.bound search.new < work_room self.now aim.bound search.old) }
    {
        let items = self.items_in(alloc, &search.level.board)?;
        search.level.world = search.fragment.add(search.level.parent, &items)?;
        search.level.item = 0;
        Ok(())
    }
}
