// The items of an unclosed label, served one after another.
ghost use Rattle.std.specs.Prelude.{◌<◌, IfOk, OnOk};
ghost use Rattle.lw_closure.specs.Table.{item_count};
ghost use Rattle.lw_search.specs.Private.SearchLevels.{label, Aim, IsServing};
ghost use Rattle.lw_search.specs.Private.SearchTurns.{IsAsked, IsFar, LinkFits, RiseFits, ServeFits, StepFits, TakesStep};

use crate::level::{Level, Search, Served};
use crate::rule::StepRule;
use crate::tableau::Tableau;
use std::alloc::{AllocError, Global};
use std::mem;

impl<R: StepRule> Tableau<'_, R> {
    // Serves the last level's item, whose component is `inner`, by a link. False: there is no world for one.
    fn link(&self, search: &mut Search, inner: usize) -> Result<bool, AllocError>
        requires { (aim : Aim) × IsServing self.now aim search.old }
        ensures { (aim : Aim) → IsServing self.now aim search.old → IfOk result (LinkFits self.now aim search.old inner search.new) }
    {
        match self.target(&search.level.board, &search.fragment, inner) {
            None => Ok(false),
            Some(world) => {
                search.fragment.link(search.level.world, world)?;
                Ok(true)
            }
        }
    }

    // Takes the step on the last level's item, whose component is `inner`: its seed is under work.
    fn descend(&self, alloc: Global, search: &mut Search, inner: usize) -> Result<(), AllocError>
        requires serving { (aim : Aim) × IsServing self.now aim search.old }
        requires asked { IsAsked self.now (label search.old.level) search.old.level.item inner }
        requires far { IsFar self.now (label search.old.level) search.old.fragment inner }
        ensures { (aim : Aim) → IsServing self.now aim search.old → OnOk result (TakesStep self.now aim search.old search.new) }
    {
        let board = self.plant(alloc, &search.level.board, search.level.item, inner)?;
        let above = Level {
            frames: Vec::new(alloc),
            board,
            parent: Some(search.level.world),
            world: 0,
            item: 0,
        };
        let level = mem::replace(&mut search.level, above);
        search.below.push(level)?;
        Ok(())
    }

    // Serves the last level's item.
    fn serve_item(&self, alloc: Global, search: &mut Search) -> Result<Served, AllocError>
        requires serving { (aim : Aim) × IsServing self.now aim search.old }
        requires item { search.old.level.item < item_count self.now }
        ensures { (aim : Aim) → IsServing self.now aim search.old → IfOk result (StepFits self.now aim search.old search.new) }
    {
        let item = search.level.item;
        if let Some(inner) = self.asked(&search.level.board, item) {
            if !self.link(search, inner)? {
                self.descend(alloc, search, inner)?;
                return Ok(Served::ByStep);
            }
        }
        search.level.item = item + 1;
        Ok(Served::Done)
    }

    // Serves the last level's items, from the one under work on.
    fn serve(&self, alloc: Global, search: &mut Search) -> Result<Served, AllocError>
        requires { (aim : Aim) × IsServing self.now aim search.old }
        ensures { (aim : Aim) → IsServing self.now aim search.old → IfOk result (ServeFits self.now aim search.old search.new) }
    {
        while search.level.item < self.item_count() {
            match self.serve_item(alloc, search)? {
                Served::ByStep => return Ok(Served::ByStep),
                Served::Done => {}
            }
        }
        Ok(Served::Done)
    }

    /// Serves the items of the levels, from the last level down: until a step is taken, or all are served and the
    /// fragment is open. After an error nothing is known of the search.
    pub fn rise(&self, alloc: Global, search: &mut Search) -> Result<Served, AllocError>
        requires { (aim : Aim) × IsServing self.now aim search.old }
        ensures { (aim : Aim) → IsServing self.now aim search.old → IfOk result (RiseFits self.now aim search.old search.new) }
    {
        loop {
            match self.serve(alloc, search)? {
                Served::ByStep => return Ok(Served::ByStep),
                Served::Done => match search.below.pop() {
                    None => return Ok(Served::Done),
                    Some(level) => {
                        search.level = level;
                        search.level.item += 1;
                    }
                },
            }
        }
    }
}
