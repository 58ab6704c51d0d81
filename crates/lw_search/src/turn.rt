// One turn of the search.
ghost use Rattle.std.specs.Prelude.{IfOk};
ghost use Rattle.lw_search.specs.Private.SearchLevels.{Aim, IsUnderWork};
ghost use Rattle.lw_search.specs.Private.SearchTurns.{TurnFits, WorkFits};

use crate::level::{Search, Served, Turn};
use crate::rule::StepRule;
use crate::tableau::Tableau;
use lw_proof::Proof;
use lw_sat::run;
use std::alloc::{AllocError, Global};

impl<R: StepRule> Tableau<'_, R> {
    // Works on the last label. None: it is unclosed. Some: the proof closes its seed.
    fn work_off(&self, alloc: Global, search: &mut Search) -> Result<Option<Proof>, AllocError>
        requires { (aim : Aim) × IsUnderWork self.now aim search.old }
        ensures { (aim : Aim) → IsUnderWork self.now aim search.old → IfOk result (WorkFits self.now aim search.old search.new) }
    {
        run(
            alloc,
            self.closure,
            &mut search.level.frames,
            &mut search.level.board,
        )
    }

    /// Works on the last label until it is unclosed or its seed is closed, and goes on from there to the next label.
    /// After an error nothing is known of the search.
    pub fn advance(&self, alloc: Global, search: &mut Search) -> Result<Turn, AllocError>
        requires { (aim : Aim) × IsUnderWork self.now aim search.old }
        ensures { (aim : Aim) → IsUnderWork self.now aim search.old → IfOk result (TurnFits self.now aim search.old search.new) }
    {
        match self.work_off(alloc, search)? {
            Some(proof) => match self.fall(alloc, search, proof)? {
                Some(whole) => Ok(Turn::Closed(whole)),
                None => Ok(Turn::Moved),
            },
            None => {
                self.settle(alloc, search)?;
                match self.rise(alloc, search)? {
                    Served::ByStep => Ok(Turn::Moved),
                    Served::Done => Ok(Turn::Done),
                }
            }
        }
    }
}
