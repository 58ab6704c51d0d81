// The loop of all tableau searches.
ghost use Rattle.std.specs.Prelude.{◌≡◌, ◌<◌, IfOk, [], ◌∷◌};
ghost use Rattle.lw_closure.specs.Table.{item_count};
ghost use Rattle.lw_closure.specs.Keeps.{Keeps};
ghost use Rattle.lw_sat.specs.Sets.{among};
ghost use Rattle.lw_search.specs.Private.SearchLevels.{IsBegun};
ghost use Rattle.lw_search.specs.Outcome.{OutcomeFits};
ghost use Rattle.lw_search.specs.Ranked.{IsRanked};

use crate::level::{Level, Search, Turn};
use crate::outcome::Outcome;
use crate::rule::StepRule;
use crate::tableau::Tableau;
use lw_closure::Closure;
use lw_counter::Fragment;
use lw_formula::Sign;
use lw_pool::{Pool, SignedId};
use lw_sat::Board;
use std::alloc::{AllocError, Global};

impl<R: StepRule> Tableau<'_, R> {
    // A search whose first seed is the item alone.
    fn begin(&self, alloc: Global, item: usize) -> Result<Search, AllocError>
        requires { item < item_count self.now }
        ensures { IfOk result (IsBegun self.now (among (item ∷ []))) }
    {
        let mut board = Board::new(alloc, self.item_count())?;
        board.add_side((item, None));
        Ok(Search {
            below: Vec::new(alloc),
            level: Level {
                frames: Vec::new(alloc),
                board,
                parent: None,
                world: 0,
                item: 0,
            },
            fragment: Fragment::new(alloc),
        })
    }
}

/// Looks for a proof that closes the set of the closure's goal under the sign F, or for an open fragment with it, by
/// tableaux with the rule's steps. It fails for want of memory alone.
pub fn explore<R: StepRule>(
    alloc: Global,
    pool: &Pool,
    closure: &Closure,
    rule: &R,
) -> Result<Outcome, AllocError>
    requires logic { closure.now.logic ≡ R.logic }
    requires keeps { Keeps pool.now closure.now }
    requires ranked { IsRanked R.logic R.suffice R.bound }
    ensures { IfOk result (OutcomeFits pool.now closure.now (R.bound pool.now closure.now)) }
{
    let goal = SignedId {
        sign: Sign::F,
        form: closure.goal(),
    };
    let Some(item) = closure.number(goal) else {
        unreachable!()
    };
    let tableau = Tableau { closure, rule };
    let mut search = tableau.begin(alloc, item)?;
    loop {
        match tableau.advance(alloc, &mut search)? {
            Turn::Moved => {}
            Turn::Done => {
                let Search { fragment, .. } = search;
                return Ok(Outcome::Open(fragment));
            }
            Turn::Closed(proof) => return Ok(Outcome::Closed(proof)),
        }
    }
}
