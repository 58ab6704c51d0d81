// From a closed seed down to the last label that has another branch.
ghost use Rattle.std.specs.Prelude.{◌≤◌, IfOk};
ghost use Rattle.lw_proof.specs.Lean.{steps};
ghost use Rattle.lw_sat.specs.SeedPath.{IsWide};
ghost use Rattle.lw_search.specs.Private.SearchLevels.{Aim, IsFallen, Place};
ghost use Rattle.lw_search.specs.Private.SearchTurns.{ClosesStep, FallFits, ReopensOrCloses};

use crate::level::{Level, Search};
use crate::rule::StepRule;
use crate::tableau::Tableau;
use lw_proof::Proof;
use lw_sat::{Board, over_one, unwind};
use std::alloc::{AllocError, Global};
use std::mem;

impl<R: StepRule> Tableau<'_, R> {
    // Closes the label of a level that waits, where the proof closes the seed of its step, and the board above has the
    // items that the proof uses.
    fn close_label(
        &self,
        alloc: Global,
        level: &mut Level,
        mut above: Board,
        proof: Proof,
    ) -> Result<Option<Proof>, AllocError>
        requires closes { (aim : Aim) × (a : Place) × (b : Place) × ClosesStep self.now aim a level.old b above proof }
        requires wide { IsWide self.now above }
        ensures { (aim : Aim) (a b : Place) → ClosesStep self.now aim a level.old b above proof → steps proof ≤ b.left
            → IfOk result (ReopensOrCloses self.now aim a level.old level.new) }
    {
        let item = level.item;
        self.use_step(&mut level.board, &mut above, item);
        let whole = over_one(alloc, self.closure, self.step_rule(item), item, proof)?;
        unwind(
            alloc,
            self.closure,
            &mut level.frames,
            &mut level.board,
            whole,
        )
    }

    /// Takes off the levels whose seeds the proof closes. Gives None where a label is under work again, and a proof
    /// that closes the first seed where no level is left. After an error nothing is known of the search.
    pub fn fall(
        &self,
        alloc: Global,
        search: &mut Search,
        proof: Proof,
    ) -> Result<Option<Proof>, AllocError>
        requires { (aim : Aim) × IsFallen self.now aim search.old proof }
        ensures { (aim : Aim) → IsFallen self.now aim search.old proof → IfOk result (FallFits self.now aim search.old search.new) }
    {
        let mut proof = proof;
        while let Some(level) = search.below.pop() {
            let above = mem::replace(&mut search.level, level);
            search.fragment.cut(search.level.world);
            match self.close_label(alloc, &mut search.level, above.board, proof)? {
                None => return Ok(None),
                Some(whole) => proof = whole,
            }
        }
        Ok(Some(proof))
    }
}
