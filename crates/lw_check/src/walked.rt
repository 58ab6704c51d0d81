ghost use Rattle.std.specs.Prelude.{◌≡◌, ℕ, Option};
ghost use Rattle.lw_proof.specs.declared.why.Why.{Why};
ghost use Rattle.lw_check.specs.Judgement.{verdict_of};
ghost use Rattle.lw_check.specs.Private.ProofWalk.{outcome_of};

use crate::verdict::Verdict;
use lw_proof::Why;

/// What a walk over a part of a proof came to.
#[derive(Clone, Copy)]
pub(crate) enum Walked {
    /// Each step keeps its rule. The next one has this number.
    Through { next: usize },
    /// The step of this number is the first that breaks its rule.
    Broken { step: usize, why: Why },
}

impl Walked {
    /// The verdict, where the walk was over the whole proof.
    pub(crate) fn verdict(self) -> Verdict
        ensures { (broken : Option (ℕ × Why)) (next : ℕ) → self ≡ outcome_of broken next → result ≡ verdict_of broken }
    {
        match self {
            Walked::Through { .. } => Verdict::Accepted,
            Walked::Broken { step, why } => Verdict::Rejected { step, why },
        }
    }
}
