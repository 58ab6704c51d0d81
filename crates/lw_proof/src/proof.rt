ghost use Rattle.std.specs.Prelude.{◌≡◌, ◌<◌, List, length, min, slice_get, IfOk};
ghost use Rattle.lw_formula.specs.Formula.{Formula};
ghost use Rattle.lw_proof.specs.Pooled.{IsProofLive};
ghost use Rattle.lw_proof.specs.Tree.{node, forest, rule_of, principal_of, subs_of, lines, depth};

use crate::rule::Rule;
use lw_pool::SignedId;
use std::alloc::AllocError;
use std::marker::Model;

/// A proof, seen as a tree: a rule, the signed formula that it is used on, and a subproof for each premise.
#[derive(Debug, Drop)]
pub struct Proof {
    rule: Rule,
    principal: SignedId,
    subs: Vec<Proof>,
}

impl Model for Proof {
    ghost use Rattle.std.proofs.Common.{arith};
    ghost use Rattle.lw_pool.specs.declared.id.SignedId.{SignedId};
    ghost use Rattle.lw_proof.specs.Tree.{Tree, node, forest, lines};
    ghost use Rattle.lw_proof.specs.Private.TreeCode.{coded_tree, most_le-lines};

    ghost Value = { Tree SignedId };

    ghost coded = { coded_tree };

    ghost view = { λ p. node p.rule p.principal (forest p.subs.items) };

    ghost size = { lines };

    ghost size_decreases = { λ p h. Prim.omega (arith, most_le-lines p.subs.items) };
}

impl Proof {
    /// The proof that begins with this rule.
    pub fn new(rule: Rule, principal: SignedId, subs: Vec<Proof>) -> Proof
        ensures { result ≡ node rule principal (forest subs.items) }
    {
        Proof {
            rule,
            principal,
            subs,
        }
    }

    /// The rule of the first step.
    pub fn rule(&self) -> Rule
        ensures { result ≡ rule_of self.now }
    {
        self.rule
    }

    /// The signed formula that the first step is used on.
    pub fn principal(&self) -> SignedId
        ensures { result ≡ principal_of self.now }
    {
        self.principal
    }

    /// How many subproofs the first step has.
    pub fn count(&self) -> usize
        ensures { result ≡ length (subs_of self.now) }
    {
        self.subs.len()
    }

    /// The i-th subproof of the first step, from 0.
    pub fn sub(&self, i: usize) -> &Proof
        requires { i < length (subs_of self.now) }
        ensures sub { slice_get (subs_of self.now) i ≡ Some result.now }
        ensures smaller { lines result.now < lines self.now }
        ensures live { (ts : List Formula) → IsProofLive ts self.now → IsProofLive ts result.now }
    {
        &self.subs[i]
    }

    /// The number of steps, or the greatest `usize` where there are more.
    pub fn lines(&self) -> usize
        ensures { result ≡ min (lines self.now) usize.MAX }
    {
        let mut count: usize = 1;
        for sub in &self.subs {
            count = count.saturating_add(sub.lines());
        }
        count
    }

    /// The number of steps on the longest path, or the greatest `usize` where there are more.
    pub fn depth(&self) -> usize
        ensures { result ≡ min (depth self.now) usize.MAX }
    {
        let mut deepest: usize = 0;
        for sub in &self.subs {
            deepest = deepest.max(sub.depth());
        }
        deepest.saturating_add(1)
    }

    /// A second proof that is the same tree. It fails for want of memory alone.
    pub fn try_clone(&self) -> Result<Proof, AllocError>
        ensures { IfOk result (λ proof. proof ≡ self.now) }
    {
        let mut subs = Vec::new(*self.subs.allocator());
        for sub in &self.subs {
            subs.push(sub.try_clone()?)?;
        }
        Ok(Proof::new(self.rule, self.principal, subs))
    }
}
