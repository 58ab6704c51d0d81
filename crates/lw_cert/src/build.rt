ghost use Rattle.std.specs.Prelude.{◌≡◌, ◌++◌, ◌∷◌, [], ◌<◌, IfOk, OnOk, reverse, take, drop, length, map};
ghost use Rattle.lw_proof.specs.Tree.{Tree, node, forest};
ghost use Rattle.lw_proof.specs.Break.{arity};
ghost use Rattle.lw_cert.specs.Private.StageViews.{grown, ruled};

use crate::stage::Step;
use lw_proof::Proof;
use std::alloc::{AllocError, Global};

/// The proofs that the steps in pre-order make, the first one last. It fails for want of memory alone.
pub fn built(alloc: Global, mut steps: Vec<Step>) -> Result<Vec<Proof>, AllocError>
    ensures { IfOk result (λ proofs. reverse proofs.items ≡ grown (map ruled steps.items) []) }
{
    let mut proofs = Vec::new(alloc);
    while let Some(step) = steps.pop() {
        put(alloc, &step, &mut proofs)?;
    }
    Ok(proofs)
}

// Puts a step over as many of the proofs as its rule has premises, the first of them last.
fn put(alloc: Global, step: &Step, proofs: &mut Vec<Proof>) -> Result<(), AllocError>
    ensures { OnOk result (reverse proofs.new.items
        ≡ node step.now.rule step.now.principal (forest (take (arity step.now.rule) (reverse proofs.old.items)))
        ∷ drop (arity step.now.rule) (reverse proofs.old.items)) }
{
    let subs = taken(alloc, step.rule.arity(), proofs)?;
    proofs.push(Proof::new(step.rule, step.principal, subs))?;
    Ok(())
}

// Takes so many proofs from the end, or all where there are fewer.
fn taken(alloc: Global, count: usize, proofs: &mut Vec<Proof>) -> Result<Vec<Proof>, AllocError>
    ensures { IfOk result (λ subs. (subs.items ≡ take count (reverse proofs.old.items))
        × (reverse proofs.new.items ≡ drop count (reverse proofs.old.items))) }
{
    let mut subs = Vec::new(alloc);
    for _ in 0..count {
        shift(proofs, &mut subs)?;
    }
    Ok(subs)
}

// Moves the last proof, where there is one.
fn shift(from: &mut Vec<Proof>, to: &mut Vec<Proof>) -> Result<(), AllocError>
    ensures to { OnOk result (to.new.items ≡ to.old.items ++ take 1 (reverse from.old.items)) }
    ensures from { OnOk result (reverse from.new.items ≡ drop 1 (reverse from.old.items)) }
{
    match from.pop() {
        Some(proof) => {
            to.push(proof)?;
            Ok(())
        }
        None => Ok(()),
    }
}
