ghost use Rattle.std.specs.Prelude.{◌≡◌, ◌↔◌, length, IfOk, OnOk};
ghost use Rattle.lw_formula.specs.Validity.{Valid};
ghost use Rattle.lw_pool.specs.Region.{IsLive, Grows, tree_at, AreBothBelow};
ghost use Rattle.lw_proof.specs.Tree.{subs_of};
ghost use Rattle.lw_proof.specs.Derivation.{Proves};
ghost use Rattle.lw_proof.specs.Pooled.{proof_at, IsProofLive};
ghost use Rattle.lw_check.specs.Judgement.{IsVerdict, IsAccepted};
ghost use Rattle.lw_sets.specs.IdSets.{set_of, AreLive, with_side};
ghost use Rattle.lw_check.specs.Private.LeftSets.{with_each};
ghost use Rattle.lw_check.specs.Private.ProofWalk.{Tells, TellsAll};

use crate::premise::{Left, left_by};
use crate::step::refusal;
use crate::verdict::Verdict;
use crate::walked::Walked;
use lw_formula::{Logic, Sign};
use lw_pool::{FormId, Pool, SignedId};
use lw_proof::{Proof, SignedIds};
use lw_sets::{add_side, kept_items, stepped};
use std::alloc::{AllocError, Global};

/// Whether the proof proves the goal in the logic, and else the first step that breaks its rule, with the first reason.
/// It fails for want of memory alone. After every answer the pool has what it had, and perhaps formulas above.
pub fn check(
    alloc: Global,
    pool: &mut Pool,
    logic: Logic,
    goal: FormId,
    proof: &Proof,
) -> Result<Verdict, AllocError>
    requires goal { IsLive pool.old goal }
    requires proof { IsProofLive pool.old proof.now }
    ensures verdict { IfOk result (IsVerdict logic (tree_at pool.old goal) (proof_at pool.old proof.now)) }
    ensures accepted { IfOk result (λ v. IsAccepted v ↔ Proves logic (proof_at pool.old proof.now) (tree_at pool.old goal)) }
    ensures valid { IfOk result (λ v. IsAccepted v → Valid logic (tree_at pool.old goal)) }
    ensures grows { Grows pool.old pool.new }
{
    let cuts = pool.subformula_table(goal)?;
    let mut items = SignedIds::new(alloc);
    items.add(SignedId {
        sign: Sign::F,
        form: goal,
    })?;
    let walked = walk(pool, logic, &cuts, &mut items, proof, 1)?;
    Ok(walked.verdict())
}

/// Walks over the proof, which is to close the items, and counts its first step as `step`. The marked formulas may be
/// cut.
#[cycle(walk)]
fn walk(
    pool: &mut Pool,
    logic: Logic,
    cuts: &[bool],
    items: &mut SignedIds,
    proof: &Proof,
    step: usize,
) -> Result<Walked, AllocError>
    requires items { AreLive pool.old items.old }
    requires proof { IsProofLive pool.old proof.now }
    ensures told { IfOk result (Tells logic pool.new cuts.now (λ ts. set_of ts items.old) proof.now step) }
    ensures same { OnOk result (items.new ≡ items.old) }
    ensures grows { Grows pool.old pool.new }
{
    if let Some(why) = refusal(pool, logic, cuts, items, proof) {
        return Ok(Walked::Broken { step, why });
    }
    let next = step.saturating_add(1);
    match left_by(pool, proof.rule(), proof.principal()) {
        Left::Nothing => Ok(Walked::Through { next }),
        Left::One(side) => extended(pool, logic, cuts, items, side, proof.sub(0), next),
        Left::Two(one, other) => split(pool, logic, cuts, items, (one, other), proof, next),
        Left::Stepped(part) => {
            let mut seen = stepped(pool, logic, items, proof.principal(), part)?;
            walk(pool, logic, cuts, &mut seen, proof.sub(0), next)
        }
        Left::Kept => {
            let mut kept = kept_items(pool, logic, items)?;
            walk(pool, logic, cuts, &mut kept, proof.sub(0), next)
        }
    }
}

/// Walks over the first two subproofs of the proof, of which each is to close the items with one of the sides.
#[cycle(walk)]
fn split(
    pool: &mut Pool,
    logic: Logic,
    cuts: &[bool],
    items: &mut SignedIds,
    sides: ((SignedId, Option<SignedId>), (SignedId, Option<SignedId>)),
    proof: &Proof,
    step: usize,
) -> Result<Walked, AllocError>
    requires items { AreLive pool.old items.old }
    requires one { AreBothBelow (length pool.old) sides.0 }
    requires other { AreBothBelow (length pool.old) sides.1 }
    requires proof { IsProofLive pool.old proof.now }
    requires count { length (subs_of proof.now) ≡ 2 }
    ensures told { IfOk result (TellsAll logic pool.new cuts.now (with_each items.old sides) proof.now step) }
    ensures same { OnOk result (items.new ≡ items.old) }
    ensures grows { Grows pool.old pool.new }
{
    let (one, other) = sides;
    match extended(pool, logic, cuts, items, one, proof.sub(0), step)? {
        Walked::Through { next } => {
            extended(pool, logic, cuts, items, other, proof.sub(1), next)
        }
        Walked::Broken { step, why } => Ok(Walked::Broken { step, why }),
    }
}

/// Walks over the proof, which is to close the items with one side.
#[cycle(walk)]
fn extended(
    pool: &mut Pool,
    logic: Logic,
    cuts: &[bool],
    items: &mut SignedIds,
    side: (SignedId, Option<SignedId>),
    proof: &Proof,
    step: usize,
) -> Result<Walked, AllocError>
    requires items { AreLive pool.old items.old }
    requires side { AreBothBelow (length pool.old) side }
    requires proof { IsProofLive pool.old proof.now }
    ensures told { IfOk result (Tells logic pool.new cuts.now (with_side items.old side) proof.now step) }
    ensures same { OnOk result (items.new ≡ items.old) }
    ensures grows { Grows pool.old pool.new }
{
    let count = items.count();
    add_side(items, side)?;
    let walked = walk(pool, logic, cuts, items, proof, step)?;
    items.cut(count);
    Ok(walked)
}
