ghost use Rattle.std.specs.Prelude.{◌≤◌, length, IfOk, OnOk};
ghost use Rattle.lw_pool.specs.Region.{IsLive, Grows, tree_at};
ghost use Rattle.lw_proof.specs.Tree.{lines};
ghost use Rattle.lw_proof.specs.Derivation.{Proves};
ghost use Rattle.lw_proof.specs.Pooled.{proof_at, IsProofLive};
ghost use Rattle.lw_sets.specs.IdSets.{AreLive};
ghost use Rattle.lw_share.specs.NodeSets.{proof_sets};
ghost use Rattle.lw_share.specs.Pooled.{table_at, IsTableLive};
ghost use Rattle.lw_share.specs.SetCounts.{HasEachOnce};
ghost use Rattle.lw_share.specs.SharedProofs.{line_sets, SharedProves};
ghost use Rattle.lw_share.specs.Private.PremiseLists.{AreAllLive};
ghost use Rattle.lw_share.specs.Private.SharedSteps.{PutsProof};
ghost use Rattle.lw_share.specs.Private.SharedSubproofs.{IsDerived, AreDerived, PutsSubproofs};

use crate::premise::premises;
use crate::sets::only;
use crate::sharing::Sharing;
use crate::table::Table;
use lw_formula::Logic;
use lw_pool::{FormId, Pool};
use lw_proof::{Proof, SignedIds};
use std::alloc::{AllocError, Global};

/// The proof as a table with one line for each set that its steps close, and the number of the line of its first step.
/// It fails for want of memory alone. After every answer the pool has what it had, and perhaps formulas above. Each step
/// takes time in its set, and the sorting of it.
pub fn share(
    alloc: Global,
    pool: &mut Pool,
    logic: Logic,
    goal: FormId,
    proof: &Proof,
) -> Result<(Table, usize), AllocError>
    requires goal { IsLive pool.old goal }
    requires proof { IsProofLive pool.old proof.now }
    requires proves { Proves logic (proof_at pool.old proof.now) (tree_at pool.old goal) }
    ensures shared { IfOk result (λ r. SharedProves logic (table_at pool.new r.0) r.1 (tree_at pool.old goal)) }
    ensures sets { IfOk result (λ r.
        HasEachOnce (proof_sets logic (tree_at pool.old goal) (proof_at pool.old proof.now)) (line_sets (table_at pool.new r.0))) }
    ensures few { IfOk result (λ r. length r.0 ≤ lines proof.now) }
    ensures live { IfOk result (λ r. IsTableLive pool.new r.0) }
    ensures grows { Grows pool.old pool.new }
{
    let mut sharing = Sharing::new(alloc);
    let items = only(alloc, goal)?;
    let root = put(alloc, pool, logic, &mut sharing, &items, proof)?;
    let table = sharing.finish();
    prove!(root < table.count());
    Ok((table, root))
}

/// Puts the steps of the proof, which closes the items, into the table, and gives the number of the line with their set.
#[cycle(put)]
fn put(
    alloc: Global,
    pool: &mut Pool,
    logic: Logic,
    sharing: &mut Sharing,
    items: &SignedIds,
    proof: &Proof,
) -> Result<usize, AllocError>
    requires table { IsTableLive pool.old sharing.old }
    requires items { AreLive pool.old items.now }
    requires proof { IsProofLive pool.old proof.now }
    requires derived { IsDerived logic pool.old items.now proof.now }
    ensures put { IfOk result (PutsProof logic pool.old sharing.old pool.new sharing.new items.now proof.now) }
    ensures live { OnOk result (IsTableLive pool.new sharing.new) }
    ensures grows { Grows pool.old pool.new }
{
    let (rule, principal) = (proof.rule(), proof.principal());
    let premises = premises(alloc, pool, logic, items, rule, principal)?;
    let cites = put_subproofs(alloc, pool, logic, sharing, &premises, proof)?;
    sharing.enter(alloc, pool, items, rule, principal, &cites)
}

/// Puts the subproofs of the proof's first step, which close the premises in turn, into the table, and gives the numbers
/// of the lines with the premises.
#[cycle(put)]
fn put_subproofs(
    alloc: Global,
    pool: &mut Pool,
    logic: Logic,
    sharing: &mut Sharing,
    premises: &[SignedIds],
    proof: &Proof,
) -> Result<Vec<usize>, AllocError>
    requires table { IsTableLive pool.old sharing.old }
    requires premises { AreAllLive pool.old premises.now }
    requires proof { IsProofLive pool.old proof.now }
    requires derived { AreDerived logic pool.old premises.now proof.now }
    ensures put { IfOk result (λ cites.
        PutsSubproofs logic pool.old sharing.old pool.new sharing.new premises.now proof.now cites.items) }
    ensures live { OnOk result (IsTableLive pool.new sharing.new) }
    ensures grows { Grows pool.old pool.new }
{
    let mut cites = Vec::new(alloc);
    for (i, premise) in premises.iter().enumerate() {
        let line = put(alloc, pool, logic, sharing, premise, proof.sub(i))?;
        cites.push(line)?;
    }
    Ok(cites)
}
