ghost use Rattle.std.specs.Prelude.{◌≡◌, ◌≤◌, IfOk, IfErr, IsErrOf, IsTrue, OnOk};
ghost use Rattle.lw_formula.specs.declared.logic.Logic.{Logic};
ghost use Rattle.lw_formula.specs.Formula.{impl, nodes};
ghost use Rattle.lw_pool.specs.Region.{tree_at, IsLive, IsAt, Grows};
ghost use Rattle.lw_proof.specs.Derivation.{Proves};
ghost use Rattle.lw_proof.specs.Pooled.{proof_at, IsProofLive};
ghost use Rattle.lw_interp.specs.declared.fault.InterpFault.TheVariants.{NoInterpolants};
ghost use Rattle.lw_interp.specs.Interpolant.{Interpolant, has_interpolants};
ghost use Rattle.lw_interp.specs.InterpFaults.{IsFaultOf};
ghost use Rattle.lw_interp.specs.Pooled.{interpolant_at, node_bound_at};

use crate::fault::InterpFault;
use crate::logics::has_interpolants;
use crate::sides::SideIds;
use crate::walk::read_off;
use lw_formula::Logic;
use lw_pool::{FormId, Pool};
use lw_proof::Proof;
use std::alloc::Global;

/// The id of an interpolant of `left -> right`, read off a proof of it by Maehara's method: its variables stand in both
/// formulas, and `left -> I` and `I -> right` are valid in the logic. Its tree has at most as many nodes as the proof has
/// lines, times one more than the nodes of the tree of `left -> right`.
///
/// `NoInterpolants` comes exactly for S5, Grz, K4 and KD, before the proof is looked at, and the pool is then as before;
/// `Memory` comes for want of memory alone. After each answer the pool has what it had, and perhaps formulas above. The proof is
/// read with a stack in memory, and nothing recurses.
pub fn interpolant(
    alloc: Global,
    pool: &mut Pool,
    logic: Logic,
    proof: &Proof,
    left: FormId,
    right: FormId,
) -> Result<FormId, InterpFault>
    requires left { IsLive pool.old left }
    requires right { IsLive pool.old right }
    requires proof { IsProofLive pool.old proof.now }
    requires proved { Proves logic (proof_at pool.old proof.now) (impl (tree_at pool.old left) (tree_at pool.old right)) }
    ensures at { IfOk result (IsAt pool.new (interpolant_at logic pool.old proof.now left right)) }
    ensures interpolant { IfOk result (λ id. Interpolant logic (tree_at pool.old left) (tree_at pool.new id) (tree_at pool.old right)) }
    ensures small { IfOk result (λ id. nodes (tree_at pool.new id) ≤ node_bound_at pool.old proof.now left right) }
    ensures supported { OnOk result (IsTrue (has_interpolants logic)) }
    ensures refused { IfErr result (IsFaultOf logic) }
    ensures unchanged { (l : Logic) → IsErrOf result (NoInterpolants l) → pool.new ≡ pool.old }
    ensures grows { Grows pool.old pool.new }
{
    if !has_interpolants(logic) {
        return Err(InterpFault::NoInterpolants { logic });
    }
    let sides = SideIds::new(alloc, left, right)?;
    Ok(read_off(alloc, pool, logic, sides, proof)?)
}
