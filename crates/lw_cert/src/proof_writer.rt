ghost use Rattle.std.specs.Prelude.{◌≡◌, ℕ, ◌<◌, ◌∷◌, List, length, slice_get, OnOk};
ghost use Rattle.lw_formula.specs.Formula.{Formula};
ghost use Rattle.lw_pool.specs.Region.{IsLive, signed_at};
ghost use Rattle.lw_proof.specs.Pooled.{proof_at, IsProofLive};
ghost use Rattle.lw_proof.specs.Tree.{lines, subs_of};
ghost use Rattle.lw_cert.specs.Lines.{proof_follows, step_is, ending};
ghost use Rattle.lw_cert.specs.Sheet.{steps};
ghost use Rattle.lw_cert.specs.Private.LineWriting.{Writes};

use crate::words::{rule_word, sign_word};
use lw_pool::{Pool, SignedId};
use lw_proof::{Proof, Rule};
use lw_read::write_formula;
use std::alloc::{AllocError, Global};

/// Writes the lines of the proof. It fails for want of memory alone.
pub fn write_proof(
    alloc: Global,
    pool: &Pool,
    proof: &Proof,
    out: &mut Vec<u8>,
) -> Result<(), AllocError>
    requires { IsProofLive pool.now proof.now }
    ensures { OnOk result (Writes out.old.items out.new.items (λ rest.
        proof_follows ∷ steps 1 (proof_at pool.now proof.now) (ending ∷ rest))) }
{
    out.extend_from_slice(b"proof\n")?;
    write_steps(alloc, pool, proof, out)?;
    out.extend_from_slice(b"end\n")?;
    Ok(())
}

// Writes the proof's steps in pre-order.
fn write_steps(
    alloc: Global,
    pool: &Pool,
    proof: &Proof,
    out: &mut Vec<u8>,
) -> Result<(), AllocError>
    requires { IsProofLive pool.now proof.now }
    ensures { OnOk result ((d : ℕ) → Writes out.old.items out.new.items (steps d (proof_at pool.now proof.now))) }
{
    write_step(alloc, pool, proof.rule(), proof.principal(), out)?;
    for i in 0..proof.count() {
        write_steps(alloc, pool, proof.sub(i), out)?;
    }
    Ok(())
}

// Writes the line of a step.
fn write_step(
    alloc: Global,
    pool: &Pool,
    rule: Rule,
    principal: SignedId,
    out: &mut Vec<u8>,
) -> Result<(), AllocError>
    requires { IsLive pool.now principal.form }
    ensures { OnOk result ((d : ℕ) → Writes out.old.items out.new.items (λ rest. step_is d rule (signed_at pool.now principal) ∷ rest)) }
{
    out.extend_from_slice(rule_word(rule).as_bytes())?;
    out.extend_from_slice(sign_word(principal.sign).as_bytes())?;
    write_formula(alloc, pool, principal.form, out)?;
    out.extend_from_slice(b"\n")?;
    Ok(())
}
