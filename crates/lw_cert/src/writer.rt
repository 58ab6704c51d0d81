ghost use Rattle.std.specs.Prelude.{◌≡◌, ◌<◌, ◌≤◌, ◌∷◌, List, length, IfOk, OnOk, IsErrOf};
ghost use Rattle.lw_formula.specs.Formula.{Formula};
ghost use Rattle.lw_pool.specs.Region.{tree_at};
ghost use Rattle.lw_read.specs.Text.{text_of};
ghost use Rattle.lw_cert.specs.Lines.{heading, logic_is, formula_is};
ghost use Rattle.lw_cert.specs.Written.{IsCertificateLive, IsWritten, HasLiveBody};
ghost use Rattle.lw_cert.specs.Private.LineWriting.{Writes, WritesBody};

use crate::certificate::{Body, Certificate};
use crate::model_writer::write_model;
use crate::proof_writer::write_proof;
use lw_formula::Logic;
use lw_pool::Pool;
use lw_read::{LONGEST_TEXT, PrintFault, print_formula};
use std::alloc::{AllocError, Global};

/// The text of the certificate. `TextLimit` comes where its formula's text has more than 1,048,576 bytes; the lines of
/// its proof or model have no limit. `Memory` comes for want of memory alone.
pub fn certificate_text(
    alloc: Global,
    pool: &Pool,
    certificate: &Certificate,
) -> Result<Vec<u8>, PrintFault>
    requires { IsCertificateLive pool.now certificate.now }
    ensures text { IfOk result (λ text. IsWritten pool.now certificate.now text.items) }
    ensures within { OnOk result (length (text_of (tree_at pool.now certificate.now.formula)) ≤ LONGEST_TEXT) }
    ensures limit { IsErrOf result PrintFault.TextLimit → LONGEST_TEXT < length (text_of (tree_at pool.now certificate.now.formula)) }
{
    let formula = print_formula(alloc, pool, certificate.formula)?;
    let mut out = Vec::new(alloc);
    write_head(certificate.logic, &formula, &mut out)?;
    write_body(alloc, pool, &certificate.body, &mut out)?;
    Ok(out)
}

// Writes the lines up to that of the formula, of which this is the text.
fn write_head(logic: Logic, formula: &[u8], out: &mut Vec<u8>) -> Result<(), AllocError>
    ensures { OnOk result ((a : Formula) → formula.now ≡ text_of a
        → Writes out.old.items out.new.items (λ rest. heading ∷ logic_is logic ∷ formula_is a ∷ rest)) }
{
    out.extend_from_slice(b"certificate 1\nlogic ")?;
    out.extend_from_slice(logic.word().as_bytes())?;
    out.extend_from_slice(b"\nformula ")?;
    out.extend_from_slice(formula)?;
    out.extend_from_slice(b"\n")?;
    Ok(())
}

// Writes the lines behind that of the formula.
fn write_body(alloc: Global, pool: &Pool, body: &Body, out: &mut Vec<u8>) -> Result<(), AllocError>
    requires { HasLiveBody pool.now body.now }
    ensures { OnOk result (WritesBody pool.now body.now out.old.items out.new.items) }
{
    match body {
        Body::Proved(proof) => write_proof(alloc, pool, proof, out),
        Body::Refuted(model, world) => write_model(alloc, model, *world, out),
    }
}
