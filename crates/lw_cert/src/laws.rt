ghost use Rattle.std.specs.Prelude.{ℕ, List};
ghost use Rattle.lw_formula.specs.Formula.{Formula};
ghost use Rattle.lw_pool.specs.Region.{AreNamed};
ghost use Rattle.lw_cert.specs.declared.certificate.Certificate.{Certificate};
ghost use Rattle.lw_cert.specs.Laws.{HasOneAnswer, HasOneCertificate, HasOneText, ReadsBack};

use lw_read::{one_tree, reads_back};

/// Law: a certificate's text has no fault, so it is read but for want of memory.
pub fn one_answer()
    ensures { (text : List ℕ) → HasOneAnswer text }
{}

/// Law: a text is that of at most one certificate, whose model is told by the rows of its worlds.
pub fn one_certificate()
    ensures { (text : List ℕ) → HasOneCertificate text }
{
    one_tree();
}

/// Law: a certificate has one text, whatever the order of its model's lists.
pub fn one_text()
    ensures { (ts : List Formula) (c : Certificate) → HasOneText ts c }
{}

/// Law: what is written of a certificate is its text, where the letters of the pool's formulas are names, each step has
/// the subproofs that its rule asks for, and each line is within the limits: no formula's text has a fault, no step is
/// deeper than 4,096, and a model has at most 2^64 - 1 worlds.
pub fn written_reads_back()
    ensures { (ts : List Formula) → AreNamed ts → (c : Certificate) (text : List ℕ) → ReadsBack ts c text }
{
    reads_back();
}
