ghost use Rattle.std.specs.Prelude.{◌≡◌, ◌≢◌, MatchOption, IfOk};
ghost use Rattle.lw_formula.specs.Formula.{Formula};
ghost use Rattle.lw_formula.specs.Tree.{tree_of};
ghost use Rattle.lw_pool.specs.Region.{tree_at, IsLive, Grows};
ghost use Rattle.lw_read.specs.Grammar.{ReadsAs};
ghost use Rattle.lw_read.specs.Text.{text_of};
ghost use Rattle.lw_cert.specs.Private.StageViews.{IsNoFormula, IsReadAt};

use lw_formula::Form;
use lw_pool::{FormId, Pool};
use lw_read::{ReadFault, one_answer, one_tree, print_form, read_formula};
use std::alloc::{AllocError, Global};

/// The id of the formula whose printed text this is, where the text has no fault. The formula is put into the pool
/// where it isn't there. It fails for want of memory alone.
pub fn exact(alloc: Global, pool: &mut Pool, text: &[u8]) -> Result<Option<FormId>, AllocError>
    ensures found { IfOk result (λ found. MatchOption found (IsNoFormula text.now) (IsReadAt pool.new text.now)) }
    ensures grows { Grows pool.old pool.new }
{
    one_answer();
    match read_formula(alloc, text) {
        Ok(form) => entered(alloc, pool, text, &form),
        Err(ReadFault::Memory) => Err(AllocError),
        Err(_) => Ok(None),
    }
}

// The id of the formula that was read, where the text is its printed one.
fn entered(
    alloc: Global,
    pool: &mut Pool,
    text: &[u8],
    form: &Form,
) -> Result<Option<FormId>, AllocError>
    requires { ReadsAs text.now (tree_of form.now) }
    ensures found { IfOk result (λ found. MatchOption found (IsNoFormula text.now) (IsReadAt pool.new text.now)) }
    ensures grows { Grows pool.old pool.new }
{
    one_tree();
    let printed = print_form(alloc, form)?;
    if printed.as_slice() == text {
        Ok(Some(pool.from_form(form)?))
    } else {
        Ok(None)
    }
}
