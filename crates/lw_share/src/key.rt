ghost use Rattle.std.specs.Prelude.{IfOk};
ghost use Rattle.lw_share.specs.Private.SetKeys.{AreFormsUnder, IsKeyOf};

use lw_formula::Sign;
use lw_proof::SignedIds;
use std::alloc::{AllocError, Global};

/// What a set of signed ids is looked up by: the numbers of its formulas under each sign, ascending. The order in which the
/// ids came leaves no trace in it.
#[derive(PartialEq, Eq, Hash, Drop)]
pub(crate) struct SetKey {
    under_t: Vec<usize>,
    under_f: Vec<usize>,
}

/// The key of the set of the items.
pub(crate) fn key_of(alloc: Global, items: &SignedIds) -> Result<SetKey, AllocError>
    ensures { IfOk result (IsKeyOf items.now) }
{
    let under_t = forms_under(alloc, items, Sign::T)?;
    let under_f = forms_under(alloc, items, Sign::F)?;
    Ok(SetKey { under_t, under_f })
}

/// The numbers of the formulas that the items have under the sign, ascending.
fn forms_under(alloc: Global, items: &SignedIds, sign: Sign) -> Result<Vec<usize>, AllocError>
    ensures { IfOk result (λ forms. AreFormsUnder items.now sign forms.items) }
{
    let mut forms = Vec::new(alloc);
    for item in items.as_slice() {
        if item.sign == sign {
            forms.push(item.form.0)?;
        }
    }
    forms.sort_unstable();
    Ok(forms)
}
