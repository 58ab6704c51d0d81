ghost use Rattle.std.specs.Prelude.{◌≡◌, ◌*◌, ◌<◌, ◌≤◌, Contains, IfNone, IfOk, IfSome, length};
ghost use Rattle.lw_formula.specs.FiniteModel.{AreDistinct};
ghost use Rattle.lw_closure.specs.Private.NumberedForms.{IsAdded};
ghost use Rattle.lw_closure.specs.Table.{form_of, item_of, most_forms};

use crate::item::item_number;
use indexmap::IndexSet;
use lw_formula::Sign;
use lw_pool::{FormId, SignedId};
use std::alloc::{AllocError, Global};

/// The formulas in this order, each with its place for its number.
pub(crate) fn numbering(alloc: Global, forms: &[FormId]) -> Result<IndexSet<FormId>, AllocError>
    requires { AreDistinct forms.now }
    ensures { IfOk result (λ numbered. numbered.keys ≡ forms.now) }
{
    let mut numbered = IndexSet::new(alloc);
    for form in forms {
        numbered.insert(*form)?;
    }
    Ok(numbered)
}

/// The number of the formula, which is put behind the others where it isn't there yet.
pub(crate) fn add(forms: &mut IndexSet<FormId>, form: FormId) -> Result<usize, AllocError>
    ensures { IfOk result (IsAdded forms.old.keys forms.new.keys form) }
{
    let (at, _) = forms.insert_full(form)?;
    Ok(at)
}

/// The signed formula that has this number.
pub(crate) fn item_at(forms: &IndexSet<FormId>, item: usize) -> SignedId
    requires { item < 2 * length forms.now.keys }
    ensures { result ≡ item_of forms.now.keys item }
{
    SignedId {
        sign: if item % 2 == 0 { Sign::T } else { Sign::F },
        form: form_at(forms, item / 2),
    }
}

/// The formula that has this number.
pub(crate) fn form_at(forms: &IndexSet<FormId>, form: usize) -> FormId
    requires { form < length forms.now.keys }
    ensures { result ≡ form_of forms.now.keys form }
{
    forms.as_slice()[form]
}

/// The number of the signed formula, where its formula is there.
pub(crate) fn number(forms: &IndexSet<FormId>, item: SignedId) -> Option<usize>
    requires { length forms.now.keys ≤ most_forms }
    ensures there { IfSome result (λ i. (i < 2 * length forms.now.keys) × (item_of forms.now.keys i ≡ item)) }
    ensures absent { IfNone result (¬ Contains forms.now.keys item.form) }
{
    let form = forms.get_index_of(&item.form)?;
    Some(item_number(form, item.sign))
}
