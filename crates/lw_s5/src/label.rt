// A label that waits, as a set of items.
ghost use Rattle.std.specs.Prelude.{◌≡◌, ◌<◌, All, IfOk, length};
ghost use Rattle.lw_proof.specs.Derivation.{is_modal_part};
ghost use Rattle.lw_closure.specs.Table.{entry_at, item_count};
ghost use Rattle.lw_sat.specs.Course.{label};
ghost use Rattle.lw_sat.specs.Sets.{among};
ghost use Rattle.lw_s5.specs.Private.RootedSearch.{decides, HasLabel};

use lw_closure::Closure;
use lw_formula::Parts;
use lw_sat::Saturation;
use std::alloc::{AllocError, Global};

/// Whether the item begins with `box` or `dia`.
pub(crate) fn is_modal(closure: &Closure, item: usize) -> bool
    requires { item < item_count closure.now }
    ensures { result ≡ is_modal_part (entry_at closure.now item).parts }
{
    matches!(closure.parts(item), Parts::Nu(_) | Parts::Pi(_))
}

/// Whether the label has one of the formula's two items.
pub(crate) fn decides(closure: &Closure, saturation: &Saturation, formula: usize) -> bool
    requires label { HasLabel closure.now saturation.now }
    requires formula { formula < length closure.now.forms }
    ensures { result ≡ decides (label saturation.now) formula }
{
    saturation.has(2 * formula) || saturation.has(2 * formula + 1)
}

/// The items of the label, ascending.
pub(crate) fn items(
    alloc: Global,
    closure: &Closure,
    saturation: &Saturation,
) -> Result<Vec<usize>, AllocError>
    requires { HasLabel closure.now saturation.now }
    ensures set { IfOk result (λ items. among items.items ≡ label saturation.now) }
    ensures below { IfOk result (λ items. All (λ i. i < item_count closure.now) items.items) }
{
    let mut items = Vec::new(alloc);
    for item in 0..2 * closure.count() {
        if saturation.has(item) {
            items.push(item)?;
        }
    }
    Ok(items)
}
