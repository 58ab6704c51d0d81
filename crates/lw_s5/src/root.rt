// The root with its children.
ghost use Rattle.std.specs.Prelude.{◌≡◌, ◌<◌, ◌↔◌, IsTrue, IfErr, IfNone, IfOk, IfSome};
ghost use Rattle.lw_formula.specs.declared.logic.Logic.TheVariants.{S5};
ghost use Rattle.lw_formula.specs.declared.parts.Parts.TheVariants.{Pi};
ghost use Rattle.lw_closure.specs.Table.{entry_at, item_count};
ghost use Rattle.lw_sat.specs.Course.{label};
ghost use Rattle.lw_s5.specs.Private.RootedSearch.{HasLabel, IsInWorld, IsModalAlike, IsObstacle, IsServedIn, Surrounds};

use crate::child::child;
use crate::label::items;
use crate::obstacle::Obstacle;
use lw_closure::Closure;
use lw_counter::Fragment;
use lw_formula::Parts;
use lw_sat::Saturation;
use std::alloc::Global;

/// The fragment of the root, whose label waits, and of children that serve its π.
pub(crate) fn surround(
    alloc: Global,
    closure: &Closure,
    root: &Saturation,
) -> Result<Fragment, Obstacle>
    requires logic { closure.now.logic ≡ S5 }
    requires alike { IsModalAlike closure.now }
    requires label { HasLabel closure.now root.now }
    ensures fragment { IfOk result (Surrounds closure.now (label root.now) (item_count closure.now)) }
    ensures obstacle { IfErr result (IsObstacle closure.now (label root.now)) }
{
    let mut fragment = Fragment::new(alloc);
    let label = items(alloc, closure, root)?;
    fragment.add(None, &label)?;
    for item in 0..2 * closure.count() {
        if let Some(component) = asked(closure, root, &fragment, item) {
            let label = child(alloc, closure, root, item, component)?;
            fragment.add(Some(0), &label)?;
        }
    }
    Ok(fragment)
}

// The component of the item, where it is a π of the root that no world serves.
fn asked(closure: &Closure, root: &Saturation, fragment: &Fragment, item: usize) -> Option<usize>
    requires label { HasLabel closure.now root.now }
    requires item { item < item_count closure.now }
    ensures some { IfSome result (λ component. IsTrue (label root.now item) × ((entry_at closure.now item).parts ≡ Pi component)) }
    ensures none { IfNone result (IsServedIn closure.now (label root.now) fragment.now item) }
{
    match closure.parts(item) {
        Parts::Pi(component) if root.has(item) && !is_in_world(fragment, component) => {
            Some(component)
        }
        _ => None,
    }
}

// Whether the label of some world has the item.
fn is_in_world(fragment: &Fragment, item: usize) -> bool
    ensures { IsTrue result ↔ IsInWorld fragment.now item }
{
    for world in 0..fragment.count() {
        if fragment.label(world).contains(&item) {
            return true;
        }
    }
    false
}
