// The children of the root.
ghost use Rattle.std.specs.Prelude.{◌≡◌, ◌<◌, IsTrue, All, IfErr, IfNone, IfOk, IfSome, length};
ghost use Rattle.lw_formula.specs.declared.logic.Logic.TheVariants.{S5};
ghost use Rattle.lw_formula.specs.declared.parts.Parts.TheVariants.{Pi};
ghost use Rattle.lw_closure.specs.Table.{entry_at, item_count};
ghost use Rattle.lw_sat.specs.Course.{label};
ghost use Rattle.lw_sat.specs.Sets.{among};
ghost use Rattle.lw_search.specs.Step as step;
ghost use Rattle.lw_s5.specs.Private.RootedSearch.{HasLabel, IsChild, IsDecidedBy, IsModalAlike, IsObstacle, IsUndecided};

use crate::label::{decides, is_modal, items};
use crate::obstacle::Obstacle;
use lw_closure::Closure;
use lw_formula::Logic;
use lw_proof::Rule;
use lw_sat::{Found, Saturation, over_one};
use std::alloc::{AllocError, Global};

/// The label of a child of the root that serves the root's π `item` by its component.
pub(crate) fn child(
    alloc: Global,
    closure: &Closure,
    root: &Saturation,
    item: usize,
    component: usize,
) -> Result<Vec<usize>, Obstacle>
    requires logic { closure.now.logic ≡ S5 }
    requires alike { IsModalAlike closure.now }
    requires label { HasLabel closure.now root.now }
    requires item { item < item_count closure.now }
    requires there { IsTrue (label root.now item) }
    requires parts { (entry_at closure.now item).parts ≡ Pi component }
    requires component { component < item_count closure.now }
    ensures child { IfOk result (λ label_of_child. IsChild closure.now (label root.now) (among label_of_child.items)) }
    ensures serves { IfOk result (λ label_of_child. IsTrue (among label_of_child.items component)) }
    ensures below { IfOk result (λ label_of_child. All (λ i. i < item_count closure.now) label_of_child.items) }
    ensures obstacle { IfErr result (IsObstacle closure.now (label root.now)) }
{
    let seed = seed(alloc, closure, root, item, component)?;
    let mut saturation = Saturation::start(alloc, closure, Logic::S5, &seed)?;
    match saturation.next(closure)? {
        Found::Closed(proof) => {
            let stepped = over_one(alloc, closure, Rule::Step, item, proof)?;
            Err(Obstacle::Closed(stepped))
        }
        Found::Unclosed => match undecided(closure, root, &saturation) {
            Some(formula) => Err(Obstacle::Undecided(formula)),
            None => Ok(items(alloc, closure, &saturation)?),
        },
    }
}

// With what the child's label begins: the component, and the root's modal items.
fn seed(
    alloc: Global,
    closure: &Closure,
    root: &Saturation,
    item: usize,
    component: usize,
) -> Result<Vec<usize>, AllocError>
    requires logic { closure.now.logic ≡ S5 }
    requires label { HasLabel closure.now root.now }
    requires component { component < item_count closure.now }
    ensures set { IfOk result (λ seed. among seed.items ≡ step.seed closure.now (label root.now) item component) }
    ensures below { IfOk result (λ seed. All (λ i. i < item_count closure.now) seed.items) }
{
    let mut seed = Vec::new(alloc);
    for kept in 0..2 * closure.count() {
        if is_modal(closure, kept) && root.has(kept) {
            seed.push(kept)?;
        }
    }
    seed.push(component)?;
    Ok(seed)
}

// A modal formula of which the child has an item and the root has neither, if there is one.
fn undecided(closure: &Closure, root: &Saturation, child: &Saturation) -> Option<usize>
    requires alike { IsModalAlike closure.now }
    requires root { HasLabel closure.now root.now }
    requires child { HasLabel closure.now child.now }
    ensures some { IfSome result (IsUndecided closure.now (label root.now)) }
    ensures none { IfNone result (IsDecidedBy closure.now (label root.now) (label child.now)) }
{
    for formula in 0..closure.count() {
        if is_modal(closure, 2 * formula)
            && decides(closure, child, formula)
            && !decides(closure, root, formula)
        {
            return Some(formula);
        }
    }
    None
}
