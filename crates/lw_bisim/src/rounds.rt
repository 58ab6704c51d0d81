ghost use Rattle.std.specs.Prelude.{◌≡◌, ℕ, suc, ◌<◌, ◌↔◌, All, Contains, IfOk, length};
ghost use Rattle.std.specs.Ordering.{nat_cmp};
ghost use Rattle.std.specs.List.Sorted.{IsStrictlySortedBy};
ghost use Rattle.lw_formula.specs.FiniteModel.{IsWellFormed};
ghost use Rattle.lw_bisim.specs.Bisimulation.{AreBisimilar};
ghost use Rattle.lw_bisim.specs.Private.Classes.{HasClass};
ghost use Rattle.lw_bisim.specs.Private.Rounds.{AreAlike, AreClassesOf};

use crate::classes::{Classes, classes_by};
use lw_model::Model;
use std::alloc::{AllocError, Global};

/// The classes of bisimilar worlds: those with the same variables, split by the classes that they see until no class
/// splits. It fails for want of memory alone.
pub(crate) fn bisimilar_classes(alloc: Global, model: &Model) -> Result<Classes, AllocError>
    ensures well_formed { IfOk result (λ _. IsWellFormed model.now) }
    ensures classes { IfOk result (λ classes. AreClassesOf model.now (AreBisimilar model.now) classes.places.items classes.count) }
{
    let mut classes = by_letters(alloc, model)?;
    loop {
        let finer = refined(alloc, model, &classes)?;
        if finer.count == classes.count {
            return Ok(finer);
        }
        classes = finer;
    }
}

// The classes of worlds with the same variables.
fn by_letters(alloc: Global, model: &Model) -> Result<Classes, AllocError>
    ensures well_formed { IsWellFormed model.now }
    ensures classes { IfOk result (λ classes. AreClassesOf model.now (AreAlike model.now 0) classes.places.items classes.count) }
{
    let mut keys = Vec::with_capacity(alloc, model.worlds())?;
    for world in 0..model.worlds() {
        keys.push(model.names(world))?;
    }
    classes_by(alloc, keys)
}

// The classes of worlds of one class that see the same classes.
fn refined(alloc: Global, model: &Model, classes: &Classes) -> Result<Classes, AllocError>
    requires { length classes.now.places.items ≡ model.now.worlds }
    ensures { (k : ℕ) → AreClassesOf model.now (AreAlike model.now k) classes.now.places.items classes.now.count →
        IfOk result (λ finer. AreClassesOf model.now (AreAlike model.now (suc k)) finer.places.items finer.count) }
{
    let mut keys = Vec::with_capacity(alloc, model.worlds())?;
    for world in 0..model.worlds() {
        let seen = seen_classes(alloc, &classes.places, model.successors(world))?;
        keys.push((classes.places[world], seen))?;
    }
    classes_by(alloc, keys)
}

// The classes of these worlds, in order, each once.
fn seen_classes(alloc: Global, places: &[usize], worlds: &[usize]) -> Result<Vec<usize>, AllocError>
    requires { All (λ w. w < length places.now) worlds.now }
    ensures exact { IfOk result (λ seen. (c : ℕ) → Contains seen.items c ↔ HasClass places.now worlds.now c) }
    ensures ordered { IfOk result (λ seen. IsStrictlySortedBy nat_cmp seen.items) }
{
    let mut seen = Vec::with_capacity(alloc, worlds.len())?;
    for world in worlds {
        seen.push(places[*world])?;
    }
    seen.sort_unstable();
    seen.dedup();
    Ok(seen)
}
