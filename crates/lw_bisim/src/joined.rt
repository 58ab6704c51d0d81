ghost use Rattle.std.specs.Prelude.{◌≡◌, ℕ, ◌<◌, ◌≤◌, All, IfOk, OnOk, List, length};
ghost use Rattle.lw_formula.specs.FiniteModel.{IsWellFormed};
ghost use Rattle.lw_bisim.specs.Quotient.{place_of};
ghost use Rattle.lw_bisim.specs.Private.Joined.{AddsSeen, AddsNames, IsJoinedTo};

use crate::classes::Classes;
use lw_formula::Name;
use lw_model::Model;
use std::alloc::{AllocError, Global};

/// The model whose worlds are the classes. A class sees what a world of it sees, and has the variables that a world of it
/// has. It fails for want of memory alone.
pub(crate) fn joined(alloc: Global, model: &Model, classes: &Classes) -> Result<Model, AllocError>
    requires some { 1 ≤ classes.now.count }
    requires placed { length classes.now.places.items ≡ model.now.worlds }
    requires below { All (λ c. c < classes.now.count) classes.now.places.items }
    ensures joined { IfOk result (IsJoinedTo model.now classes.now.places.items classes.now.count model.now.worlds) }
    ensures well_formed { IfOk result IsWellFormed }
{
    let mut joined = Model::new(alloc, classes.count)?;
    for world in 0..model.worlds() {
        let class = classes.places[world];
        add_seen(&mut joined, class, &classes.places, model.successors(world))?;
        add_names(&mut joined, class, model.names(world))?;
    }
    // a model that counts its worlds tells that it is well formed
    let _ = joined.worlds();
    Ok(joined)
}

// Lets a class see the classes of these worlds.
fn add_seen(
    joined: &mut Model,
    class: usize,
    places: &[usize],
    seen: &[usize],
) -> Result<(), AllocError>
    requires class { class < joined.old.worlds }
    requires seen { All (λ w. w < length places.now) seen.now }
    requires below { All (λ c. c < joined.old.worlds) places.now }
    ensures { OnOk result (AddsSeen places.now joined.old class seen.now joined.new) }
{
    for world in seen {
        joined.add_pair(class, places[*world])?;
    }
    Ok(())
}

// Makes the variables true at a class.
fn add_names(joined: &mut Model, class: usize, names: &[Name]) -> Result<(), AllocError>
    requires { class < joined.old.worlds }
    ensures { OnOk result (AddsNames joined.old class names.now joined.new) }
{
    for name in names {
        joined.add_fact(class, name)?;
    }
    Ok(())
}
