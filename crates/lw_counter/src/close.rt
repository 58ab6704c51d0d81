ghost use Rattle.std.specs.Prelude.{◌≡◌, ◌≢◌, ℕ, ◌<◌, ◌≤◌, All, Contains, IfNone, IfOk, IfSome, OnOk, List, Some, length};
ghost use Rattle.lw_formula.specs.FiniteModel.{IsWellFormed};
ghost use Rattle.lw_formula.specs.Formula.{letter};
ghost use Rattle.lw_formula.specs.declared.sign.Sign.TheVariants.{T};
ghost use Rattle.lw_pool.specs.Region.{IsLive};
ghost use Rattle.lw_closure.specs.Table.{item_count, signed_of};
ghost use Rattle.lw_counter.specs.Countermodel.{IsModelOf};
ghost use Rattle.lw_counter.specs.Fragment.{formulas_of, world_at, HasItemsOf, IsFormed};
ghost use Rattle.lw_counter.specs.FragmentPaths.{has_links, IsEdge, IsRelated};
ghost use Rattle.lw_counter.specs.Private.BuiltRelation.{Joins, AddsFacts, AddsPairs, IsSquareOf, SetsBits};
ghost use Rattle.lw_counter.specs.Private.LabelFacts.{FactsBelow, SaysTrue};

use crate::fragment::Fragment;
use crate::relation::Relation;
use lw_closure::Closure;
use lw_formula::{Logic, Name};
use lw_model::Model;
use lw_pool::{Node, Pool};
use std::alloc::AllocError;

impl Fragment {
    /// The model that the fragment makes in the logic. Its worlds are the fragment's in their order, and the variables
    /// that are true at a world are those that its label has with the sign `T`. A world sees its children, in S4 and
    /// K4 also those that it is linked to; in KT also itself; in KD itself where it has no child; in GL and K4 all that is
    /// reached by such steps, in S4 and Grz also itself; in S5 each world sees all. It fails for want of memory alone.
    pub fn close(&self, closure: &Closure, pool: &Pool, logic: Logic) -> Result<Model, AllocError>
        requires some { 1 ≤ length self.now.worlds }
        requires items { HasItemsOf closure.now self.now }
        requires live { All (IsLive pool.now) closure.now.forms }
        ensures { IfOk result (IsModelOf logic self.now (formulas_of pool.now closure.now self.now)) }
    {
        let mut model = Model::new(self.allocator(), self.count())?;
        let relation = relation(self, logic)?;
        add_pairs(&mut model, &relation)?;
        add_facts(&mut model, self, closure, pool)?;
        Ok(model)
    }
}

// The relation of the fragment's model.
fn relation(fragment: &Fragment, logic: Logic) -> Result<Relation, AllocError>
    ensures { IfOk result (IsSquareOf (length fragment.now.worlds) (IsRelated logic fragment.now)) }
{
    let mut relation = edges(fragment, logic)?;
    relation.complete(logic);
    Ok(relation)
}

// The edges of the fragment.
fn edges(fragment: &Fragment, logic: Logic) -> Result<Relation, AllocError>
    ensures edges { IfOk result (IsSquareOf (length fragment.now.worlds) (IsEdge logic fragment.now)) }
    ensures formed { IsFormed fragment.now }
{
    let mut relation = Relation::new(fragment.allocator(), fragment.count(), false)?;
    add_children(&mut relation, fragment);
    if has_links(logic) {
        add_links(&mut relation, fragment);
    }
    Ok(relation)
}

// Whether links count as edges in the logic.
fn has_links(logic: Logic) -> bool
    ensures { result ≡ has_links logic }
{
    match logic {
        Logic::S4 | Logic::K4 => true,
        Logic::K | Logic::KT | Logic::S5 | Logic::GL | Logic::Grz | Logic::KD => false,
    }
}

// Relates each world to its children.
fn add_children(relation: &mut Relation, fragment: &Fragment)
    requires { relation.old.count ≡ length fragment.now.worlds }
    ensures { SetsBits relation.old relation.new (λ w v. (world_at fragment.now v).parent ≡ Some w) }
{
    for child in 0..fragment.count() {
        if let Some(parent) = fragment.parent(child) {
            relation.add(parent, child);
        }
    }
}

// Relates each world to those that it is linked to.
fn add_links(relation: &mut Relation, fragment: &Fragment)
    requires { relation.old.count ≡ length fragment.now.worlds }
    ensures { SetsBits relation.old relation.new (λ w v. Contains fragment.now.links (w, v)) }
{
    for (from, to) in fragment.links() {
        relation.add(*from, *to);
    }
}

// Lets worlds of the model see each other where they are related.
fn add_pairs(model: &mut Model, relation: &Relation) -> Result<(), AllocError>
    requires { model.old.worlds ≡ relation.now.count }
    ensures { OnOk result (AddsPairs model.old model.new (Joins relation.now)) }
{
    for from in 0..relation.count() {
        add_pairs_from(model, relation, from)?;
    }
    Ok(())
}

// Lets a world see those that it is related to.
fn add_pairs_from(model: &mut Model, relation: &Relation, from: usize) -> Result<(), AllocError>
    requires count { model.old.worlds ≡ relation.now.count }
    requires from { from < relation.now.count }
    ensures { OnOk result (AddsPairs model.old model.new (λ w v. (w ≡ from) × Joins relation.now w v)) }
{
    for to in 0..relation.count() {
        if relation.has(from, to) {
            model.add_pair(from, to)?;
        }
    }
    Ok(())
}

// Makes the variables true at each world that are signed `T` in its label.
fn add_facts(
    model: &mut Model,
    fragment: &Fragment,
    closure: &Closure,
    pool: &Pool,
) -> Result<(), AllocError>
    requires count { model.old.worlds ≡ length fragment.now.worlds }
    requires items { HasItemsOf closure.now fragment.now }
    requires live { All (IsLive pool.now) closure.now.forms }
    ensures added { OnOk result (AddsFacts model.old model.new
        (FactsBelow pool.now closure.now fragment.now (length fragment.now.worlds))) }
    ensures well_formed { OnOk result (IsWellFormed model.new) }
{
    for world in 0..fragment.count() {
        add_facts_at(model, world, fragment.label(world), closure, pool)?;
    }
    // a model that counts its worlds tells that it is well formed
    let _ = model.worlds();
    Ok(())
}

// Makes the variables true at the world that are signed `T` among the items.
fn add_facts_at(
    model: &mut Model,
    world: usize,
    label: &[usize],
    closure: &Closure,
    pool: &Pool,
) -> Result<(), AllocError>
    requires world { world < model.old.worlds }
    requires items { All (λ i. i < item_count closure.now) label.now }
    requires live { All (IsLive pool.now) closure.now.forms }
    ensures { OnOk result (AddsFacts model.old model.new (λ w p. (w ≡ world) × SaysTrue pool.now closure.now label.now p)) }
{
    for item in label {
        if let Some(name) = variable(closure, pool, *item) {
            model.add_fact(world, name)?;
        }
    }
    Ok(())
}

// The variable that the item says is true, if it is `T` of one.
fn variable<'a>(closure: &Closure, pool: &'a Pool, item: usize) -> Option<&'a Name>
    requires item { item < item_count closure.now }
    requires live { All (IsLive pool.now) closure.now.forms }
    ensures some { IfSome result (λ name. signed_of pool.now closure.now item ≡ (T, letter name.now)) }
    ensures none { IfNone result ((p : List ℕ) → signed_of pool.now closure.now item ≢ (T, letter p)) }
{
    if item % 2 != 0 {
        return None;
    }
    match pool.node(closure.formula(item / 2)) {
        Node::Var(name) => Some(name),
        _ => None,
    }
}
