ghost use Rattle.std.specs.Prelude.{◌≡◌, ℕ, ◌⊎◌, ◌↔◌, IsTrue};
ghost use Rattle.lw_formula.specs.FiniteModel.{Sees};
ghost use Rattle.lw_formula.specs.Class.{Class, HasFrame, IsReflexive, IsIrreflexive, IsTransitive, IsSymmetric, IsAntisymmetric, IsSerial};
ghost use Rattle.lw_model.specs.Private.PairCover.{IsCovered, Passes, SeesAllOf};

use crate::model::Model;
use lw_formula::Logic;

/// Whether the model is of the logic's class. It takes no memory. The work is a few rounds of the model's worlds and pairs,
/// with a look-up for each, by halves of one world's list, and, where transitivity is asked for, at most one more look-up for
/// each pair and each world that its second world sees. In a chain one such list is looked up for each world, and where each
/// world sees each, two.
pub fn in_class(model: &Model, logic: Logic) -> bool
    ensures { IsTrue result ↔ Class logic model.now }
{
    model.worlds() >= 1 && has_frame(model, logic)
}

// Whether the relation is one of the logic's frames.
fn has_frame(model: &Model, logic: Logic) -> bool
    ensures { IsTrue result ↔ HasFrame logic model.now }
{
    match logic {
        Logic::K => true,
        Logic::KT => is_reflexive(model),
        Logic::S4 => is_preorder(model),
        Logic::S5 => is_preorder(model) && is_symmetric(model),
        Logic::GL => is_transitive(model) && is_irreflexive(model),
        Logic::Grz => is_preorder(model) && is_antisymmetric(model),
        Logic::K4 => is_transitive(model),
        Logic::KD => is_serial(model),
    }
}

fn is_preorder(model: &Model) -> bool
    ensures { IsTrue result ↔ (IsReflexive model.now × IsTransitive model.now) }
{
    is_reflexive(model) && is_transitive(model)
}

fn is_reflexive(model: &Model) -> bool
    ensures { IsTrue result ↔ IsReflexive model.now }
{
    for world in 0..model.worlds() {
        if !model.sees(world, world) {
            return false;
        }
    }
    true
}

fn is_irreflexive(model: &Model) -> bool
    ensures { IsTrue result ↔ IsIrreflexive model.now }
{
    for world in 0..model.end_of_pairs() {
        if model.sees(world, world) {
            return false;
        }
    }
    true
}

fn is_serial(model: &Model) -> bool
    ensures { IsTrue result ↔ IsSerial model.now }
{
    for world in 0..model.worlds() {
        if !sees_any(model, world) {
            return false;
        }
    }
    true
}

// Whether this world sees one.
fn sees_any(model: &Model, from: usize) -> bool
    ensures { IsTrue result ↔ ((w : ℕ) × Sees model.now from w) }
{
    !model.successors(from).is_empty()
}

fn is_symmetric(model: &Model) -> bool
    ensures { IsTrue result ↔ IsSymmetric model.now }
{
    for world in 0..model.end_of_pairs() {
        if !is_seen_back(model, world) {
            return false;
        }
    }
    true
}

// Whether each world that this one sees sees it.
fn is_seen_back(model: &Model, from: usize) -> bool
    ensures { IsTrue result ↔ ((w : ℕ) → Sees model.now from w → Sees model.now w from) }
{
    model
        .successors(from)
        .iter()
        .all(|to| model.sees(*to, from))
}

fn is_antisymmetric(model: &Model) -> bool
    ensures { IsTrue result ↔ IsAntisymmetric model.now }
{
    for world in 0..model.end_of_pairs() {
        if !is_seen_back_by_itself_alone(model, world) {
            return false;
        }
    }
    true
}

// Whether no other world that this one sees sees it.
fn is_seen_back_by_itself_alone(model: &Model, from: usize) -> bool
    ensures { IsTrue result ↔ ((w : ℕ) → Sees model.now from w → Sees model.now w from → from ≡ w) }
{
    model
        .successors(from)
        .iter()
        .all(|to| are_same_if_seen(model, from, *to))
}

// Whether the worlds are one where the second sees the first.
fn are_same_if_seen(model: &Model, from: usize, to: usize) -> bool
    ensures { IsTrue result ↔ (Sees model.now to from → from ≡ to) }
{
    from == to || !model.sees(to, from)
}

// Whether a sees all that b sees, for each pair (a, b). No test is needed where c stands just before b among those that a
// sees, c sees b, and c > a or b <= a: then a sees all that c sees, and c all that b sees. There is no circle in this. A
// pair with b > a leans, as c > a, on an earlier one of the same world and on one of a later world, and both lead upwards
// too. One with b <= a leans on an earlier one of the same world, with c < b <= a, and on one that leads upwards, from c.
fn is_transitive(model: &Model) -> bool
    ensures { IsTrue result ↔ IsTransitive model.now }
{
    for world in 0..model.end_of_pairs() {
        if !row_passes(model, world) {
            return false;
        }
    }
    true
}

// Whether each pair of this world is covered or tested. It is true where the relation is transitive.
fn row_passes(model: &Model, from: usize) -> bool
    ensures passes { IsTrue result → (w : ℕ) → Sees model.now from w → Passes model.now from w }
    ensures needed { IsTransitive model.now → IsTrue result }
{
    let mut before = None;
    for to in model.successors(from) {
        if !passes(model, before, from, *to) {
            return false;
        }
        before = Some(*to);
    }
    true
}

// Whether the world before the second one covers the pair, or the first world sees all that the second sees.
fn passes(model: &Model, before: Option<usize>, from: usize, to: usize) -> bool
    ensures { IsTrue result ↔ (IsCovered model.now before from to ⊎ SeesAllOf model.now from to) }
{
    is_covered(model, before, from, to) || sees_all_of(model, from, to)
}

fn is_covered(model: &Model, before: Option<usize>, from: usize, to: usize) -> bool
    ensures { IsTrue result ↔ IsCovered model.now before from to }
{
    match before {
        Some(through) => model.sees(through, to) && (through > from || to <= from),
        None => false,
    }
}

// Whether a world sees each world that another sees.
fn sees_all_of(model: &Model, from: usize, to: usize) -> bool
    ensures { IsTrue result ↔ SeesAllOf model.now from to }
{
    model
        .successors(to)
        .iter()
        .all(|world| model.sees(from, *world))
}
