ghost use Rattle.std.specs.Prelude.{◌≡◌, ℕ, ◌<◌, ◌≤◌, ◌↔◌, List, [], length, All, Contains, IsTrue, IfOk, OnOk, OnErr};
ghost use Rattle.std.specs.Ordering.{nat_cmp};
ghost use Rattle.std.specs.Cmp.Lexicographic.{slice_cmp};
ghost use Rattle.std.specs.List.Sorted.{IsStrictlySortedBy};
ghost use Rattle.lw_formula.specs.FiniteModel.{IsWellFormed, Sees, HasFact};
ghost use Rattle.lw_formula.specs.Name.{is_name};
ghost use Rattle.lw_model.specs.Edits.{AddsPair, AddsFact, fact_at};

use crate::ordered_rows::OrderedRows;
use lw_formula::Name;
use std::alloc::{AllocError, Global};

/// A finite Kripke model: its number of worlds, at least 1, which world sees which, and which variables are true where.
/// The worlds are the numbers below.
#[derive(Debug, Drop)]
pub struct Model {
    worlds: usize,
    pairs: OrderedRows<usize>,
    facts: OrderedRows<Name>,
}

impl std::marker::Model for Model {
    ghost use Rattle.lw_formula.specs.FiniteModel.{FiniteModel, IsWellFormed};

    ghost Value = { FiniteModel };

    ghost view = { λ m. record { worlds = m.worlds; pairs = m.pairs; facts = m.facts } };

    ghost invariant = { λ m. IsWellFormed (record { worlds = m.worlds; pairs = m.pairs; facts = m.facts }) };
}

impl Model {
    /// A model of so many worlds, none of which sees any, with no variable true anywhere. It takes no memory yet.
    pub fn new(alloc: Global, worlds: usize) -> Result<Model, AllocError>
        requires { 1 ≤ worlds }
        ensures { IfOk result (λ m. m ≡ record { worlds = worlds; pairs = []; facts = [] }) }
    {
        Ok(Model {
            worlds,
            pairs: OrderedRows::new(alloc),
            facts: OrderedRows::new(alloc),
        })
    }

    /// Lets a world see another; nothing changes where it does already. It fails for want of memory alone, and then the
    /// model is as before.
    pub fn add_pair(&mut self, from: usize, to: usize) -> Result<(), AllocError>
        requires from { from < self.old.worlds }
        requires to { to < self.old.worlds }
        ensures added { OnOk result (AddsPair self.old from to self.new) }
        ensures same { OnOk result (Sees self.old from to → self.new ≡ self.old) }
        ensures failed { OnErr result (self.new ≡ self.old) }
        ensures absent { OnErr result (¬ Sees self.old from to) }
    {
        self.pairs.add(from, &to)
    }

    /// Makes a variable true at a world; nothing changes where it is already. It fails for want of memory alone, and
    /// then the model is as before.
    pub fn add_fact(&mut self, world: usize, name: &Name) -> Result<(), AllocError>
        requires { world < self.old.worlds }
        ensures added { OnOk result (AddsFact self.old world name.now self.new) }
        ensures same { OnOk result (HasFact self.old world name.now → self.new ≡ self.old) }
        ensures failed { OnErr result (self.new ≡ self.old) }
        ensures absent { OnErr result (¬ HasFact self.old world name.now) }
    {
        self.facts.add(world, name)
    }

    /// How many worlds there are, at least 1. The worlds are the numbers below.
    pub fn worlds(&self) -> usize
        ensures worlds { result ≡ self.now.worlds }
        ensures well_formed { IsWellFormed self.now }
    {
        self.worlds
    }

    /// Whether a world sees another.
    pub fn sees(&self, from: usize, to: usize) -> bool
        ensures { IsTrue result ↔ Sees self.now from to }
    {
        self.pairs.has(from, &to)
    }

    /// The worlds that this world sees, in ascending order, each once.
    pub fn successors(&self, world: usize) -> &[usize]
        ensures exact { (w : ℕ) → Contains result.now w ↔ Sees self.now world w }
        ensures ordered { IsStrictlySortedBy nat_cmp result.now }
    {
        self.pairs.row(world)
    }

    /// Each world that sees any is below this number.
    pub(crate) fn end_of_pairs(&self) -> usize
        ensures { (v w : ℕ) → Sees self.now v w → v < result }
    {
        self.pairs.end()
    }

    /// Whether a variable is true at a world.
    pub fn fact(&self, world: usize, name: &Name) -> bool
        ensures { IsTrue result ↔ HasFact self.now world name.now }
    {
        self.facts.has(world, name)
    }

    /// The variables that are true at this world, in the order of their names' bytes, each once.
    pub fn names(&self, world: usize) -> &[Name]
        ensures exact { (p : List ℕ) → Contains result.now p ↔ HasFact self.now world p }
        ensures ordered { IsStrictlySortedBy (slice_cmp nat_cmp) result.now }
        ensures named { All (λ p. IsTrue (is_name p)) result.now }
    {
        self.facts.row(world)
    }

    /// How many facts there are: pairs of a world and a variable that is true there, each once.
    pub fn fact_count(&self) -> usize
        ensures { result ≡ length self.now.facts }
    {
        self.facts.len()
    }

    /// The world of the i-th fact, from 0, in the order of the worlds, and at a world of their names' bytes. It walks the
    /// worlds up to that one.
    pub fn fact_world(&self, i: usize) -> usize
        requires { i < length self.now.facts }
        ensures { result ≡ (fact_at self.now i).0 }
    {
        self.facts.number_of(i)
    }

    /// The variable of the i-th fact, from 0, in the order of the worlds, and at a world of their names' bytes. It walks
    /// the worlds up to that one.
    pub fn fact_name(&self, i: usize) -> &Name
        requires { i < length self.now.facts }
        ensures { result.now ≡ (fact_at self.now i).1 }
    {
        self.facts.item(i)
    }

    /// The memory that the model is kept in.
    pub(crate) fn allocator(&self) -> Global {
        self.facts.allocator()
    }

    /// A second model that is equal to this one. It fails for want of memory alone.
    pub fn try_clone(&self) -> Result<Model, AllocError>
        ensures { IfOk result (λ m. m ≡ self.now) }
    {
        Ok(Model {
            worlds: self.worlds,
            pairs: self.pairs.try_clone()?,
            facts: self.facts.try_clone()?,
        })
    }
}
