ghost use Rattle.std.specs.Prelude.{◌≡◌, ℕ, ◌<◌, ◌↔◌, false, IsTrue, IfOk, ⊤};
ghost use Rattle.lw_counter.specs.FragmentPaths.{Completed, Reaches};
ghost use Rattle.lw_counter.specs.Private.BuiltRelation.{Joins, IsSquareOf, SetsBits};

use lw_formula::Logic;
use std::alloc::{AllocError, Global};
use std::marker::Model;

/// A relation between the numbers below a count.
#[derive(Drop)]
pub(crate) struct Relation {
    count: usize,
    bits: Vec<bool>,
}

impl Model for Relation {
    ghost use Rattle.std.specs.Prelude.{◌≡◌, ◌*◌, length};
    ghost use Rattle.lw_counter.specs.Private.BuiltRelation.{Square};

    ghost Value = { Square };

    ghost view = { λ r. record { count = r.count; bits = r.bits.items } };

    ghost invariant = { λ r. length r.bits.items ≡ r.count * r.count };
}

impl Relation {
    /// All pairs of numbers below the count, or none. It fails for want of memory alone.
    pub(crate) fn new(alloc: Global, count: usize, all: bool) -> Result<Relation, AllocError>
        ensures { IfOk result (IsSquareOf count (λ _ _. IsTrue all)) }
    {
        let size = count.checked_mul(count).ok_or(AllocError)?;
        Ok(Relation {
            count,
            bits: vec![in alloc; all; size]?,
        })
    }

    /// The count.
    pub(crate) fn count(&self) -> usize
        ensures { result ≡ self.now.count }
    {
        self.count
    }

    /// Whether the first is related to the second.
    pub(crate) fn has(&self, from: usize, to: usize) -> bool
        requires from { from < self.now.count }
        requires to { to < self.now.count }
        ensures { IsTrue result ↔ Joins self.now from to }
    {
        self.bits[from * self.count + to]
    }

    /// Relates the first to the second.
    pub(crate) fn add(&mut self, from: usize, to: usize)
        requires from { from < self.old.count }
        requires to { to < self.old.count }
        ensures { SetsBits self.old self.new (λ w v. (w ≡ from) × (v ≡ to)) }
    {
        self.bits[from * self.count + to] = true;
    }

    /// Makes the relation of some edges that of the logic's models.
    pub(crate) fn complete(&mut self, logic: Logic)
        ensures { IsSquareOf self.old.count (Completed logic (Joins self.old)) self.new }
    {
        match logic {
            Logic::K => {}
            Logic::KT => self.add_loops(),
            Logic::S5 => self.fill(),
            Logic::GL | Logic::K4 => self.close(),
            Logic::S4 | Logic::Grz => {
                self.close();
                self.add_loops();
            }
            Logic::KD => self.add_ends(),
        }
    }

    // Relates all numbers to all.
    fn fill(&mut self)
        ensures { IsSquareOf self.old.count (λ _ _. ⊤) self.new }
    {
        self.bits.fill(true);
    }

    // Relates each number to itself.
    fn add_loops(&mut self)
        ensures { SetsBits self.old self.new (λ w v. (w < self.old.count) × (w ≡ v)) }
    {
        for at in 0..self.count() {
            self.add(at, at);
        }
    }

    // Relates each number that is related to none to itself.
    fn add_ends(&mut self)
        ensures { SetsBits self.old self.new (λ w v. (w < self.old.count) × (w ≡ v) × ((u : ℕ) → ¬ Joins self.old w u)) }
    {
        for at in 0..self.count() {
            if !self.has_any(at) {
                self.add(at, at);
            }
        }
    }

    // Whether the number is related to one.
    fn has_any(&self, from: usize) -> bool
        requires { from < self.now.count }
        ensures { IsTrue result ↔ ((v : ℕ) × Joins self.now from v) }
    {
        for to in 0..self.count() {
            if self.has(from, to) {
                return true;
            }
        }
        false
    }

    // Makes the relation its transitive closure (Warshall's algorithm).
    fn close(&mut self)
        ensures { IsSquareOf self.old.count (Reaches (Joins self.old)) self.new }
    {
        for middle in 0..self.count() {
            self.join_through(middle);
        }
    }

    // Relates whatever is related to the middle to all that the middle is related to.
    fn join_through(&mut self, middle: usize)
        requires { middle < self.old.count }
        ensures { SetsBits self.old self.new (λ w v. Joins self.old w middle × Joins self.old middle v) }
    {
        for from in 0..self.count() {
            if self.has(from, middle) {
                self.add_row(from, middle);
            }
        }
    }

    // Relates the first to all that the other is related to.
    fn add_row(&mut self, from: usize, other: usize)
        requires from { from < self.old.count }
        requires other { other < self.old.count }
        ensures { SetsBits self.old self.new (λ w v. (w ≡ from) × Joins self.old other v) }
    {
        for to in 0..self.count() {
            if self.has(other, to) {
                self.add(from, to);
            }
        }
    }
}
