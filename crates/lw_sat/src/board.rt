ghost use Rattle.std.specs.Prelude.{◌≡◌, ◌+◌, ◌*◌, ◌<◌, ◌≤◌, [], ◌∷◌, length, OnOk, IfOk};
ghost use Rattle.std.specs.List.{list_any};
ghost use Rattle.lw_rows.specs.RowStack.{IsRegion};
ghost use Rattle.lw_sat.specs.Sets.{adding, lower, nothing, sets, top, without, AreBelow};
ghost use Rattle.lw_sat.specs.Moves.{listed, needed, used_alone, used_branches};
ghost use Rattle.lw_sat.specs.Private.LastRow.{HasTop};

use crate::bits::{add, add_side, clear, pour, remove, remove_side};
use crate::frame::Side;
use lw_proof::Rule;
use lw_rows::Rows;
use std::alloc::{AllocError, Global};

/// The labels of a path and the items that the proofs of its closed branches use, as rows of bits. The last label is
/// the one under work, and those below it are those of the branch points. Once the label is closed, its row has the
/// items that its proof uses.
#[derive(Drop)]
pub struct Board {
    pub(crate) labels: Rows,
    pub(crate) used: Rows,
    // how many bits a row has
    pub(crate) bits: usize,
    // there is a label, and the rows of both stacks have so many bits
    ghost label: { HasTop labels },
    ghost kept: { IsRegion used },
    ghost long: { bits ≡ 64 * labels.width },
    ghost equal: { bits ≡ 64 * used.width },
}

impl Board {
    ghost use Rattle.lw_sat.specs.SeedPath.{spot_of, root, Becomes, GoesBack, IsForked, KeepsUsed, TakesKept};

    /// A board for so many items, with one label, which is empty.
    pub fn new(alloc: Global, items: usize) -> Result<Board, AllocError>
        requires { items < 64 * 64 }
        ensures spot { IfOk result (λ board. spot_of board ≡ root nothing) }
        ensures wide { IfOk result (λ board. items ≤ board.bits) }
        ensures few { IfOk result (λ board. board.bits ≤ items + 64) }
    {
        let width = items / 64 + 1;
        let mut labels = Rows::new(alloc, width);
        labels.reserve(1)?;
        labels.push_empty();
        Ok(Board {
            labels,
            used: Rows::new(alloc, width),
            bits: 64 * width,
        })
    }

    /// Whether the label has the item.
    pub fn has(&self, item: usize) -> bool
        ensures { result ≡ top self.now.labels item }
    {
        item < self.bits && crate::bits::has(&self.labels, item)
    }

    /// Whether the label has one of the components.
    pub fn has_any(&self, side: Side) -> bool
        requires { AreBelow self.now.bits (listed side) }
        ensures { result ≡ list_any (top self.now.labels) (listed side) }
    {
        crate::bits::has_any(&self.labels, side)
    }

    /// Puts the components into the label.
    pub fn add_side(&mut self, side: Side)
        requires { AreBelow self.old.bits (listed side) }
        ensures { Becomes self.old self.new (record (spot_of self.old) { set = adding (listed side) (top self.old.labels) }) }
    {
        add_side(&mut self.labels, side);
    }

    /// Takes the item out of the label.
    pub fn remove(&mut self, item: usize)
        requires { item < self.old.bits }
        ensures { Becomes self.old self.new (record (spot_of self.old) { set = without (item ∷ []) (top self.old.labels) }) }
    {
        remove(&mut self.labels, item);
    }

    /// Makes the label a branch point: a copy of it is the label.
    pub fn fork(&mut self) -> Result<(), AllocError>
        ensures { OnOk result (IsForked self.old self.new) }
    {
        self.labels.reserve(1)?;
        self.labels.push_copy();
        Ok(())
    }

    /// Goes back to the last branch point, which is the label again.
    pub fn go_back(&mut self)
        requires { 1 ≤ length (lower self.old.labels) }
        ensures { GoesBack self.old self.new }
    {
        self.labels.pop();
    }

    /// Keeps what is in the label as the used items of one more closed branch.
    pub fn keep(&mut self) -> Result<(), AllocError>
        ensures { OnOk result (KeepsUsed self.old self.new) }
    {
        self.used.reserve(1)?;
        self.used.push_empty();
        pour(&self.labels, &mut self.used, self.bits);
        Ok(())
    }

    /// Forgets the used items of the last closed branch.
    pub fn forget(&mut self)
        requires { 1 ≤ length (sets self.old.used) }
        ensures { TakesKept self.old self.new (λ U. top self.old.labels) }
    {
        self.used.pop();
    }

    /// Puts the used items of the last closed branch into the label, in place of what is there.
    pub fn restore(&mut self)
        requires { 1 ≤ length (sets self.old.used) }
        ensures { TakesKept self.old self.new (λ U. U) }
    {
        clear(&mut self.labels);
        pour(&self.used, &mut self.labels, self.bits);
        self.used.pop();
    }

    /// From what the proof above a rule with one premise uses, makes what the proof with the rule uses.
    pub fn use_alone(&mut self, rule: Rule, item: usize, side: Side)
        requires item { item < self.old.bits }
        requires inside { AreBelow self.old.bits (listed side) }
        ensures { Becomes self.old self.new (record (spot_of self.old) { set = used_alone rule item side (top self.old.labels) }) }
    {
        remove_side(&mut self.labels, side);
        self.need(rule, item);
    }

    /// The same of a rule with two premises, where the used items of the first are the last that were kept.
    pub fn use_branches(&mut self, rule: Rule, item: usize, first: Side, second: Side)
        requires kept { 1 ≤ length (sets self.old.used) }
        requires item { item < self.old.bits }
        requires first_inside { AreBelow self.old.bits (listed first) }
        requires second_inside { AreBelow self.old.bits (listed second) }
        ensures { TakesKept self.old self.new (λ U. used_branches rule item first second U (top self.old.labels)) }
    {
        remove_side(&mut self.used, first);
        remove_side(&mut self.labels, second);
        pour(&self.used, &mut self.labels, self.bits);
        self.used.pop();
        self.need(rule, item);
    }

    /// Puts in what the rule on the item wants.
    fn need(&mut self, rule: Rule, item: usize)
        requires { item < self.old.bits }
        ensures { Becomes self.old self.new (record (spot_of self.old) { set = adding (needed rule item) (top self.old.labels) }) }
    {
        match rule {
            Rule::Close
            | Rule::Absurd
            | Rule::One
            | Rule::Two
            | Rule::Refl
            | Rule::Step
            | Rule::Serial => {
                add(&mut self.labels, item);
            }
            Rule::Cut => {}
        }
    }

    /// Puts the two items, or the one, in place of what is in the label.
    pub fn use_leaf(&mut self, side: Side)
        requires { AreBelow self.old.bits (listed side) }
        ensures { Becomes self.old self.new (record (spot_of self.old) { set = adding (listed side) nothing }) }
    {
        clear(&mut self.labels);
        add_side(&mut self.labels, side);
    }
}
