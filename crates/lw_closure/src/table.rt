ghost use Rattle.std.specs.Prelude.{◌≡◌, ◌*◌, ◌<◌, ◌≤◌, Contains, IfNone, IfSome, length};
ghost use Rattle.lw_closure.specs.Table.{entry_at, form_of, item_at, item_count, most_forms, IsTable};

use crate::entry::Entry;
use crate::numbering::{form_at, item_at, number};
use indexmap::IndexSet;
use lw_formula::{Logic, Parts};
use lw_pool::{FormId, SignedId};
use std::marker::Model;

/// Numbered signed formulas: those of a goal's subformulas and, in Grz, of the guards of its modal subformulas with
/// their subformulas. Formulas are numbered from 0, operands first, and item `2i` is `T`, item `2i + 1` is `F` of
/// formula `i`.
#[derive(Drop)]
pub struct Closure {
    logic: Logic,
    goal: FormId,
    forms: IndexSet<FormId>,
    entries: Vec<Entry>,
}

impl Model for Closure {
    ghost use Rattle.lw_closure.specs.Table.{Table, IsTable};

    ghost Value = { Table };

    ghost view = { λ c. record { logic = c.logic; goal = c.goal; forms = c.forms.keys; entries = c.entries.items } };

    ghost invariant = { λ c. IsTable (record { logic = c.logic; goal = c.goal; forms = c.forms.keys; entries = c.entries.items }) };
}

impl Closure {
    /// The closure of these parts.
    pub(crate) fn new(
        logic: Logic,
        goal: FormId,
        forms: IndexSet<FormId>,
        entries: Vec<Entry>,
    ) -> Closure
        requires { IsTable (record { logic = logic; goal = goal; forms = forms.keys; entries = entries.items }) }
        ensures { result ≡ record { logic = logic; goal = goal; forms = forms.keys; entries = entries.items } }
    {
        Closure {
            logic,
            goal,
            forms,
            entries,
        }
    }

    /// How many formulas there are. There are twice as many items.
    pub fn count(&self) -> usize
        ensures count { result ≡ length self.now.forms }
        ensures some { 1 ≤ result }
        ensures few { result ≤ most_forms }
        ensures table { IsTable self.now }
    {
        self.forms.len()
    }

    /// The formula that the closure was made for.
    pub fn goal(&self) -> FormId
        ensures { result ≡ self.now.goal }
    {
        self.goal
    }

    /// The logic that the closure was made for.
    pub fn logic(&self) -> Logic
        ensures { result ≡ self.now.logic }
    {
        self.logic
    }

    /// The formula that has this number.
    pub fn formula(&self, i: usize) -> FormId
        requires { i < length self.now.forms }
        ensures { result ≡ form_of self.now.forms i }
    {
        form_at(&self.forms, i)
    }

    /// The item that the signed formula is, if it is one.
    pub fn number(&self, item: SignedId) -> Option<usize>
        ensures there { IfSome result (λ i. (i < item_count self.now) × (item_at self.now i ≡ item)) }
        ensures absent { IfNone result (¬ Contains self.now.forms item.form) }
    {
        number(&self.forms, item)
    }

    /// The signed formula that the item is.
    pub fn signed(&self, item: usize) -> SignedId
        requires { item < item_count self.now }
        ensures { result ≡ item_at self.now item }
    {
        item_at(&self.forms, item)
    }

    /// The item's components.
    pub fn parts(&self, item: usize) -> Parts<usize>
        requires { item < item_count self.now }
        ensures { result ≡ (entry_at self.now item).parts }
    {
        self.entries[item].parts
    }

    /// Whether the item is `T false` or `F true`.
    pub fn absurd(&self, item: usize) -> bool
        requires { item < item_count self.now }
        ensures { result ≡ (entry_at self.now item).absurd }
    {
        self.entries[item].absurd
    }

    /// The item of the guard that a step on the item adds. It is there exactly where the logic is Grz and the item is a
    /// π of a modal subformula of the goal.
    pub fn guard(&self, item: usize) -> Option<usize>
        requires { item < item_count self.now }
        ensures { result ≡ (entry_at self.now item).guard }
    {
        self.entries[item].guard
    }
}
