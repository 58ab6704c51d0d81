ghost use Rattle.std.specs.Prelude.{◌≡◌};
ghost use Rattle.lw_closure.specs.Table.{item_count};
ghost use Rattle.lw_search.specs.Private.SearchTableau.{IsTableau};

use crate::rule::StepRule;
use lw_closure::Closure;
use std::marker::Model;

/// A closure and the rule by which its labels are stepped from: what each part of a search works by.
#[derive(Drop)]
pub(crate) struct Tableau<'a, R: StepRule> {
    pub(crate) closure: &'a Closure,
    pub(crate) rule: &'a R,
}

impl<'a, R: StepRule> Model for Tableau<'a, R> {
    ghost use Rattle.lw_closure.specs.Table.{Table};
    ghost use Rattle.lw_search.specs.Private.SearchTableau.{IsTableau};

    ghost Value = { Table };

    ghost view = { λ a. a.closure.now };

    ghost invariant = { λ a. IsTableau R.logic a.closure.now };
}

impl<R: StepRule> Tableau<'_, R> {
    /// How many items there are.
    pub fn item_count(&self) -> usize
        ensures count { result ≡ item_count self.now }
        ensures tableau { IsTableau R.logic self.now }
    {
        2 * self.closure.count()
    }
}
