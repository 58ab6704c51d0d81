// Which items of a label ask for a step.
ghost use Rattle.std.specs.Prelude.{◌≡◌, ◌<◌, ◌↔◌, ◌||◌, not, IsTrue, MatchOption};
ghost use Rattle.lw_proof.specs.Derivation.{kept};
ghost use Rattle.lw_proof.specs.System.{IsWithin};
ghost use Rattle.lw_closure.specs.Table.{item_count};
ghost use Rattle.lw_closure.specs.Items as of_items;
ghost use Rattle.lw_sat.specs.Sets.{among, top, IsOfItems};
ghost use Rattle.lw_search.specs.Private.StepAskers.{goes_before, others_ask};
ghost use Rattle.lw_search.specs.Private.SearchTurns.{IsAsked, IsFar, ServesAt, ServesItself};
ghost use Rattle.lw_search.specs.Private.StepUse.{kept_of};

use crate::rule::StepRule;
use crate::tableau::Tableau;
use lw_counter::Fragment;
use lw_formula::Parts;
use lw_sat::Board;

// Whether the items have this one, if it's wanted.
fn has_if(items: &[usize], wanted: bool, item: usize) -> bool
    ensures { result ≡ (not wanted || among items.now item) }
{
    !wanted || items.contains(&item)
}

impl<R: StepRule> Tableau<'_, R> {
    // Whether the item `other` asks in place of the ν `item`.
    fn goes_before(&self, item: usize, other: usize) -> bool
        requires { other < item_count self.now }
        ensures { result ≡ goes_before self.now item other }
    {
        match self.closure.parts(other) {
            Parts::Pi(_) => true,
            Parts::Nu(_) => other < item,
            Parts::Nothing | Parts::One(..) | Parts::Two(..) => false,
        }
    }

    // Whether the label has an item that asks in place of the ν.
    fn others_ask(&self, label: &Board, item: usize) -> bool
        requires { IsOfItems self.now (top label.now.labels) }
        ensures { result ≡ others_ask self.now (top label.now.labels) item }
    {
        for other in 0..self.item_count() {
            if label.has(other) && self.goes_before(item, other) {
                return true;
            }
        }
        false
    }

    /// The component of the item, where the label asks for a step on it: it is a π that the label's world doesn't serve
    /// itself, or in the serial logic a ν where nothing else asks.
    pub fn asked(&self, label: &Board, item: usize) -> Option<usize>
        requires item { item < item_count self.now }
        requires items { IsOfItems self.now (top label.now.labels) }
        ensures { MatchOption result (ServesItself self.now (top label.now.labels) item) (IsAsked self.now (top label.now.labels) item) }
    {
        match self.closure.parts(item) {
            Parts::Pi(inner)
                if label.has(item) && !(self.rule.is_reflexive() && label.has(inner)) => {
                Some(inner)
            }
            Parts::Nu(inner)
                if self.rule.is_serial() && label.has(item) && !self.others_ask(label, item) => {
                Some(inner)
            }
            _ => None,
        }
    }

    // Whether the items have what a step keeps of this one.
    fn has_kept_of(&self, items: &[usize], item: usize) -> bool
        requires { item < item_count self.now }
        ensures { IsTrue result ↔ IsWithin (kept_of self.now item) (among items.now) }
    {
        match self.closure.parts(item) {
            Parts::Nu(inner) => {
                has_if(items, self.rule.keeps_nu(), item)
                    && has_if(items, self.rule.keeps_inside(), inner)
            }
            _ => true,
        }
    }

    // Whether the items have all that a step keeps of the label.
    fn has_kept(&self, label: &Board, items: &[usize]) -> bool
        requires { IsOfItems self.now (top label.now.labels) }
        ensures { IsTrue result ↔ IsWithin (kept (of_items.items self.now) self.now.logic (top label.now.labels)) (among items.now) }
    {
        for item in 0..self.item_count() {
            if label.has(item) && !self.has_kept_of(items, item) {
                return false;
            }
        }
        true
    }

    /// A world to which a link serves an item of the label with the component `inner`, in the logics with links.
    pub fn target(&self, label: &Board, fragment: &Fragment, inner: usize) -> Option<usize>
        requires { IsOfItems self.now (top label.now.labels) }
        ensures { MatchOption result (IsFar self.now (top label.now.labels) fragment.now inner)
            (ServesAt self.now (top label.now.labels) fragment.now inner) }
    {
        if !self.rule.has_links() {
            return None;
        }
        for world in 0..fragment.count() {
            let items = fragment.label(world);
            if items.contains(&inner) && self.has_kept(label, items) {
                return Some(world);
            }
        }
        None
    }
}
