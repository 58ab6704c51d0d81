ghost use Rattle.std.specs.Prelude.{◌≡◌, ℕ, ◌<◌, List, ◌∷◌, option_to_list};
ghost use Rattle.lw_formula.specs.Formula.{Formula};
ghost use Rattle.lw_formula.specs.declared.logic.Logic.{Logic};
ghost use Rattle.lw_proof.specs.Derivation.{added, has_refl, has_serial};
ghost use Rattle.lw_closure.specs.Items.{items};
ghost use Rattle.lw_closure.specs.Table.{Table, item_count, IsTable};
ghost use Rattle.lw_counter.specs.FragmentPaths as paths;
ghost use Rattle.lw_search.specs.Ranked.{Ranking};
ghost use Rattle.lw_search.specs.Step as step;

use lw_closure::Closure;

/// How a logic steps from a label to the label of a new world, and why its steps come to an end.
pub trait StepRule {
    // the logic
    ghost logic: { Logic };

    // whether so many Steps are enough above a label
    ghost suffice: { Ranking };

    // how many are enough above the goal
    ghost bound: { List Formula → Table → ℕ };

    /// Whether worlds see themselves: then a π whose component is in the label asks for no step.
    fn is_reflexive(&self) -> bool
        ensures { result ≡ has_refl logic };

    /// Whether each world sees one: then a label with a ν and no π asks for a step.
    fn is_serial(&self) -> bool
        ensures { result ≡ has_serial logic };

    /// Whether a π may be served by a link to a world that is there already.
    fn has_links(&self) -> bool
        ensures { result ≡ paths.has_links logic };

    /// Whether the ν of the label stand in the seed.
    fn keeps_nu(&self) -> bool
        ensures { result ≡ step.keeps_nu logic };

    /// Whether the components of the label's ν stand in the seed.
    fn keeps_inside(&self) -> bool
        ensures { result ≡ step.keeps_inside logic };

    /// The item that stands in the seed beside the component of the π or ν `item`, if there is one.
    fn beside(&self, closure: &Closure, item: usize) -> Option<usize>
        requires table { IsTable closure.now }
        requires logic { closure.now.logic ≡ logic }
        requires item { item < item_count closure.now }
        ensures { (c : ℕ) → added (items closure.now) logic item c ≡ c ∷ option_to_list result };
}
