ghost use Rattle.std.specs.Prelude.{◌≡◌, ◌<◌, IfOk, length};
ghost use Rattle.lw_bisim.specs.Quotient.{IsQuotient, place_of};

use crate::joined::joined;
use crate::rounds::bisimilar_classes;
use lw_model::Model;
use std::alloc::{AllocError, Global};

/// A model with one world for each class of bisimilar worlds of another, and for each world of that one its class.
#[derive(Debug, Drop)]
pub struct Quotient {
    model: Model,
    places: Vec<usize>,
}

impl std::marker::Model for Quotient {
    ghost use Rattle.lw_bisim.specs.Quotient as spec;

    ghost Value = { spec.Quotient };

    ghost view = { λ q. record { model = q.model; places = q.places.items } };
}

impl Quotient {
    /// The model whose worlds are the classes.
    pub fn model(&self) -> &Model
        ensures { result.now ≡ self.now.model }
    {
        &self.model
    }

    /// The class of a world of the other model: the world here at which the same formulas are true.
    pub fn place(&self, world: usize) -> usize
        requires { world < length self.now.places }
        ensures { result ≡ place_of self.now.places world }
    {
        self.places[world]
    }
}

/// The quotient of the model by its largest bisimulation: bisimilar worlds, which are those at which the same formulas are
/// true, are put into one class, and the classes are numbered in the order of the least world in each. No smaller model has
/// for each world of this one a world at which the same formulas are true (Blackburn, de Rijke and Venema, Modal Logic,
/// section 2.2). It fails for want of memory alone. The classes of worlds with the same variables are split by the classes
/// that their worlds see until none splits, the naive method of Kanellakis and Smolka (CCS expressions, finite state
/// processes, and three problems of equivalence, 1990). There are at most as many rounds as worlds; the work of a round is
/// that of sorting, for each world, the classes that it sees, and its memory that of a number for each pair.
pub fn smallest(alloc: Global, model: &Model) -> Result<Quotient, AllocError>
    ensures { IfOk result (IsQuotient model.now) }
{
    let classes = bisimilar_classes(alloc, model)?;
    let model = joined(alloc, model, &classes)?;
    Ok(Quotient {
        model,
        places: classes.places,
    })
}
