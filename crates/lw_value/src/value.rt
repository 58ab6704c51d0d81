use lw_cert::Certificate;
use lw_formula::{Chars, Logic};
use lw_pool::FormId;
use std::marker::Model;
use std::rc::Rc;

mod list;

pub use list::weight;

/// A value of a script.
#[cycle(value)]
#[derive(Drop)]
pub enum Value {
    /// The formula at an id of a pool.
    Formula(FormId),
    Truth(bool),
    Number(u64),
    Text(Rc<Chars>),
    Items(Items),
    Logic(Logic),
    Certificate(Rc<Certificate>),
    Nothing,
}

/// The items of a list, seen as the list of their values. Lists that were cloned from one another share their items.
#[cycle(value)]
pub struct Items {
    list: Option<Rc<Shared>>,
}

/// Items with the sum of their weights, or the greatest `usize` where it is greater.
#[cycle(value)]
#[derive(Drop)]
struct Shared {
    values: Vec<Value>,
    weight: usize,
}

impl Model for Items {
    ghost use Rattle.std.specs.Prelude.{List};
    ghost use base.Stored.{coded_list};
    ghost use Rattle.lw_pool.specs.declared.id.FormId.{FormId};
    ghost use Rattle.lw_value.specs.Values.{Val};
    ghost use Rattle.lw_value.specs.Private.ValueCode.{coded_val};

    ghost Value = { List (Val FormId) };

    ghost coded = { coded_list coded_val };

    ghost use Rattle.std.specs.Prelude.{◌≡◌, ◌+◌, [], None, Some, map, min, ⊤};
    ghost use Rattle.std.below.core.specs.declared.int.usize.TheConstants.{MAX};
    ghost use Rattle.lw_value.specs.Views.{value_of};
    ghost use Rattle.lw_value.specs.Private.KeptWeight.{load};

    ghost view = { λ a. elim a.list [ None ↦ [] | Some rc ↦ map value_of rc.value.values.items ] };

    ghost invariant = { λ a. elim a.list [ None ↦ ⊤ | Some rc ↦ rc.value.weight ≡ min (load (map value_of rc.value.values.items)) MAX ] };

    ghost size = { load };

    ghost use Rattle.lw_value.specs.Private.LighterItems.{deep_le-load};

    ghost size_decreases = { λ a h. deep_le-load a };
}

/// Items are let go of one by one, whatever stands in them, so that a deep list takes no more of the machine's stack than
/// a flat one while there is memory for those that wait.
impl Drop for Items {
    #[cycle(release)]
    fn drop(self) {
        let Some(mut left) = self.into_values() else {
            return;
        };
        while let Some(value) = left.pop() {
            list::take_apart(&mut left, value);
        }
    }
}
