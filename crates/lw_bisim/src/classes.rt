ghost use Rattle.std.specs.Prelude.{IfOk};
ghost use Rattle.lw_bisim.specs.Private.Classes.{AreClassesBy};

use indexmap::IndexSet;
use std::alloc::{AllocError, Global};
use std::hash::Hash;

/// Classes of worlds: for each world the number of its class, and how many classes there are.
#[derive(Drop)]
pub(crate) struct Classes {
    pub(crate) places: Vec<usize>,
    pub(crate) count: usize,
}

/// Puts those with equal keys into one class, in the order of the first of each class. It fails for want of memory alone.
/// The work is that of a look-up for each key.
pub(crate) fn classes_by<K: Eq + Hash + Drop>(
    alloc: Global,
    keys: Vec<K>,
) -> Result<Classes, AllocError>
    ensures { IfOk result (λ classes. AreClassesBy K.eq keys.items classes.places.items classes.count) }
{
    let mut known = IndexSet::new(alloc);
    let mut places = Vec::with_capacity(alloc, keys.len())?;
    for key in keys {
        let (place, _) = known.insert_full(key)?;
        places.push(place)?;
    }
    let count = known.len();
    Ok(Classes { places, count })
}
