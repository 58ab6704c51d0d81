ghost use Rattle.std.specs.Prelude.{◌≡◌, ◌<◌, Bool, false, List, [], length, IfOk, replicate, slice_set};
ghost use Rattle.std.specs.List.{slice_index_or};

use std::alloc::{AllocError, Global};
use std::marker::Model;

/// A truth value for each world.
#[derive(Drop)]
pub(crate) struct Row {
    bits: Vec<bool>,
}

impl Model for Row {
    ghost Value = { List Bool };

    ghost view = { λ row. row.bits.items };
}

impl Row {
    /// A row of no worlds, which takes no memory.
    pub(crate) fn empty(alloc: Global) -> Row
        ensures { result ≡ [] }
    {
        Row {
            bits: Vec::new(alloc),
        }
    }

    /// The row with this value at each of so many worlds.
    pub(crate) fn new(alloc: Global, worlds: usize, value: bool) -> Result<Row, AllocError>
        ensures { IfOk result (λ row. row ≡ replicate worlds value) }
    {
        Ok(Row {
            bits: vec![in alloc; value; worlds]?,
        })
    }

    /// The value at the world.
    pub(crate) fn at(&self, world: usize) -> bool
        requires { world < length self.now }
        ensures { result ≡ slice_index_or self.now world false }
    {
        self.bits[world]
    }

    /// Puts the value at the world.
    pub(crate) fn set(&mut self, world: usize, value: bool)
        requires { world < length self.old }
        ensures { self.new ≡ slice_set self.old world value }
    {
        self.bits[world] = value;
    }
}
