ghost use Rattle.std.specs.Prelude.{◌≡◌, ◌↔◌, [], length, take, IsTrue, Contains, OnOk, OnErr};
ghost use Rattle.lw_formula.specs.FiniteModel.{AreDistinct};
ghost use Rattle.lw_proof.specs.SignedIds.{Adds};

use indexmap::IndexSet;
use lw_pool::SignedId;
use std::alloc::{AllocError, Global};
use std::marker::Model;

/// A set of signed ids in the order in which they came, seen as a list in which none stands twice. Asking for one and
/// adding one take the same time however many there are.
#[derive(Drop)]
pub struct SignedIds {
    ids: IndexSet<SignedId>,
}

impl Model for SignedIds {
    ghost use Rattle.std.specs.Prelude.{List};
    ghost use Rattle.lw_pool.specs.declared.id.SignedId.{SignedId};
    ghost use Rattle.lw_proof.specs.Private.TreeCode.{coded_id};
    ghost use base.Stored.{coded_list};

    ghost Value = { List SignedId };

    ghost coded = { coded_list coded_id };

    ghost view = { λ set. set.ids.keys };
}

impl SignedIds {
    /// An empty set, which has taken no memory yet.
    pub fn new(alloc: Global) -> SignedIds
        ensures { result ≡ [] }
    {
        SignedIds {
            ids: IndexSet::new(alloc),
        }
    }

    /// Whether the item is in the set.
    pub fn has(&self, item: SignedId) -> bool
        ensures { IsTrue result ↔ Contains self.now item }
    {
        self.ids.contains(&item)
    }

    /// Puts the item at the end where the set doesn't have it. It fails for want of memory alone, and then the set is as
    /// before.
    pub fn add(&mut self, item: SignedId) -> Result<(), AllocError>
        ensures added { OnOk result (Adds self.old self.new item) }
        ensures failed { OnErr result (self.new ≡ self.old) }
    {
        self.ids.insert(item)?;
        Ok(())
    }

    /// How many items there are.
    pub fn count(&self) -> usize
        ensures count { result ≡ length self.now }
        ensures distinct { AreDistinct self.now }
    {
        self.ids.len()
    }

    /// The items, in the order in which they came.
    pub fn as_slice(&self) -> &[SignedId]
        ensures items { result.now ≡ self.now }
        ensures distinct { AreDistinct self.now }
    {
        self.ids.as_slice()
    }

    /// Keeps the first so many items, or all where there are fewer.
    pub fn cut(&mut self, count: usize)
        ensures { self.new ≡ take count self.old }
    {
        self.ids.truncate(count);
    }

    /// The memory that the set is kept in.
    pub fn allocator(&self) -> Global {
        *self.ids.allocator()
    }
}
