ghost use Rattle.std.specs.Prelude.{◌≡◌, ◌<◌, [], All, length, IfOk};
ghost use Rattle.lw_sets.specs.IdSets.{AreLive};
ghost use Rattle.lw_share.specs.Pooled.{IsTableLive};
ghost use Rattle.lw_share.specs.Private.SharedSteps.{Enters};

use crate::key::{SetKey, key_of};
use crate::table::Table;
use indexmap::IndexSet;
use lw_pool::{Pool, SignedId};
use lw_proof::{Rule, SignedIds};
use std::alloc::{AllocError, Global};
use std::marker::Model;

/// A table in the making, seen as the list of its lines, with the key of each line's set in the order of the lines. Sets
/// are looked up by their keys, so that a further line costs the sorting of its set and one look-up.
#[derive(Drop)]
pub(crate) struct Sharing {
    table: Table,
    keys: IndexSet<SetKey>,
}

impl Model for Sharing {
    ghost use Rattle.std.specs.Prelude.{List};
    ghost use Rattle.lw_pool.specs.declared.id.SignedId.{SignedId};
    ghost use Rattle.lw_share.specs.Lines as spec;
    ghost use Rattle.lw_share.specs.Private.SetKeys.{AreKeysOf};

    ghost Value = { List (spec.Line SignedId) };

    ghost view = { λ sharing. sharing.table };

    ghost invariant = { λ sharing. AreKeysOf sharing.table sharing.keys.keys };
}

impl Sharing {
    /// A table without lines, which has taken no memory yet.
    pub(crate) fn new(alloc: Global) -> Sharing
        ensures { result ≡ [] }
    {
        Sharing {
            table: Table::new(alloc),
            keys: IndexSet::new(alloc),
        }
    }

    /// The number of the line with the set of the items: one that is there, or else a new one behind the others, with this
    /// rule and what it cites. It fails for want of memory alone.
    // out of line, so that the frames of the walk over a proof stay small
    #[inline(never)]
    pub(crate) fn enter(
        &mut self,
        alloc: Global,
        pool: &Pool,
        items: &SignedIds,
        rule: Rule,
        principal: SignedId,
        cites: &[usize],
    ) -> Result<usize, AllocError>
        requires table { IsTableLive pool.now self.old }
        requires items { AreLive pool.now items.now }
        requires cites { All (λ c. c < length self.old) cites.now }
        ensures entered { IfOk result (Enters pool.now self.old
            (record { members = items.now; rule = rule; principal = principal; cites = cites.now }) self.new) }
    {
        let key = key_of(alloc, items)?;
        if let Some(line) = self.keys.get_index_of(&key) {
            return Ok(line);
        }
        // Other keys are those of other sets, since ids of one pool are equal where their formulas are.
        prove!(0 <= pool.count());
        self.keys.reserve(1)?;
        let line = self
            .table
            .add(alloc, items.as_slice(), rule, principal, cites)?;
        self.keys.insert(key)?;
        Ok(line)
    }

    /// The table as it stands.
    pub(crate) fn finish(self) -> Table
        ensures { result ≡ self }
    {
        self.table
    }
}
