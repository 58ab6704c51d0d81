ghost use Rattle.std.specs.Prelude.{◌≡◌, [], OnOk, OnErr};
ghost use Rattle.lw_value.specs.Assignments.{value_at, put, HaveOwnNames};
ghost use Rattle.lw_value.specs.Views.{value_of, value_under};

use crate::value::Value;
use indexmap::IndexMap;
use lw_formula::Chars;
use std::alloc::{AllocError, Global};
use std::marker::Model;

/// The variables of a script, seen as the list of their names and values in order of first assignment.
#[derive(Drop)]
pub struct Env {
    values: IndexMap<Chars, Value>,
}

impl Model for Env {
    ghost use Rattle.std.specs.Prelude.{ℕ, List};
    ghost use base.Stored.{coded_list, coded×};
    ghost use Rattle.std.specs.Coded.{coded_ℕ};
    ghost use Rattle.lw_pool.specs.declared.id.FormId.{FormId};
    ghost use Rattle.lw_value.specs.Values.{Val};
    ghost use Rattle.lw_value.specs.Private.ValueCode.{coded_val};

    ghost Value = { List (List ℕ × Val FormId) };

    ghost coded = { coded_list (coded× (coded_list coded_ℕ) coded_val) };

    ghost use Rattle.std.specs.Prelude.{map};
    ghost use Rattle.lw_value.specs.Views.{assigned};

    ghost view = { λ env. map assigned env.values.entries };

    ghost use Rattle.lw_value.specs.Assignments.{HaveOwnNames};

    ghost invariant = { λ env. HaveOwnNames (map assigned env.values.entries) };
}

impl Env {
    /// No variables. It takes no memory yet.
    pub fn new(alloc: Global) -> Env
        ensures { result ≡ [] }
    {
        Env {
            values: IndexMap::new(alloc),
        }
    }

    /// The value that the name was last given, if it was given one. No name stands twice among the variables.
    pub fn get(&self, name: &Chars) -> Option<&Value>
        ensures names { HaveOwnNames self.now }
        ensures value { value_under result ≡ value_at self.now name.now }
    {
        self.values.get(name)
    }

    /// Gives the name the value. A name that has one keeps its place, a new one comes last. It fails for want of memory
    /// alone, and then the variables are as before.
    pub fn set(&mut self, name: &Chars, value: Value) -> Result<(), AllocError>
        ensures set { OnOk result (self.new ≡ put self.old name.now (value_of value)) }
        ensures failed { OnErr result (self.new ≡ self.old) }
    {
        self.values.insert(name.try_clone()?, value)?;
        Ok(())
    }
}
