//! A table of schemes by name.

ghost use Rattle.std.specs.Prelude.{◌≡◌, ℕ, List, None, OnErr, OnOk, Some, if◌then◌else◌, option_copied};
ghost use Rattle.std.specs.Str.{bytes_eq};
ghost use Rattle.hm_names.specs.SchemeTables.{scheme_of};

use hm_types::Scheme;
use indexmap::IndexMap;
use std::alloc::{AllocError, Global};
use std::marker::Model;

/// Schemes of variables by name. A name has the scheme that was put last.
pub struct Schemes {
    alloc: Global,
    table: IndexMap<String, Scheme>,
}

impl Drop for Schemes {
    fn drop(self) {
        let Schemes {
            alloc: _,
            table: _table,
        } = self;
    }
}

impl Model for Schemes {
    ghost use Rattle.hm_names.specs.SchemeTables.{Assignment, coded_assignment, assigned};

    ghost Value = { Assignment };

    ghost coded = { coded_assignment };

    ghost view = { λ s. assigned s.table.entries };
}

impl Schemes {
    /// Returns an empty table.
    pub fn new(alloc: Global) -> Schemes
        ensures { (x : List ℕ) → scheme_of result x ≡ None }
    {
        Schemes {
            alloc,
            table: IndexMap::new(alloc),
        }
    }

    /// Sets the scheme of a name, and replaces an earlier one.
    pub fn put(&mut self, name: &str, scheme: Scheme) -> Result<(), AllocError>
        ensures given { OnOk result ((x : List ℕ) → scheme_of self.new x ≡ (if bytes_eq name.now x then Some scheme else scheme_of self.old x)) }
        ensures unchanged { OnErr result (self.new ≡ self.old) }
    {
        let key = String::from_str(self.alloc, name)?;
        self.table.insert(key, scheme)?;
        Ok(())
    }

    /// Returns the scheme of a name.
    pub fn get(&self, name: &str) -> Option<&Scheme>
        ensures { option_copied result ≡ scheme_of self.now name.now }
    {
        self.table.get(name)
    }
}
