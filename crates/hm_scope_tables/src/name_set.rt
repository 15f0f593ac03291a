//! Sets of names.

ghost use Rattle.std.specs.Prelude.{◌≡◌, ◌⊎◌, ◌↔◌, [], OnOk, IsTrue, Contains, option_map};
ghost use Rattle.hm_scope_tables.specs.NameSets.{FullName, full_names};

use crate::keys::Key;
use hm_names::Namespace;
use indexmap::IndexSet;
use std::alloc::{AllocError, Global};
use std::marker::Model;

/// A set of names, bare or qualified, each in a namespace. An entity has its module as the qualifier.
pub struct NameSet<'a> {
    keys: IndexSet<Key<'a>>,
}

impl Drop for NameSet<'_> {
    fn drop(self) {
        let NameSet { keys: _keys } = self;
    }
}

impl<'a> Model for NameSet<'a> {
    ghost use Rattle.std.specs.Prelude.{List};
    ghost use Rattle.hm_scope_tables.specs.NameSets.{FullName, full_names};

    ghost Value = { List FullName };

    ghost view = { λ s. full_names s.keys.keys };
}

impl<'a> NameSet<'a> {
    /// Returns an empty set.
    pub fn new(alloc: Global) -> NameSet<'a>
        ensures { result ≡ [] }
    {
        NameSet {
            keys: IndexSet::new(alloc),
        }
    }

    /// Returns the names, in the order of insertion.
    pub fn keys(&self) -> &[Key<'a>]
        ensures { full_names result.now ≡ self.now }
    {
        self.keys.as_slice()
    }

    /// Returns whether the set has the name.
    pub fn contains(&self, space: Namespace, qualifier: Option<&str>, text: &str) -> bool
        ensures { IsTrue result ↔ Contains self.now (record { space = space; qualifier = option_map (λ q. q.now) qualifier.entry; text = text.now }) }
    {
        self.keys.contains(&Key {
            space,
            qualifier,
            text,
        })
    }

    /// Adds the name.
    pub fn insert(
        &mut self,
        space: Namespace,
        qualifier: Option<&'a str>,
        text: &'a str,
    ) -> Result<(), AllocError>
        ensures { OnOk result ((n : FullName) → Contains self.new n
            ↔ (Contains self.old n ⊎ (n ≡ record { space = space; qualifier = option_map (λ q. q.now) qualifier.entry; text = text.now }))) }
    {
        self.keys.insert(Key {
            space,
            qualifier,
            text,
        })?;
        Ok(())
    }
}
