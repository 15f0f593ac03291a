//! Keys of tables.

ghost use Rattle.std.specs.Prelude.{◌≡◌};
ghost use Rattle.hm_scope_tables.specs.KnownTables.{entity_at};
ghost use Rattle.hm_scope_tables.specs.Hashed.{same_writes, writes_of};

use crate::bindings::EntityRef;
use hm_names::Namespace;
use std::hash::{Hash, Hasher};

// Why: docs/DECISIONS.md, "Hashes".
/// A name, bare or qualified, in a namespace.
#[derive(Clone, Copy, PartialEq, Eq)]
pub struct Key<'a> {
    pub space: Namespace,
    pub qualifier: Option<&'a str>,
    pub text: &'a str,
}

/// Writes only the texts to the hasher, because few names are in several namespaces. A derived implementation would also write numbers for
/// the namespace and the qualifier, and a byte after each text.
impl<'a> Hash for Key<'a> {
    ghost hash_input = { writes_of };

    ghost respects_eq = { same_writes };

    fn hash<H: Hasher>(&self, state: &mut H) {
        if let Some(qualifier) = self.qualifier {
            state.write(qualifier.as_bytes());
        }
        state.write(self.text.as_bytes());
    }
}

/// An entity as a key: the module that defines it, and its name there.
#[derive(Clone, Copy, Hash, PartialEq, Eq)]
pub struct EntityKey<'a> {
    pub module: &'a str,
    pub name: &'a str,
}

impl<'a> EntityKey<'a> {
    /// Returns the key of an entity.
    pub fn of(entity: &EntityRef<'a>) -> EntityKey<'a>
        ensures { entity_at result ≡ entity.now }
    {
        EntityKey {
            module: entity.module(),
            name: entity.name(),
        }
    }
}
