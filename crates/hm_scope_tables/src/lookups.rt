//! The entries of an interface by name.

ghost use Rattle.std.specs.Prelude.{◌≡◌, ℕ, List, map, Contains, MatchOption};
ghost use Rattle.hm_types.specs.declared.Entity.{Entity};
ghost use Rattle.hm_types.specs.Interfaces.{AreOrdered};

use hm_types::{ConstructorEntry, Entity, SynonymEntry, TypeEntry, ValueEntry};

/// An entry of an interface, which exports an entity under a name.
pub trait Named {
    ghost name_of: { Self → List ℕ };

    ghost entity_of: { Self → Entity };

    /// Returns the name.
    fn name(&self) -> &str
        ensures { result.now ≡ name_of self.now };

    /// Returns the entity.
    fn entity(&self) -> &Entity
        ensures { result.now ≡ entity_of self.now };
}

impl Named for TypeEntry {
    ghost name_of = { λ e. e.name };

    ghost entity_of = { λ e. e.entity };

    fn name(&self) -> &str {
        self.name.as_str()
    }

    fn entity(&self) -> &Entity {
        &self.entity
    }
}

impl Named for SynonymEntry {
    ghost name_of = { λ e. e.name };

    ghost entity_of = { λ e. e.entity };

    fn name(&self) -> &str {
        self.name.as_str()
    }

    fn entity(&self) -> &Entity {
        &self.entity
    }
}

impl Named for ConstructorEntry {
    ghost name_of = { λ e. e.name };

    ghost entity_of = { λ e. e.entity };

    fn name(&self) -> &str {
        self.name.as_str()
    }

    fn entity(&self) -> &Entity {
        &self.entity
    }
}

impl Named for ValueEntry {
    ghost name_of = { λ e. e.name };

    ghost entity_of = { λ e. e.entity };

    fn name(&self) -> &str {
        self.name.as_str()
    }

    fn entity(&self) -> &Entity {
        &self.entity
    }
}

/// Returns the entry with this name, if there is one. The entries must be in the order of their names.
pub fn entry_named<'a, E: Named>(entries: &'a [E], name: &str) -> Option<&'a E>
    requires { AreOrdered (map E.name_of entries.now) }
    ensures { MatchOption result ((r : E) → Contains entries.now r
        → ¬ (E.name_of r ≡ name.now)) (λ r. Contains entries.now r.now × (E.name_of r.now ≡ name.now)) }
{
    match entries.binary_search_by(|entry| entry.name().cmp(&name)) {
        Ok(place) => Some(&entries[place]),
        Err(_) => None,
    }
}
