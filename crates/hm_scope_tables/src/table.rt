//! The table of a scope: the meaning of each name.

ghost use Rattle.std.specs.Prelude.{◌≡◌, ◌↔◌, ◌++◌, [], ◌∷◌, List, IfOk, OnOk, IsTrue, option_map};
ghost use Rattle.hm_types.specs.Interfaces.{Exports as Interface};
ghost use Rattle.hm_syntax.specs.declared.ast.Module.{Module};
ghost use Rattle.hm_names.specs.Bindings.{Pair, IsScopeOf, IsSeveral, meaning_in};
ghost use Rattle.hm_scope_tables.specs.Meanings.{IsMeaning, meaning_is};
ghost use Rattle.hm_scope_tables.specs.Tables.{IsNamed, Tells, IsTable};
ghost use Rattle.hm_scope_tables.specs.declared.keys.Key.{Key};

use crate::bindings::{Binding, EntityRef};
use crate::keys::Key;
use hm_names::Namespace;
use hm_syntax::Name;
use indexmap::IndexMap;
use std::alloc::{AllocError, Global};
use std::marker::Model;

/// The meaning of a name in a scope (Report, section 5.5.2).
#[derive(Drop)]
pub enum Meaning<'a> {
    /// No entity.
    Unbound,
    /// Two entities or more.
    Ambiguous,
    Entity(EntityRef<'a>),
}

/// The meaning of a name in the table: one entity, or several.
#[derive(Drop)]
pub enum Slot<'a> {
    One(EntityRef<'a>),
    Several,
}

/// The scope of a module: its pairs of a name and an entity, and a table with the meaning of each name.
pub struct Scope<'a> {
    pairs: Vec<Binding<'a>>,
    table: IndexMap<Key<'a>, Slot<'a>>,
}

impl Drop for Scope<'_> {
    fn drop(self) {
        let Scope {
            pairs: _pairs,
            table: _table,
        } = self;
    }
}

impl<'a> Model for Scope<'a> {
    ghost use Rattle.std.specs.Prelude.{List};
    ghost use Rattle.hm_names.specs.Bindings.{Pair};
    ghost use Rattle.hm_scope_tables.specs.Tables.{IsTable};

    ghost Value = { List Pair };

    ghost view = { λ s. s.pairs.items };

    ghost invariant = { λ s. IsTable s.pairs.items s.table };
}

impl<'a> Scope<'a> {
    /// Returns the scope with these pairs.
    pub fn of(alloc: Global, pairs: Vec<Binding<'a>>) -> Result<Scope<'a>, AllocError>
        ensures { IfOk result (λ scope. scope ≡ pairs.entry.items) }
    {
        let mut table = IndexMap::with_capacity(alloc, pairs.len())?;
        for binding in &pairs {
            note(&mut table, binding)?;
        }
        Ok(Scope { pairs, table })
    }

    /// Returns the pairs.
    pub fn pairs(&self) -> &[Binding<'a>]
        ensures { result.now ≡ self.now }
    {
        &self.pairs
    }

    /// Returns the meaning of a name that isn't bound locally.
    pub fn meaning(&self, space: Namespace, name: &Name) -> Meaning<'a>
        ensures means { (m : Module) (fs : List Interface) → IsScopeOf m fs self.now → IsMeaning m fs space name.now result }
        ensures meaning { meaning_is result (meaning_in self.now space name.now) }
    {
        let key = Key {
            space,
            qualifier: qualifier_of(name),
            text: name.as_str(),
        };
        match self.table.get(&key) {
            None => Meaning::Unbound,
            Some(slot) => match slot {
                Slot::One(entity) => Meaning::Entity(entity.copy()),
                Slot::Several => Meaning::Ambiguous,
            },
        }
    }
}

/// Returns the qualifier of a name, if it has one.
fn qualifier_of(name: &Name) -> Option<&str>
    ensures { option_map (λ q. q.now) result ≡ name.now.qualifier }
{
    match &name.qualifier {
        None => None,
        Some(qualifier) => Some(qualifier.as_str()),
    }
}

/// Returns the meaning of a name after one more pair binds it to this entity.
fn with_entity<'a>(slot: &Slot<'a>, entity: &EntityRef<'a>) -> Slot<'a>
    ensures { (pairs : List Pair) (p : Pair) (k : Key) → IsNamed k p → p.entity ≡ entity.now → Tells pairs k slot.now → Tells (pairs ++ p ∷ []) k result }
{
    match slot {
        Slot::Several => Slot::Several,
        Slot::One(known) => {
            if !entity.is_same(known) {
                return Slot::Several;
            }
            Slot::One(known.copy())
        }
    }
}

/// Returns whether the name of a pair means several entities.
pub fn is_several<'a>(table: &IndexMap<Key<'a>, Slot<'a>>, pair: &Binding<'a>) -> bool
    ensures { (pairs : List Pair) → IsTable pairs table.now → (IsTrue result ↔ IsSeveral pairs pair.now) }
{
    let key = Key {
        space: pair.space(),
        qualifier: pair.qualifier(),
        text: pair.text(),
    };
    match table.get(&key) {
        None => false,
        Some(slot) => match slot {
            Slot::One(_) => false,
            Slot::Several => true,
        },
    }
}

// Why: docs/DECISIONS.md, "One probe".
/// Adds a pair to the table. A name that the table lacks takes one probe: most names are new.
pub fn note<'a>(
    table: &mut IndexMap<Key<'a>, Slot<'a>>,
    binding: &Binding<'a>,
) -> Result<(), AllocError>
    ensures { OnOk result ((pairs : List Pair) → IsTable pairs table.old → IsTable (pairs ++ binding.now ∷ []) table.new) }
{
    let key = Key {
        space: binding.space(),
        qualifier: binding.qualifier(),
        text: binding.text(),
    };
    let first = Slot::One(binding.entity().copy());
    match table.insert(key, first)? {
        None => Ok(()),
        Some(known) => {
            let slot = with_entity(&known, binding.entity());
            table.insert(key, slot)?;
            Ok(())
        }
    }
}
