//! The pairs of a name and an entity of which a scope consists.

ghost use Rattle.std.specs.Prelude.{◌≡◌, ◌↔◌, IsTrue, option_map};

use hm_names::Namespace;
use hm_types::{Entity, Text};
use std::marker::Model;

/// A borrowed entity: the module that defines it, and its name there.
#[derive(Drop)]
pub struct EntityRef<'a> {
    module: &'a Text,
    name: &'a Text,
}

impl<'a> Model for EntityRef<'a> {
    ghost use Rattle.hm_types.specs.declared.Entity.{Entity};

    ghost Value = { Entity };

    ghost view = { λ e. record { «module» = e.«module».now; name = e.name.now } };
}

impl<'a> EntityRef<'a> {
    /// Returns the entity with this name in this module.
    pub fn new(module: &'a Text, name: &'a Text) -> EntityRef<'a>
        ensures { result ≡ record { «module» = «module».now; name = name.now } }
    {
        EntityRef { module, name }
    }

    /// Borrows an entity.
    pub fn of(entity: &'a Entity) -> EntityRef<'a>
        ensures { result ≡ entity.now }
    {
        EntityRef {
            module: &entity.module,
            name: &entity.name,
        }
    }

    /// Returns the name of the module that defines it.
    pub fn module(&self) -> &'a str
        ensures { result.now ≡ self.now.«module» }
    {
        self.module.as_str()
    }

    /// Returns the name of the module that defines it, as a `Text`.
    pub fn module_text(&self) -> &'a Text
        ensures { result.now ≡ self.now.«module» }
    {
        self.module
    }

    /// Returns its name in that module.
    pub fn name(&self) -> &'a str
        ensures { result.now ≡ self.now.name }
    {
        self.name.as_str()
    }

    /// Returns its name in that module, as a `Text`.
    pub fn name_text(&self) -> &'a Text
        ensures { result.now ≡ self.now.name }
    {
        self.name
    }

    /// Returns the same entity.
    pub fn copy(&self) -> EntityRef<'a>
        ensures { result ≡ self.now }
    {
        EntityRef {
            module: self.module,
            name: self.name,
        }
    }

    /// Returns whether both are the same entity.
    pub fn is_same(&self, other: &EntityRef<'_>) -> bool
        ensures { IsTrue result ↔ (self.now ≡ other.now) }
    {
        self.module.is_same(other.module) && self.name.is_same(other.name)
    }
}

/// A binding of a scope: an entity under a name, bare or qualified, in a namespace.
#[derive(Drop)]
pub struct Binding<'a> {
    space: Namespace,
    qualifier: Option<&'a str>,
    text: &'a str,
    entity: EntityRef<'a>,
}

impl<'a> Model for Binding<'a> {
    ghost use Rattle.std.specs.Prelude.{option_map};
    ghost use Rattle.hm_names.specs.Bindings.{Pair};

    ghost Value = { Pair };

    ghost view = { λ b. record { space = b.space; qualifier = option_map (λ q. q.now) b.qualifier; text = b.text.now; entity = b.entity } };
}

impl<'a> Binding<'a> {
    /// Returns the binding of an entity under a name.
    pub fn new(
        space: Namespace,
        qualifier: Option<&'a str>,
        text: &'a str,
        entity: EntityRef<'a>,
    ) -> Binding<'a>
        ensures { result ≡ record { space = space; qualifier = option_map (λ q. q.now) qualifier.entry; text = text.now; entity = entity.entry } }
    {
        Binding {
            space,
            qualifier,
            text,
            entity,
        }
    }

    /// Returns its namespace.
    pub fn space(&self) -> Namespace
        ensures { result ≡ self.now.space }
    {
        self.space
    }

    /// Returns its qualifier, if it has one.
    pub fn qualifier(&self) -> Option<&'a str>
        ensures { option_map (λ q. q.now) result ≡ self.now.qualifier }
    {
        self.qualifier
    }

    /// Returns its name without the qualifier.
    pub fn text(&self) -> &'a str
        ensures { result.now ≡ self.now.text }
    {
        self.text
    }

    /// Returns its entity.
    pub fn entity(&self) -> &EntityRef<'a>
        ensures { result.now ≡ self.now.entity }
    {
        &self.entity
    }
}
