//! Cores: modules with resolved names.
use hm_syntax::{Decl, Row};
use hm_types::{Entity, Interface, Text};
use std::marker::Model;
use std::sync::Arc;

/// An exported entity, with its exported name.
#[derive(Drop)]
pub struct Exported {
    pub name: Text,
    pub entity: Entity,
}

// Why: docs/DECISIONS.md, "Cores".
/// A module with resolved names. In its trees, a qualified name is an entity: its module and its name there. A bare name is a local variable, a
/// type variable or a special constructor. No type has a synonym.
pub struct Core {
    pub name: Text,
    pub decls: Row<Decl>,
    /// The interfaces for which it was resolved: Prelude's, then those of its imports, in order.
    pub interfaces: Row<Arc<Interface>>,
    pub exported_types: Row<Exported>,
    pub exported_constructors: Row<Exported>,
    pub exported_values: Row<Exported>,
}

impl Drop for Core {
    fn drop(self) {
        let Core {
            name: _name,
            decls: _decls,
            interfaces: _interfaces,
            exported_types: _exported_types,
            exported_constructors: _exported_constructors,
            exported_values: _exported_values,
        } = self;
    }
}

impl Model for Core {
    ghost use Rattle.std.specs.Prelude.{map};
    ghost use Rattle.std.specs.Arc.{arc_value};
    ghost use Rattle.hm_names.specs.ModuleCores.{ModuleCore, coded_core};

    ghost Value = { ModuleCore };

    ghost coded = { coded_core };

    ghost view = { λ c. record { name = c.name; decls = c.decls; interfaces = map arc_value c.interfaces; exported_types = c.exported_types; exported_constructors = c.exported_constructors; exported_values = c.exported_values } };
}
