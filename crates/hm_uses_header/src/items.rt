//! What the names in the list of an import mean: what the imported module exports (Report, section 5.3.1).
ghost use Rattle.std.specs.Prelude.{List, MatchOption, option_map};
ghost use Rattle.hm_types.specs.declared.Entity.{Entity};
ghost use Rattle.hm_types.specs.Interfaces.{Exports as Interface};
ghost use Rattle.hm_syntax.specs.declared.ast.Import.{Import};
ghost use Rattle.hm_names.specs.Entities.{Exports};
ghost use Rattle.hm_names.specs.declared.namespace.Namespace.TheVariants.{Types, Constructors, Values};
ghost use Rattle.hm_uses.specs.Uses.{OfItem, OfSubItem, Owns};
ghost use Rattle.hm_uses_declarations.specs.Senses.{sense_of};
ghost use Rattle.hm_uses_header.specs.Lookups.{IsInterfaceOf};

use hm_names::Namespace;
use hm_scope_tables::{EntityRef, entry_named};
use hm_syntax::Name;
use hm_types::Interface;
use hm_uses_declarations::Meaning;

/// Returns the type or the synonym that an interface exports under a name.
fn exported_type<'a>(interface: &'a Interface, text: &str) -> Option<EntityRef<'a>>
    ensures { MatchOption result ((e : Entity) → ¬ Exports interface.now text.now e Types) (λ e. Exports interface.now text.now e Types) }
{
    match entry_named(interface.types(), text) {
        Some(entry) => Some(EntityRef::of(&entry.entity)),
        None => match entry_named(interface.synonyms(), text) {
            Some(entry) => Some(EntityRef::of(&entry.entity)),
            None => None,
        },
    }
}

/// Returns the constructor that an interface exports under a name.
fn exported_constructor<'a>(interface: &'a Interface, text: &str) -> Option<EntityRef<'a>>
    ensures { MatchOption result ((e : Entity) → ¬ Exports interface.now text.now e Constructors) (λ e. Exports interface.now text.now e Constructors) }
{
    match entry_named(interface.constructors(), text) {
        Some(entry) => Some(EntityRef::of(&entry.entity)),
        None => None,
    }
}

/// Returns the variable that an interface exports under a name.
fn exported_variable<'a>(interface: &'a Interface, text: &str) -> Option<EntityRef<'a>>
    ensures { MatchOption result ((e : Entity) → ¬ Exports interface.now text.now e Values) (λ e. Exports interface.now text.now e Values) }
{
    match entry_named(interface.values(), text) {
        Some(entry) => Some(EntityRef::of(&entry.entity)),
        None => None,
    }
}

/// Returns the entity that an interface exports under a name.
fn exported<'a>(interface: &'a Interface, space: Namespace, text: &str) -> Option<EntityRef<'a>>
    ensures { MatchOption result ((e : Entity) → ¬ Exports interface.now text.now e space) (λ e. Exports interface.now text.now e space) }
{
    match space {
        Namespace::Types => exported_type(interface, text),
        Namespace::Constructors => exported_constructor(interface, text),
        Namespace::Values => exported_variable(interface, text),
    }
}

/// Returns the constructor that an interface exports under a name, if it belongs to the type that it exports under another.
fn exported_of<'a>(interface: &'a Interface, of: &str, text: &str) -> Option<EntityRef<'a>>
    ensures { MatchOption result ((e : Entity) → ¬ Owns interface.now of.now text.now e) (λ e. Owns interface.now of.now text.now e) }
{
    let Some(owner) = entry_named(interface.types(), of) else {
        return None;
    };
    let Some(entry) = entry_named(interface.constructors(), text) else {
        return None;
    };
    if !entry.owner.is_same(&owner.entity) {
        return None;
    }
    Some(EntityRef::of(&entry.entity))
}

/// Returns the meaning of a name in the list of an import, for the interface of the imported module.
pub(crate) fn of_item<'a>(
    interface: Option<&'a Interface>,
    space: Namespace,
    name: &Name,
) -> Meaning<'a>
    ensures { (fs : List Interface) (i : Import) → IsInterfaceOf fs i.name.text (option_map (λ f. f.now) interface.entry)
        → OfItem fs i space name.now.text (sense_of result) }
{
    let Some(interface) = interface else {
        return Meaning::Unbound;
    };
    match exported(interface, space, name.as_str()) {
        Some(meant) => Meaning::Entity(meant),
        None => Meaning::Unbound,
    }
}

/// Returns the meaning of a constructor that is listed after a type in the list of an import, for the interface of the imported module.
pub(crate) fn of_sub_item<'a>(
    interface: Option<&'a Interface>,
    of: &Name,
    part: &Name,
) -> Meaning<'a>
    ensures { (fs : List Interface) (i : Import) → IsInterfaceOf fs i.name.text (option_map (λ f. f.now) interface.entry)
        → OfSubItem fs i of.now.text part.now.text (sense_of result) }
{
    let Some(interface) = interface else {
        return Meaning::Unbound;
    };
    match exported_of(interface, of.as_str(), part.as_str()) {
        Some(entity) => Meaning::Entity(entity),
        None => Meaning::Unbound,
    }
}
