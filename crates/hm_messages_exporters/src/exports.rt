//! What an interface exports under a name, and how an import lists it.
ghost use Rattle.std.specs.Prelude.{◌≡◌, Contains, IfOk, IfSome, false, map, string_bytes, true};
ghost use Rattle.hm_types.specs.Interfaces.{AreOrdered};
ghost use Rattle.hm_names.specs.Entities.{Belongs};
ghost use Rattle.hm_names.specs.declared.namespace.Namespace.TheVariants.{Constructors, Types};
ghost use Rattle.hm_messages_exporters.specs.Exported.{IsExported, IsItem};

use hm_names::Namespace;
use hm_scope_tables::{Named, entry_named};
use hm_types::Interface;
use std::alloc::{AllocError, Global};

/// Returns whether one of these entries has this name. They must be in the order of their names.
fn has_name<E: Named>(entries: &[E], name: &str) -> bool
    requires { AreOrdered (map E.name_of entries.now) }
    ensures yes { result ≡ true → (r : E) × Contains entries.now r × (E.name_of r ≡ name.now) }
    ensures no { result ≡ false → (r : E) → Contains entries.now r → ¬ (E.name_of r ≡ name.now) }
{
    match entry_named(entries, name) {
        Some(_) => true,
        None => false,
    }
}

/// Returns whether an interface exports a type or a synonym with this name.
fn has_type(interface: &Interface, name: &str) -> bool
    ensures yes { result ≡ true → IsExported interface.now Types name.now }
    ensures no { result ≡ false → ¬ (IsExported interface.now Types name.now) }
{
    if has_name(interface.types(), name) {
        return true;
    }
    has_name(interface.synonyms(), name)
}

/// Returns whether an interface exports an entity with this name in this namespace.
pub fn is_exported(interface: &Interface, space: Namespace, name: &str) -> bool
    ensures yes { result ≡ true → IsExported interface.now space name.now }
    ensures no { result ≡ false → ¬ (IsExported interface.now space name.now) }
{
    match space {
        Namespace::Types => has_type(interface, name),
        Namespace::Constructors => has_name(interface.constructors(), name),
        Namespace::Values => has_name(interface.values(), name),
    }
}

/// Returns the name of a type that an interface exports with a constructor, if there is one.
fn owner_of<'a>(interface: &'a Interface, constructor: &str) -> Option<&'a str>
    ensures { IfSome result (λ t. Belongs interface.now t.now constructor.now) }
{
    let entry = entry_named(interface.constructors(), constructor)?;
    let types = interface.types();
    'types: for ty in types {
        if ty.entity.is_same(&entry.owner) {
            return Some(ty.name.as_str());
        }
    }
    None
}

/// Returns the list of an import that imports a constructor alone, or no text if no exported type has it.
fn constructor_item(alloc: Global, interface: &Interface, name: &str) -> Result<String, AllocError>
    ensures { IfOk result (λ text. IsItem interface.now name.now Constructors (string_bytes text)) }
{
    match owner_of(interface, name) {
        Some(owner) => Ok(format!(in alloc; " ({owner}({name}))")?),
        None => Ok(String::new(alloc)),
    }
}

/// Returns the list of an import that imports this name. Without one the import imports everything.
pub fn import_item(
    alloc: Global,
    interface: &Interface,
    space: Namespace,
    name: &str,
) -> Result<String, AllocError>
    ensures { IfOk result (λ text. IsItem interface.now name.now space (string_bytes text)) }
{
    match space {
        Namespace::Types => Ok(format!(in alloc; " ({name})")?),
        Namespace::Constructors => Ok(constructor_item(alloc, interface, name)?),
        Namespace::Values => Ok(format!(in alloc; " ({name})")?),
    }
}
