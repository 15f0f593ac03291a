//! Finds exports of an imported module that are near to a name.
ghost use Rattle.std.specs.Prelude.{◌≡◌, Contains, IfOk, IfSome, None, Some, map, option_map};
ghost use Rattle.hm_messages_details.specs.NearExports.{IsNearExportOf, IsNearIn};
ghost use Rattle.hm_messages_details.specs.Nearness.{AreNear};

use crate::nearest::is_near;
use hm_names::Fault;
use hm_scope_tables::{Named, entry_named};
use hm_types::Interface;
use std::alloc::{AllocError, Global};

/// Returns a constructor of a type of an interface that is near to a name.
fn near_constructor<'a>(
    alloc: Global,
    text: &str,
    interface: &'a Interface,
    owner: &str,
) -> Result<Option<&'a str>, AllocError>
    ensures { IfOk result (λ found. IfSome found (λ y. IsNearIn interface.now text.now (Some owner.now) y.now)) }
{
    let Some(ty) = entry_named(interface.types(), owner) else {
        return Ok(None);
    };
    let entries = interface.constructors();
    'entries: for entry in entries {
        if !entry.owner.is_same(&ty.entity) {
            continue;
        }
        let name = entry.name.as_str();
        if is_near(alloc, text, name)? {
            return Ok(Some(name));
        }
    }
    Ok(None)
}

/// Returns the name of an entry that is near to a name.
fn near_among<'a, E: Named>(
    alloc: Global,
    text: &str,
    entries: &'a [E],
) -> Result<Option<&'a str>, AllocError>
    ensures { IfOk result (λ found. IfSome found (λ y. (r : E) × Contains entries.now r × (E.name_of r ≡ y.now) × AreNear text.now y.now)) }
{
    'entries: for entry in entries {
        let name = entry.name();
        if is_near(alloc, text, name)? {
            return Ok(Some(name));
        }
    }
    Ok(None)
}

/// Returns a type, a synonym or a variable of an interface that is near to a name.
fn near_alone<'a>(
    alloc: Global,
    text: &str,
    interface: &'a Interface,
) -> Result<Option<&'a str>, AllocError>
    ensures { IfOk result (λ found. IfSome found (λ y. IsNearIn interface.now text.now None y.now)) }
{
    match near_among(alloc, text, interface.types())? {
        Some(name) => return Ok(Some(name)),
        None => {}
    }
    match near_among(alloc, text, interface.synonyms())? {
        Some(name) => return Ok(Some(name)),
        None => {}
    }
    match near_among(alloc, text, interface.values())? {
        Some(name) => Ok(Some(name)),
        None => Ok(None),
    }
}

/// Returns a name of an interface that is near to one that an import lists alone, or after this type.
fn near_in<'a>(
    alloc: Global,
    text: &str,
    interface: &'a Interface,
    owner: Option<&str>,
) -> Result<Option<&'a str>, AllocError>
    ensures { IfOk result (λ found. IfSome found (λ y. IsNearIn interface.now text.now (option_map (λ t. t.now) owner.entry) y.now)) }
{
    match owner {
        Some(owner) => Ok(near_constructor(alloc, text, interface, owner)?),
        None => Ok(near_alone(alloc, text, interface)?),
    }
}

// Why: docs/DECISIONS.md, "The module of an import".
/// Returns a name that a module exports and that is near to the name of a fault, which an import of the module lists alone, or after this type.
pub(crate) fn near_export<'a>(
    alloc: Global,
    interfaces: &[&'a Interface],
    fault: &Fault,
    module: &str,
    owner: Option<&str>,
) -> Result<Option<&'a str>, AllocError>
    ensures { IfOk result (λ found. IsNearExportOf (map (λ f. f.now) interfaces.now) fault.now «module».now (option_map (λ t. t.now) owner.entry)
        (option_map (λ y. y.now) found)) }
{
    'interfaces: for interface in interfaces {
        if interface.name() != module {
            continue;
        }
        match near_in(alloc, fault.name.as_str(), interface, owner)? {
            Some(name) => return Ok(Some(name)),
            None => {}
        }
    }
    Ok(None)
}
