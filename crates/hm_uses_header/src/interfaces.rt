//! The interfaces of imported modules, by name.
ghost use Rattle.std.specs.Prelude.{map, List, IfOk, option_map};
ghost use Rattle.hm_types.specs.Interfaces.{Exports as Interface};
ghost use Rattle.hm_scope_imports.specs.Apart.{AreNamedApart};
ghost use Rattle.hm_uses_header.specs.Lookups.{IsInterfaceOf, IsTableOf};

use hm_types::Interface;
use indexmap::IndexMap;
use std::alloc::{AllocError, Global};

/// Returns a table of interfaces by name.
pub(crate) fn by_name<'a>(
    alloc: Global,
    interfaces: &[&'a Interface],
) -> Result<IndexMap<&'a str, &'a Interface>, AllocError>
    requires { AreNamedApart (map (λ f. f.now) interfaces.now) }
    ensures { IfOk result (λ table. IsTableOf (map (λ f. f.now) interfaces.now) table) }
{
    let mut table = IndexMap::new(alloc);
    'interfaces: for interface in interfaces {
        let interface: &'a Interface = interface;
        table.insert(interface.name(), interface)?;
    }
    Ok(table)
}

/// Returns the interface with this name.
pub(crate) fn interface_named<'a>(
    table: &IndexMap<&'a str, &'a Interface>,
    name: &str,
) -> Option<&'a Interface>
    ensures { (fs : List Interface) → IsTableOf fs table.now → IsInterfaceOf fs name.now (option_map (λ f. f.now) result) }
{
    match table.get(name) {
        Some(interface) => Some(interface),
        None => None,
    }
}
