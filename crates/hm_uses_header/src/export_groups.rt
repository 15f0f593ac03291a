//! The constructors of types that an export list may name.
ghost use Rattle.std.specs.Prelude.{◌≡◌, All, IfOk, map, false};
ghost use Rattle.hm_names.specs.Bindings.{IsScopeOf};
ghost use Rattle.hm_scope_export_items.specs.ExportGroups.{AreGroupsOf};
ghost use Rattle.hm_uses_header.specs.Lookups.{NamesParts, names_parts, names_some};

use hm_scope_export_items::{Selector, groups_of};
use hm_scope_tables::Binding;
use hm_syntax::{Export, Module, SubItems};
use hm_types::Interface;
use indexmap::IndexMap;
use std::alloc::{AllocError, Global};

/// Returns whether constructors are named.
fn some_named(subs: &SubItems) -> bool
    ensures { result ≡ names_some subs.now }
{
    match subs {
        SubItems::None => false,
        SubItems::All => false,
        SubItems::Some(_) => true,
    }
}

/// Returns whether an item names constructors of a type.
fn parts_named(export: &Export) -> bool
    ensures { result ≡ names_parts export.now }
{
    match export {
        Export::Var(_) => false,
        Export::Con(_, subs) => some_named(subs),
        Export::Whole(_) => false,
    }
}

/// Returns whether an item of a list names constructors of a type.
fn any_named(exports: &[Export]) -> bool
    ensures { result ≡ false → All (λ i. names_parts i ≡ false) exports.now }
{
    'exports: for export in exports {
        if parts_named(export) {
            return true;
        }
    }
    false
}

/// Returns whether the export list of a module names constructors of a type.
fn parts_exported(program: &Module) -> bool
    ensures { result ≡ false → ¬ NamesParts program.now }
{
    let Some(exports) = &program.header.exports else {
        return false;
    };
    any_named(exports.as_slice())
}

/// Returns the constructors of each type that are in scope, if the export list of the module names any. Else returns an empty table, because it takes
/// longer to group a scope than to find all names of a small module.
pub(crate) fn export_groups<'a>(
    alloc: Global,
    program: &'a Module,
    interfaces: &[&'a Interface],
    pairs: &[Binding<'a>],
) -> Result<IndexMap<Selector<'a>, Vec<Binding<'a>>>, AllocError>
    ensures { IfOk result (λ groups. IsScopeOf program.now (map (λ i. i.now) interfaces.now) pairs.now
        → NamesParts program.now → AreGroupsOf program.now (map (λ i. i.now) interfaces.now) groups) }
{
    if !parts_exported(program) {
        return Ok(IndexMap::new(alloc));
    }
    Ok(groups_of(alloc, program, interfaces, pairs)?)
}
