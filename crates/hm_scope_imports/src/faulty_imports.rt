//! The faults of import lists (Report, section 5.3.1).

ghost use Rattle.std.specs.Prelude.{◌≡◌, ◌↔◌, IfOk, OnOk, IsTrue, Contains, map};
ghost use Rattle.std.specs.Borrow.{Bor};
ghost use Rattle.hm_types.specs.declared.Entity.{Entity};
ghost use Rattle.hm_types.specs.Interfaces.{Exports as Interface};
ghost use Rattle.hm_syntax.specs.Names.{Identifier};
ghost use Rattle.hm_syntax.specs.declared.ast.ImportItem.{ImportItem};
ghost use Rattle.hm_names.specs.Bindings.{Adds};
ghost use Rattle.hm_names.specs.Entities.{Exports, Belongs};
ghost use Rattle.hm_scope_imports.specs.Apart.{AreNamedApart};
ghost use Rattle.hm_scope_imports.specs.FaultyItems.{IsItemFault, IsListFault};
ghost use Rattle.hm_names.specs.Faults.Phases.{HasFault, Importing, fault};
ghost use Rattle.hm_names.specs.declared.faults.Fault.{Fault};
ghost use Rattle.hm_names.specs.declared.faults.Kind.TheVariants.{NotExported};
ghost use Rattle.hm_names.specs.declared.namespace.Namespace.TheVariants.{Types, Values};

use crate::found::place_of;
use hm_names::{Fault, Kind, fault_at};
use hm_scope_tables::entry_named;
use hm_syntax::{Import, ImportItem, ImportList, Module, Name, SubItems};
use hm_types::Interface;
use std::alloc::{AllocError, Global};

/// Returns whether an interface exports a type or a synonym with this name.
fn exports_type(interface: &Interface, text: &str) -> bool
    ensures { IsTrue result ↔ ((e : Entity) × Exports interface.now text.now e Types) }
{
    match entry_named(interface.types(), text) {
        Some(_) => true,
        None => match entry_named(interface.synonyms(), text) {
            Some(_) => true,
            None => false,
        },
    }
}

/// Returns whether an interface exports a variable with this name.
fn exports_value(interface: &Interface, text: &str) -> bool
    ensures { IsTrue result ↔ ((e : Entity) × Exports interface.now text.now e Values) }
{
    match entry_named(interface.values(), text) {
        Some(_) => true,
        None => false,
    }
}

/// Returns whether an interface exports a type with the first name, and a constructor of it with the second.
fn belongs(interface: &Interface, owner: &str, text: &str) -> bool
    ensures { IsTrue result ↔ Belongs interface.now owner.now text.now }
{
    let Some(entry) = entry_named(interface.types(), owner) else {
        return false;
    };
    let Some(constructor) = entry_named(interface.constructors(), text) else {
        return false;
    };
    constructor.owner.is_same(&entry.entity)
}

/// Adds the fault of a name that isn't exported.
fn add_fault(alloc: Global, faults: &mut Vec<Fault>, name: &Name) -> Result<(), AllocError>
    ensures { OnOk result (Adds faults.old.items faults.new.items (λ g. fault NotExported name.now ≡ g)) }
{
    let found = fault_at(alloc, Kind::NotExported, name)?;
    faults.push(found)?;
    Ok(())
}

/// Adds the fault of a constructor that is listed after a type, unless it belongs to the type.
fn add_part_fault(
    alloc: Global,
    faults: &mut Vec<Fault>,
    interface: &Interface,
    owner: &Name,
    part: &Name,
) -> Result<(), AllocError>
    ensures { OnOk result (Adds faults.old.items faults.new.items (λ g. (¬ Belongs interface.now owner.now.text part.now.text)
        × (fault NotExported part.now ≡ g))) }
{
    if belongs(interface, owner.as_str(), part.as_str()) {
        return Ok(());
    }
    add_fault(alloc, faults, part)?;
    Ok(())
}

/// Adds the faults of the constructors that are listed after a type.
fn add_part_faults(
    alloc: Global,
    faults: &mut Vec<Fault>,
    interface: &Interface,
    owner: &Name,
    parts: &[Name],
) -> Result<(), AllocError>
    ensures { OnOk result (Adds faults.old.items faults.new.items (λ g. (c : Identifier)
        × (Contains parts.now c × ((¬ Belongs interface.now owner.now.text c.text) × (fault NotExported c ≡ g))))) }
{
    for part in parts {
        add_part_fault(alloc, faults, interface, owner, part)?;
    }
    Ok(())
}

/// Adds the faults of one listed item.
fn add_item_faults(
    alloc: Global,
    faults: &mut Vec<Fault>,
    interface: &Interface,
    item: &ImportItem,
) -> Result<(), AllocError>
    ensures { OnOk result (Adds faults.old.items faults.new.items (λ g. (k : Identifier)
        × (IsItemFault interface.now k item.now × (fault NotExported k ≡ g)))) }
{
    match item {
        ImportItem::Var(name) => {
            if exports_value(interface, name.as_str()) {
                return Ok(());
            }
            add_fault(alloc, faults, name)?;
            Ok(())
        }
        ImportItem::Con(name, subs) => {
            if !exports_type(interface, name.as_str()) {
                add_fault(alloc, faults, name)?;
                return Ok(());
            }
            match subs {
                SubItems::None => Ok(()),
                SubItems::All => Ok(()),
                SubItems::Some(parts) => {
                    add_part_faults(alloc, faults, interface, name, parts.as_slice())?;
                    Ok(())
                }
            }
        }
    }
}

/// Adds the faults of listed items.
fn add_items_faults(
    alloc: Global,
    faults: &mut Vec<Fault>,
    interface: &Interface,
    items: &[ImportItem],
) -> Result<(), AllocError>
    ensures { OnOk result (Adds faults.old.items faults.new.items (λ g. (j : ImportItem)
        × (Contains items.now j × ((k : Identifier) × (IsItemFault interface.now k j × (fault NotExported k ≡ g)))))) }
{
    for item in items {
        add_item_faults(alloc, faults, interface, item)?;
    }
    Ok(())
}

/// Adds the faults of an import's list.
fn add_list_faults(
    alloc: Global,
    faults: &mut Vec<Fault>,
    interface: &Interface,
    list: &ImportList,
) -> Result<(), AllocError>
    ensures { OnOk result (Adds faults.old.items faults.new.items (λ g. (k : Identifier)
        × (IsListFault interface.now k list.now × (fault NotExported k ≡ g)))) }
{
    match list {
        ImportList::Every => Ok(()),
        ImportList::Only(items) => {
            add_items_faults(alloc, faults, interface, items.as_slice())?;
            Ok(())
        }
        ImportList::Hiding(_) => Ok(()),
    }
}

/// Adds the faults of an import, whose interface is looked for from a place on. Returns the place from which to look for the next one.
fn add_import_faults(
    alloc: Global,
    faults: &mut Vec<Fault>,
    import: &Import,
    interfaces: &[&Interface],
    from: usize,
) -> Result<usize, AllocError>
    requires { AreNamedApart (map (λ f. f.now) interfaces.now) }
    ensures { OnOk result (Adds faults.old.items faults.new.items (λ g. (f : Bor Interface)
        × (Contains interfaces.now f × ((f.now.name ≡ import.now.name.text)
        × ((k : Identifier) × (IsListFault f.now k import.now.list × (fault NotExported k ≡ g))))))) }
{
    match place_of(interfaces, from, import.name.as_str()) {
        None => Ok(from),
        Some(place) => {
            add_list_faults(alloc, faults, interfaces[place], &import.list)?;
            Ok(place + 1)
        }
    }
}

/// Returns the faults of the imports of a module, for the interfaces of the imported modules.
pub fn import_faults(
    alloc: Global,
    program: &Module,
    interfaces: &[&Interface],
) -> Result<Vec<Fault>, AllocError>
    requires { AreNamedApart (map (λ i. i.now) interfaces.now) }
    ensures { IfOk result (λ faults. (f : Fault) → Contains faults.items f ↔ HasFault program.now (map (λ i. i.now) interfaces.now) Importing f) }
{
    let mut faults = Vec::new(alloc);
    let mut from = 0;
    for import in program.header.imports.as_slice() {
        from = add_import_faults(alloc, &mut faults, import, interfaces, from)?;
    }
    Ok(faults)
}
