//! The names of an interface that an import list selects (Report, section 5.3.1).

ghost use Rattle.std.specs.Prelude.{◌≡◌, ◌↔◌, IfOk, OnOk, IsTrue, Contains};
ghost use Rattle.hm_types.specs.declared.entries.ConstructorEntry.{ConstructorEntry};
ghost use Rattle.hm_syntax.specs.Names.{Identifier};
ghost use Rattle.hm_syntax.specs.declared.ast.ImportItem.{ImportItem};
ghost use Rattle.hm_names.specs.Bindings.{Adds};
ghost use Rattle.hm_scope_imports.specs.Selections.{IsListed, Selects, IsSelectionOf};
ghost use Rattle.hm_scope_imports.specs.Gathered.{bare, type_name, IsOwned, IsBehind, IsNamedBy, IsOpenedBy};
ghost use Rattle.hm_names.specs.declared.namespace.Namespace.TheVariants.{Types, Constructors, Values};

use hm_names::Namespace;
use hm_scope_tables::{NameSet, entry_named};
use hm_syntax::{ImportItem, ImportList, Name, SubItems};
use hm_types::{ConstructorEntry, Entity, Interface};
use std::alloc::{AllocError, Global};

/// How an import list uses its names.
#[derive(Clone, Copy)]
pub(crate) enum ListUse {
    Selects,
    Hides,
}

/// Adds a constructor that is listed after a type, if it is one of that type.
fn gather_part<'a>(
    names: &mut NameSet<'a>,
    interface: &Interface,
    owner: &Entity,
    part: &'a Name,
) -> Result<(), AllocError>
    ensures { OnOk result (Adds names.old names.new (λ n. IsOwned interface.now owner.now part.now.text × (n ≡ bare Constructors part.now.text))) }
{
    let Some(constructor) = entry_named(interface.constructors(), part.as_str()) else {
        return Ok(());
    };
    if !constructor.owner.is_same(owner) {
        return Ok(());
    }
    names.insert(Namespace::Constructors, None, part.as_str())?;
    Ok(())
}

/// Adds the constructors that are listed after a type and are of that type.
fn gather_parts<'a>(
    names: &mut NameSet<'a>,
    interface: &Interface,
    owner: &Entity,
    parts: &'a [Name],
) -> Result<(), AllocError>
    ensures { OnOk result (Adds names.old names.new (λ n. (c : Identifier)
        × (Contains parts.now c × (IsOwned interface.now owner.now c.text × (n ≡ bare Constructors c.text))))) }
{
    for part in parts {
        gather_part(names, interface, owner, part)?;
    }
    Ok(())
}

/// Adds the names that an item has besides its type: the constructors of its list. After `hiding`, an item without a list has a constructor
/// with the type's name.
fn gather_behind<'a>(
    names: &mut NameSet<'a>,
    interface: &Interface,
    name: &'a Name,
    subs: &'a SubItems,
    list_use: ListUse,
) -> Result<(), AllocError>
    ensures { OnOk result (Adds names.old names.new (λ n. IsBehind list_use interface.now name.now n subs.now)) }
{
    match subs {
        SubItems::None => match list_use {
            ListUse::Selects => Ok(()),
            ListUse::Hides => {
                names.insert(Namespace::Constructors, None, name.as_str())?;
                Ok(())
            }
        },
        SubItems::All => Ok(()),
        SubItems::Some(parts) => {
            let Some(entry) = entry_named(interface.types(), name.as_str()) else {
                return Ok(());
            };
            gather_parts(names, interface, &entry.entity, parts.as_slice())?;
            Ok(())
        }
    }
}

/// Adds the names of an item. The constructors of an item `T(..)` aren't among them.
fn gather_names<'a>(
    names: &mut NameSet<'a>,
    interface: &Interface,
    item: &'a ImportItem,
    list_use: ListUse,
) -> Result<(), AllocError>
    ensures { OnOk result (Adds names.old names.new (λ n. IsNamedBy list_use interface.now n item.now)) }
{
    match item {
        ImportItem::Var(name) => {
            names.insert(Namespace::Values, None, name.as_str())?;
            Ok(())
        }
        ImportItem::Con(name, subs) => {
            names.insert(Namespace::Types, None, name.as_str())?;
            gather_behind(names, interface, name, subs, list_use)?;
            Ok(())
        }
    }
}

/// Adds the names of items, as in `gather_names`.
fn gather_all_names<'a>(
    names: &mut NameSet<'a>,
    interface: &Interface,
    items: &'a [ImportItem],
    list_use: ListUse,
) -> Result<(), AllocError>
    ensures { OnOk result (Adds names.old names.new (λ n. (j : ImportItem) × (Contains items.now j × IsNamedBy list_use interface.now n j))) }
{
    for item in items {
        gather_names(names, interface, item, list_use)?;
    }
    Ok(())
}

/// Adds the type that an item lists with all its constructors.
fn gather_opened<'a>(
    opened: &mut NameSet<'a>,
    interface: &'a Interface,
    item: &ImportItem,
) -> Result<(), AllocError>
    ensures { OnOk result (Adds opened.old opened.new (λ n. IsOpenedBy interface.now n item.now)) }
{
    match item {
        ImportItem::Var(_) => Ok(()),
        ImportItem::Con(name, subs) => match subs {
            SubItems::None => Ok(()),
            SubItems::Some(_) => Ok(()),
            SubItems::All => {
                let Some(entry) = entry_named(interface.types(), name.as_str()) else {
                    return Ok(());
                };
                let module = entry.entity.module.as_str();
                opened.insert(Namespace::Types, Some(module), entry.entity.name.as_str())?;
                Ok(())
            }
        },
    }
}

/// Adds the types that items list with all their constructors.
fn gather_all_opened<'a>(
    opened: &mut NameSet<'a>,
    interface: &'a Interface,
    items: &[ImportItem],
) -> Result<(), AllocError>
    ensures { OnOk result (Adds opened.old opened.new (λ n. (j : ImportItem) × (Contains items.now j × IsOpenedBy interface.now n j))) }
{
    for item in items {
        gather_opened(opened, interface, item)?;
    }
    Ok(())
}

/// Adds a constructor, if its type is listed with all its constructors.
fn gather_constructor<'a>(
    names: &mut NameSet<'a>,
    opened: &NameSet<'_>,
    constructor: &'a ConstructorEntry,
) -> Result<(), AllocError>
    ensures { OnOk result (Adds names.old names.new (λ n. Contains opened.now (type_name constructor.now.owner)
        × (n ≡ bare Constructors constructor.now.name))) }
{
    let module = constructor.owner.module.as_str();
    if !opened.contains(
        Namespace::Types,
        Some(module),
        constructor.owner.name.as_str(),
    ) {
        return Ok(());
    }
    names.insert(Namespace::Constructors, None, constructor.name.as_str())?;
    Ok(())
}

/// Adds the constructors of the types that are listed with all their constructors.
fn gather_constructors<'a>(
    names: &mut NameSet<'a>,
    opened: &NameSet<'_>,
    constructors: &'a [ConstructorEntry],
) -> Result<(), AllocError>
    ensures { OnOk result (Adds names.old names.new (λ n. (k : ConstructorEntry)
        × (Contains constructors.now k × (Contains opened.now (type_name k.owner) × (n ≡ bare Constructors k.name))))) }
{
    for constructor in constructors {
        gather_constructor(names, opened, constructor)?;
    }
    Ok(())
}

/// Returns the names that the items of a list select, or hide.
fn listed<'a>(
    alloc: Global,
    interface: &'a Interface,
    items: &'a [ImportItem],
    list_use: ListUse,
) -> Result<NameSet<'a>, AllocError>
    ensures { IfOk result (λ names. IsListed list_use interface.now items.now names) }
{
    let mut names = NameSet::new(alloc);
    gather_all_names(&mut names, interface, items, list_use)?;
    let mut opened = NameSet::new(alloc);
    gather_all_opened(&mut opened, interface, items)?;
    if opened.keys().is_empty() {
        return Ok(names);
    }
    gather_constructors(&mut names, &opened, interface.constructors())?;
    Ok(names)
}

/// The names of an interface that an import list selects.
#[derive(Drop)]
pub(crate) enum Selection<'a> {
    Every,
    Only(NameSet<'a>),
    /// All names except these.
    Hiding(NameSet<'a>),
}

impl<'a> Selection<'a> {
    /// Returns the names that an import list selects from the interface of its module.
    pub(crate) fn new(
        alloc: Global,
        interface: &'a Interface,
        list: &'a ImportList,
    ) -> Result<Selection<'a>, AllocError>
        ensures { IfOk result (IsSelectionOf interface.now list.now) }
    {
        match list {
            ImportList::Every => Ok(Selection::Every),
            ImportList::Only(items) => Ok(Selection::Only(listed(
                alloc,
                interface,
                items.as_slice(),
                ListUse::Selects,
            )?)),
            ImportList::Hiding(items) => Ok(Selection::Hiding(listed(
                alloc,
                interface,
                items.as_slice(),
                ListUse::Hides,
            )?)),
        }
    }

    /// Returns whether the name is selected.
    pub(crate) fn selects(&self, space: Namespace, text: &str) -> bool
        ensures { IsTrue result ↔ Selects self.now space text.now }
    {
        match self {
            Selection::Every => true,
            Selection::Only(names) => names.contains(space, None, text),
            Selection::Hiding(names) => !names.contains(space, None, text),
        }
    }
}
