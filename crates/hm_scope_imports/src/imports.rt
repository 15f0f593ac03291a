//! The entities that the imports of a module bring into its scope (Report, section 5.3).

ghost use Rattle.std.specs.Prelude.{◌≡◌, ◌↔◌, IfOk, OnOk, IsTrue, Contains, List, ◌∷◌, map};
ghost use Rattle.std.specs.Arc.{arc_value};
ghost use Rattle.hm_types.specs.Interfaces.{Exports as Interface, AreOrdered};
ghost use Rattle.hm_syntax.specs.declared.ast.Import.{Import};
ghost use Rattle.hm_syntax.specs.declared.ast.Module.{Module};
ghost use Rattle.hm_names.specs.Bindings.{Pair, Adds, IsPairOf, IsBroughtPair, IsScopeOf};
ghost use Rattle.hm_names.specs.Scope.{Imports, known_as, prelude_name, import_prelude};
ghost use Rattle.hm_scope_imports.specs.Selections.{Selects, IsSelectedPair, IsSelectedAs, IsNamedPair, IsImportedPair, IsBroughtFrom};
ghost use Rattle.hm_scope_imports.specs.Apart.{AreNamedApart};
ghost use Rattle.hm_scope_tables.specs.declared.keys.Key.{Key};

use crate::found::place_of;
use crate::in_scope::{add_both, add_declared, add_qualified};
use crate::selections::Selection;
use hm_names::Namespace;
use hm_scope_tables::{Binding, EntityRef, Key, Named, Scope, entry_named};
use hm_syntax::{Import, Module};
use hm_types::{Entity, Interface};
use std::alloc::{AllocError, Global};
use std::sync::Arc;

/// The number of pairs that the imports of a module may bring in, whatever the interfaces.
const LEAST_PAIRS: usize = 1 << 16;

/// Further pairs, for each entry of an interface. An import without a list brings in two for each: bare and qualified.
const PAIRS_PER_ENTRY: usize = 16;

/// The names that an import brings in: those of a selection, with this qualifier, and bare unless `qualified` holds.
#[derive(Clone, Copy)]
struct Brought<'r, 'a> {
    selection: &'r Selection<'a>,
    qualified: bool,
    name: &'a str,
}

/// Adds an exported entity, if its name is selected.
fn add_entry<'a>(
    pairs: &mut Vec<Binding<'a>>,
    brought: &Brought<'_, 'a>,
    space: Namespace,
    text: &'a str,
    entity: &'a Entity,
) -> Result<(), AllocError>
    ensures { OnOk result (Adds pairs.old.items pairs.new.items (λ p. Selects brought.now.selection.now space text.now
        × IsPairOf brought.now.qualified brought.now.name.now space text.now entity.now p)) }
{
    if !brought.selection.selects(space, text) {
        return Ok(());
    }
    let found = EntityRef::of(entity);
    if brought.qualified {
        return Ok(add_qualified(pairs, brought.name, space, text, found)?);
    }
    Ok(add_both(pairs, brought.name, space, text, found)?)
}

/// Returns how many pairs so many entries bring in, at most: each a qualified one, and a bare one unless the import is qualified.
fn pairs_of(brought: &Brought<'_, '_>, entries: usize) -> usize {
    if brought.qualified {
        entries
    } else {
        entries.saturating_mul(2)
    }
}

/// Adds the selected ones of these entries, all of one namespace.
fn add_entries<'a, E: Named>(
    pairs: &mut Vec<Binding<'a>>,
    brought: &Brought<'_, 'a>,
    space: Namespace,
    entries: &'a [E],
) -> Result<(), AllocError>
    ensures { OnOk result (Adds pairs.old.items pairs.new.items (λ p. (r : E)
        × (Contains entries.now r × (Selects brought.now.selection.now space (E.name_of r)
        × IsPairOf brought.now.qualified brought.now.name.now space (E.name_of r) (E.entity_of r) p)))) }
{
    pairs.reserve(pairs_of(brought, entries.len()))?;
    for entry in entries {
        add_entry(pairs, brought, space, entry.name(), entry.entity())?;
    }
    Ok(())
}

/// Adds the selected entries of an interface, with a walk over all of its entries.
fn add_every<'a>(
    pairs: &mut Vec<Binding<'a>>,
    brought: &Brought<'_, 'a>,
    interface: &'a Interface,
) -> Result<(), AllocError>
    ensures { OnOk result (Adds pairs.old.items pairs.new.items
        (IsSelectedPair interface.now brought.now.selection.now brought.now.qualified brought.now.name.now)) }
{
    add_entries(pairs, brought, Namespace::Types, interface.types())?;
    add_entries(pairs, brought, Namespace::Types, interface.synonyms())?;
    add_entries(
        pairs,
        brought,
        Namespace::Constructors,
        interface.constructors(),
    )?;
    add_entries(pairs, brought, Namespace::Values, interface.values())?;
    Ok(())
}

/// Adds the entry with this name, if there is one and its name is selected.
fn add_entry_named<'a, E: Named>(
    pairs: &mut Vec<Binding<'a>>,
    brought: &Brought<'_, 'a>,
    space: Namespace,
    entries: &'a [E],
    text: &str,
) -> Result<(), AllocError>
    requires { AreOrdered (map E.name_of entries.now) }
    ensures { OnOk result (Adds pairs.old.items pairs.new.items
        (IsNamedPair E.name_of E.entity_of entries.now brought.now.selection.now brought.now.qualified brought.now.name.now space text.now)) }
{
    match entry_named(entries, text) {
        None => Ok(()),
        Some(entry) => {
            add_entry(pairs, brought, space, entry.name(), entry.entity())?;
            Ok(())
        }
    }
}

/// Adds the entities that an interface exports under a name, if the name is selected.
fn add_name<'a>(
    pairs: &mut Vec<Binding<'a>>,
    brought: &Brought<'_, 'a>,
    interface: &'a Interface,
    name: &Key<'_>,
) -> Result<(), AllocError>
    ensures { OnOk result (Adds pairs.old.items pairs.new.items
        (IsSelectedAs interface.now brought.now.selection.now brought.now.qualified brought.now.name.now name.now.space name.now.text.now)) }
{
    let text = name.text;
    match name.space {
        Namespace::Types => {
            add_entry_named(pairs, brought, Namespace::Types, interface.types(), text)?;
            add_entry_named(pairs, brought, Namespace::Types, interface.synonyms(), text)?;
            Ok(())
        }
        Namespace::Constructors => {
            add_entry_named(
                pairs,
                brought,
                Namespace::Constructors,
                interface.constructors(),
                text,
            )?;
            Ok(())
        }
        Namespace::Values => {
            add_entry_named(pairs, brought, Namespace::Values, interface.values(), text)?;
            Ok(())
        }
    }
}

// Why: docs/DECISIONS.md, "Import lists".
/// Adds the entities that an interface exports under the names of a list, if these are selected. Looks each name up.
fn add_listed<'a>(
    pairs: &mut Vec<Binding<'a>>,
    brought: &Brought<'_, 'a>,
    interface: &'a Interface,
    names: &[Key<'_>],
) -> Result<(), AllocError>
    ensures { OnOk result (Adds pairs.old.items pairs.new.items (λ p. (k : Key)
        × (Contains names.now k × IsSelectedAs interface.now brought.now.selection.now brought.now.qualified brought.now.name.now k.space k.text.now p))) }
{
    for name in names {
        add_name(pairs, brought, interface, name)?;
    }
    Ok(())
}

/// Adds the selected entries of an interface.
fn add_selected<'a>(
    pairs: &mut Vec<Binding<'a>>,
    brought: &Brought<'_, 'a>,
    interface: &'a Interface,
) -> Result<(), AllocError>
    ensures { OnOk result (Adds pairs.old.items pairs.new.items
        (IsSelectedPair interface.now brought.now.selection.now brought.now.qualified brought.now.name.now)) }
{
    match brought.selection {
        Selection::Every => Ok(add_every(pairs, brought, interface)?),
        Selection::Only(names) => Ok(add_listed(pairs, brought, interface, names.keys())?),
        Selection::Hiding(_) => Ok(add_every(pairs, brought, interface)?),
    }
}

/// Returns the name under which a module is imported.
pub(crate) fn import_name(import: &Import) -> &str
    ensures { result.now ≡ known_as import.now }
{
    match &import.alias {
        None => import.name.as_str(),
        Some(alias) => alias.as_str(),
    }
}

/// Adds the entities that an import brings in from the interface of its module.
fn add_brought<'a>(
    alloc: Global,
    pairs: &mut Vec<Binding<'a>>,
    import: &'a Import,
    interface: &'a Interface,
) -> Result<(), AllocError>
    ensures { OnOk result (Adds pairs.old.items pairs.new.items (IsBroughtPair interface.now import.now)) }
{
    let selection = Selection::new(alloc, interface, &import.list)?;
    let brought = Brought {
        selection: &selection,
        qualified: import.qualified,
        name: import_name(import),
    };
    add_selected(pairs, &brought, interface)?;
    Ok(())
}

/// Adds the entities that an import brings in, whose interface is looked for from a place on. Returns the place from which to look for the next one.
fn add_import<'a>(
    alloc: Global,
    pairs: &mut Vec<Binding<'a>>,
    import: &'a Import,
    interfaces: &[&'a Interface],
    from: usize,
) -> Result<usize, AllocError>
    requires { AreNamedApart (map (λ f. f.now) interfaces.now) }
    ensures { OnOk result (Adds pairs.old.items pairs.new.items (IsBroughtFrom (map (λ f. f.now) interfaces.now) import.now)) }
{
    match place_of(interfaces, from, import.name.as_str()) {
        None => Ok(from),
        Some(place) => {
            add_brought(alloc, pairs, import, interfaces[place])?;
            Ok(place + 1)
        }
    }
}

/// Adds all entities that an interface exports, if it is Prelude's.
fn add_prelude<'a>(pairs: &mut Vec<Binding<'a>>, interface: &'a Interface) -> Result<(), AllocError>
    ensures { OnOk result (Adds pairs.old.items pairs.new.items (λ p. (interface.now.name ≡ prelude_name) × IsBroughtPair interface.now import_prelude p)) }
{
    if interface.name() != "Prelude" {
        return Ok(());
    }
    let selection = Selection::Every;
    let brought = Brought {
        selection: &selection,
        qualified: false,
        name: "Prelude",
    };
    add_selected(pairs, &brought, interface)?;
    Ok(())
}

/// Adds the entities that `import Prelude` brings in.
fn add_all_of_prelude<'a>(
    pairs: &mut Vec<Binding<'a>>,
    interfaces: &[&'a Interface],
) -> Result<(), AllocError>
    ensures { OnOk result (Adds pairs.old.items pairs.new.items (IsBroughtFrom (map (λ f. f.now) interfaces.now) import_prelude)) }
{
    for interface in interfaces {
        add_prelude(pairs, interface)?;
    }
    Ok(())
}

/// Returns whether a written import names Prelude.
pub(crate) fn names_prelude(imports: &[Import]) -> bool
    ensures { IsTrue result ↔ ((i : Import) × (Contains imports.now i × (i.name.text ≡ prelude_name))) }
{
    for import in imports {
        if import.name.as_str() == "Prelude" {
            return true;
        }
    }
    false
}

/// Returns how many entries an interface has.
fn entry_count(interface: &Interface) -> usize {
    let types = interface.types().len();
    types
        .saturating_add(interface.synonyms().len())
        .saturating_add(interface.constructors().len())
        .saturating_add(interface.values().len())
}

// Why: docs/DECISIONS.md, "Pairs of a scope".
/// Returns how many pairs the imports for these interfaces may bring in. Imports that repeat a module under many names would bring in more.
fn most_pairs(interfaces: &[&Interface]) -> usize {
    let mut entries: usize = 0;
    for interface in interfaces {
        entries = entries.saturating_add(entry_count(interface));
    }
    entries
        .saturating_mul(PAIRS_PER_ENTRY)
        .saturating_add(LEAST_PAIRS)
}

/// Adds the entities that the written imports bring in. If these are too many, returns an error as if memory ran out.
fn add_written<'a>(
    alloc: Global,
    pairs: &mut Vec<Binding<'a>>,
    imports: &'a [Import],
    interfaces: &[&'a Interface],
) -> Result<(), AllocError>
    requires { AreNamedApart (map (λ f. f.now) interfaces.now) }
    ensures { OnOk result (Adds pairs.old.items pairs.new.items (λ p. (i : Import)
        × (Contains imports.now i × IsBroughtFrom (map (λ f. f.now) interfaces.now) i p))) }
{
    let most = pairs.len().saturating_add(most_pairs(interfaces));
    let mut from = 0;
    for import in imports {
        if pairs.len() > most {
            return Err(AllocError);
        }
        from = add_import(alloc, pairs, import, interfaces, from)?;
    }
    Ok(())
}

/// Adds the entities that the imports of a module bring in. If no written import names Prelude, `import Prelude` is one of them.
fn add_imports<'a>(
    alloc: Global,
    pairs: &mut Vec<Binding<'a>>,
    program: &'a Module,
    interfaces: &[&'a Interface],
) -> Result<(), AllocError>
    requires { AreNamedApart (map (λ f. f.now) interfaces.now) }
    ensures { OnOk result (Adds pairs.old.items pairs.new.items (IsImportedPair program.now (map (λ f. f.now) interfaces.now))) }
{
    let imports = program.header.imports.as_slice();
    add_written(alloc, pairs, imports, interfaces)?;
    if names_prelude(imports) {
        return Ok(());
    }
    add_all_of_prelude(pairs, interfaces)?;
    Ok(())
}

/// Returns the interfaces for which a module is checked: Prelude's, then those of its imports.
pub fn interfaces_of<'a>(
    alloc: Global,
    prelude: &'a Interface,
    imports: &'a [Arc<Interface>],
) -> Result<Vec<&'a Interface>, AllocError>
    ensures { IfOk result (λ all. map (λ f. f.now) all.items ≡ prelude.now ∷ map arc_value imports.now) }
{
    let mut interfaces: Vec<&'a Interface> = Vec::new(alloc);
    interfaces.push(prelude)?;
    for interface in imports {
        interfaces.push(interface)?;
    }
    Ok(interfaces)
}

/// Returns the scope of a module, for Prelude's interface and those of its imports.
pub fn scope_of<'a>(
    alloc: Global,
    program: &'a Module,
    prelude: &'a Interface,
    imports: &'a [Arc<Interface>],
) -> Result<Scope<'a>, AllocError>
    requires { AreNamedApart (prelude.now ∷ map arc_value imports.now) }
    ensures { IfOk result (λ scope. IsScopeOf program.now (prelude.now ∷ map arc_value imports.now) scope) }
{
    let interfaces = interfaces_of(alloc, prelude, imports)?;
    let mut pairs = Vec::new(alloc);
    add_declared(alloc, &mut pairs, program)?;
    add_imports(alloc, &mut pairs, program, &interfaces)?;
    Ok(Scope::of(alloc, pairs)?)
}
