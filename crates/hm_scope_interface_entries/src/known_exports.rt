//! Descriptions of the entities that a core can export. The first description of an entity counts: the core's own, then
//! those of its interfaces in order.

ghost use Rattle.std.specs.Prelude.{◌≡◌, ◌↔◌, ◌++◌, ◌∷◌, [], ℕ, List, map, cond, is_some, Some, IfOk, OnOk, Contains};
ghost use Rattle.std.specs.Borrow.{Bor};
ghost use Rattle.indexmap.specs.IndexMap.{get_by};
ghost use Rattle.hm_types.specs.declared.entries.ValueEntry.{ValueEntry};
ghost use Rattle.hm_syntax.specs.Names.{Identifier};
ghost use Rattle.hm_syntax.specs.Lists.{declarations};
ghost use Rattle.hm_names.specs.Bindings.{Adds};
ghost use Rattle.hm_names.specs.Cores.{imported_values};
ghost use Rattle.hm_names.specs.Described.{TypeDescription, declared_types, imported_types, algebraic, imported_synonym};
ghost use Rattle.hm_names.specs.Entities.{named};
ghost use Rattle.hm_scope_interface_entries.specs.KnownExports.{KnowsTypes, KnowsConstructors, KnowsValues, ConstructorSource, declared, declared_sources, imported, imported_sources};
ghost use Rattle.hm_scope_tables.specs.KnownTables.{entity_at};
ghost use Rattle.hm_scope_entities.specs.Owners.{same_key};
ghost use Rattle.hm_names.specs.Variables.{bound_names, texts};
ghost use Rattle.hm_scope_tables.specs.declared.keys.EntityKey.{EntityKey};

use hm_names::{LentNames, add_pattern};
use hm_scope_tables::{EntityKey, EntityRef, TextSet};
use hm_syntax::{Constr, Decl, DeclKind, Name, TypeExpr};
use hm_types::{ConstructorEntry, Interface, Synonym, SynonymEntry, TypeEntry, ValueEntry};
use indexmap::IndexMap;
use std::alloc::{AllocError, Global};

/// The description of a type constructor (Report, sections 4.2.1 to 4.2.3).
#[derive(Drop)]
pub(crate) enum KnownType<'a> {
    /// A data type or newtype with this many parameters.
    Algebraic(usize),
    /// A synonym of the core: its parameters and its right side.
    Declared(&'a [Name], &'a TypeExpr),
    Imported(&'a Synonym),
}

/// The description of a constructor (Report, sections 4.2.1 and 4.2.3).
#[derive(Drop)]
pub(crate) enum KnownConstructor<'a> {
    /// A constructor of the core, with the name and the parameters of its type.
    Declared(&'a Name, &'a [Name], &'a Constr),
    Imported(&'a ConstructorEntry),
}

/// Records the description of an entity, unless it has one.
fn note<'a, V: Drop>(
    table: &mut IndexMap<EntityKey<'a>, V>,
    key: EntityKey<'a>,
    value: V,
) -> Result<(), AllocError>
    ensures { OnOk result ((k : EntityKey) → get_by (same_key k) table.new
        ≡ cond (is_some (get_by (same_key key.entry) table.old)) (get_by (same_key k) table.old)
        (cond (same_key key.entry k) (Some value) (get_by (same_key k) table.old))) }
{
    if table.contains_key(&key) {
        return Ok(());
    }
    table.insert(key, value)?;
    Ok(())
}

/// Returns the key of an entity of the core.
fn own_key<'a>(home: &'a str, name: &'a Name) -> EntityKey<'a>
    ensures { entity_at result ≡ named home.now name.now.text }
{
    EntityKey {
        module: home,
        name: name.as_str(),
    }
}

/// Records the type that a declaration declares.
fn note_type<'a>(
    types: &mut IndexMap<EntityKey<'a>, KnownType<'a>>,
    home: &'a str,
    decl: &'a Decl,
) -> Result<(), AllocError>
    ensures { OnOk result ((ds : List TypeDescription) → KnowsTypes ds types.old → KnowsTypes (ds ++ declared_types home.now (decl.now ∷ [])) types.new) }
{
    match &decl.kind {
        DeclKind::DataType { name, params, .. } => Ok(note(
            types,
            own_key(home, name),
            KnownType::Algebraic(params.len()),
        )?),
        DeclKind::Newtype { name, params, .. } => Ok(note(
            types,
            own_key(home, name),
            KnownType::Algebraic(params.len()),
        )?),
        DeclKind::Synonym { name, params, ty } => Ok(note(
            types,
            own_key(home, name),
            KnownType::Declared(params, ty),
        )?),
        DeclKind::Signature { .. } => Ok(()),
        DeclKind::Clause { .. } => Ok(()),
        DeclKind::Pattern { .. } => Ok(()),
    }
}

/// Records the types that declarations declare.
fn note_types<'a>(
    types: &mut IndexMap<EntityKey<'a>, KnownType<'a>>,
    home: &'a str,
    decls: &'a [Decl],
) -> Result<(), AllocError>
    ensures { OnOk result ((ds : List TypeDescription) → KnowsTypes ds types.old → KnowsTypes (ds ++ declared_types home.now decls.now) types.new) }
{
    for decl in decls {
        note_type(types, home, decl)?;
    }
    Ok(())
}

/// Records the types of an interface.
fn note_type_entries<'a>(
    types: &mut IndexMap<EntityKey<'a>, KnownType<'a>>,
    entries: &'a [TypeEntry],
) -> Result<(), AllocError>
    ensures { OnOk result ((ds : List TypeDescription) → KnowsTypes ds types.old
        → KnowsTypes (ds ++ map (λ r. record { entity = r.entity; meaning = algebraic r.arity }) entries.now) types.new) }
{
    for entry in entries {
        let key = EntityKey::of(&EntityRef::of(&entry.entity));
        note(types, key, KnownType::Algebraic(entry.arity))?;
    }
    Ok(())
}

/// Records the synonyms of an interface.
fn note_synonym_entries<'a>(
    types: &mut IndexMap<EntityKey<'a>, KnownType<'a>>,
    entries: &'a [SynonymEntry],
) -> Result<(), AllocError>
    ensures { OnOk result ((ds : List TypeDescription) → KnowsTypes ds types.old
        → KnowsTypes (ds ++ map (λ r. record { entity = r.entity; meaning = imported_synonym r.synonym }) entries.now) types.new) }
{
    for entry in entries {
        let key = EntityKey::of(&EntityRef::of(&entry.entity));
        note(types, key, KnownType::Imported(&entry.synonym))?;
    }
    Ok(())
}

/// Returns the type constructors that a core can export.
pub(crate) fn known_types<'a>(
    alloc: Global,
    home: &'a str,
    decls: &'a [Decl],
    interfaces: &[&'a Interface],
) -> Result<IndexMap<EntityKey<'a>, KnownType<'a>>, AllocError>
    ensures { IfOk result (KnowsTypes (declared_types home.now decls.now ++ imported_types (map (λ i. i.now) interfaces.now))) }
{
    let mut known = IndexMap::new(alloc);
    note_types(&mut known, home, decls)?;
    for interface in interfaces {
        note_type_entries(&mut known, interface.types())?;
        note_synonym_entries(&mut known, interface.synonyms())?;
    }
    Ok(known)
}

/// Records the constructors of a type of the core.
fn note_constructors<'a>(
    constructors: &mut IndexMap<EntityKey<'a>, KnownConstructor<'a>>,
    home: &'a str,
    name: &'a Name,
    params: &'a [Name],
    constrs: &'a [Constr],
) -> Result<(), AllocError>
    ensures { OnOk result ((ds : List ConstructorSource) → KnowsConstructors home.now ds constructors.old
        → KnowsConstructors home.now (ds ++ map (declared name.now params.now) constrs.now) constructors.new) }
{
    for constr in constrs {
        note(
            constructors,
            own_key(home, &constr.name),
            KnownConstructor::Declared(name, params, constr),
        )?;
    }
    Ok(())
}

/// Records the constructors that a declaration declares.
fn note_declared<'a>(
    constructors: &mut IndexMap<EntityKey<'a>, KnownConstructor<'a>>,
    home: &'a str,
    decl: &'a Decl,
) -> Result<(), AllocError>
    ensures { OnOk result ((ds : List ConstructorSource) → KnowsConstructors home.now ds constructors.old
        → KnowsConstructors home.now (ds ++ declared_sources (decl.now ∷ [])) constructors.new) }
{
    match &decl.kind {
        DeclKind::DataType {
            name,
            params,
            constrs,
        } => Ok(note_constructors(constructors, home, name, params, constrs)?),
        DeclKind::Newtype {
            name,
            params,
            constr,
        } => Ok(note(
            constructors,
            own_key(home, &constr.name),
            KnownConstructor::Declared(name, params, constr),
        )?),
        DeclKind::Synonym { .. } => Ok(()),
        DeclKind::Signature { .. } => Ok(()),
        DeclKind::Clause { .. } => Ok(()),
        DeclKind::Pattern { .. } => Ok(()),
    }
}

/// Records the constructors that declarations declare.
fn note_all_declared<'a>(
    constructors: &mut IndexMap<EntityKey<'a>, KnownConstructor<'a>>,
    home: &'a str,
    decls: &'a [Decl],
) -> Result<(), AllocError>
    ensures { OnOk result ((ds : List ConstructorSource) → KnowsConstructors home.now ds constructors.old
        → KnowsConstructors home.now (ds ++ declared_sources decls.now) constructors.new) }
{
    for decl in decls {
        note_declared(constructors, home, decl)?;
    }
    Ok(())
}

/// Records the constructors of an interface.
fn note_constructor_entries<'a>(
    constructors: &mut IndexMap<EntityKey<'a>, KnownConstructor<'a>>,
    entries: &'a [ConstructorEntry],
) -> Result<(), AllocError>
    ensures { OnOk result ((m : List ℕ) (ds : List ConstructorSource) → KnowsConstructors m ds constructors.old
        → KnowsConstructors m (ds ++ map imported entries.now) constructors.new) }
{
    for entry in entries {
        let key = EntityKey::of(&EntityRef::of(&entry.entity));
        note(constructors, key, KnownConstructor::Imported(entry))?;
    }
    Ok(())
}

// Why: docs/DECISIONS.md, "Seven readings of declarations".
/// Returns the constructors that a core can export.
pub(crate) fn known_constructors<'a>(
    alloc: Global,
    home: &'a str,
    decls: &'a [Decl],
    interfaces: &[&'a Interface],
) -> Result<IndexMap<EntityKey<'a>, KnownConstructor<'a>>, AllocError>
    ensures { IfOk result (KnowsConstructors home.now (declared_sources decls.now ++ imported_sources (map (λ i. i.now) interfaces.now))) }
{
    let mut known = IndexMap::new(alloc);
    note_all_declared(&mut known, home, decls)?;
    for interface in interfaces {
        note_constructor_entries(&mut known, interface.constructors())?;
    }
    Ok(known)
}

/// Records the variables of an interface.
fn note_value_entries<'a>(
    values: &mut IndexMap<EntityKey<'a>, &'a ValueEntry>,
    entries: &'a [ValueEntry],
) -> Result<(), AllocError>
    ensures { OnOk result ((ds : List ValueEntry) → KnowsValues ds values.old → KnowsValues (ds ++ entries.now) values.new) }
{
    for entry in entries {
        let key = EntityKey::of(&EntityRef::of(&entry.entity));
        note(values, key, entry)?;
    }
    Ok(())
}

/// Returns the variables that a core imports.
pub(crate) fn known_values<'a>(
    alloc: Global,
    interfaces: &[&'a Interface],
) -> Result<IndexMap<EntityKey<'a>, &'a ValueEntry>, AllocError>
    ensures { IfOk result (KnowsValues (imported_values (map (λ i. i.now) interfaces.now))) }
{
    let mut known = IndexMap::new(alloc);
    for interface in interfaces {
        note_value_entries(&mut known, interface.values())?;
    }
    Ok(known)
}

/// Adds names.
fn add_names<'a>(out: &mut TextSet<'a>, names: &[&'a Name]) -> Result<(), AllocError>
    ensures { OnOk result (Adds out.old out.new (λ x. (n : Bor Identifier) × (Contains names.now n × (n.now.text ≡ x)))) }
{
    for name in names {
        out.insert(name.as_str())?;
    }
    Ok(())
}

/// Adds the variables that a declaration binds.
fn add_bound<'a>(alloc: Global, out: &mut TextSet<'a>, decl: &'a Decl) -> Result<(), AllocError>
    ensures { OnOk result (Adds out.old out.new (Contains (texts (bound_names (declarations (decl.now ∷ [])))))) }
{
    match &decl.kind {
        DeclKind::Clause { name, .. } => {
            out.insert(name.as_str())?;
            Ok(())
        }
        DeclKind::Pattern { pat, .. } => {
            let mut names = LentNames::new(alloc);
            add_pattern(&mut names, pat)?;
            Ok(add_names(out, names.as_slice())?)
        }
        DeclKind::DataType { .. } => Ok(()),
        DeclKind::Newtype { .. } => Ok(()),
        DeclKind::Synonym { .. } => Ok(()),
        DeclKind::Signature { .. } => Ok(()),
    }
}

/// Returns the variables that declarations bind.
pub(crate) fn bound_variables<'a>(
    alloc: Global,
    decls: &'a [Decl],
) -> Result<TextSet<'a>, AllocError>
    ensures { IfOk result (λ bound. (x : List ℕ) → Contains bound x ↔ Contains (texts (bound_names (declarations decls.now))) x) }
{
    let mut bound = TextSet::new(alloc);
    for decl in decls {
        add_bound(alloc, &mut bound, decl)?;
    }
    Ok(bound)
}
