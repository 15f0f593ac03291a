//! The entries of a core's interface.

ghost use Rattle.std.specs.Prelude.{◌≡◌, ◌↔◌, ◌++◌, ◌∷◌, [], List, map, All, Contains, IsTrue, Some, IfOk, OnOk, option_map};
ghost use Rattle.hm_types.specs.declared.Entity.{Entity};
ghost use Rattle.hm_types.specs.declared.entries.SynonymEntry.{SynonymEntry};
ghost use Rattle.hm_types.specs.declared.entries.ConstructorEntry.{ConstructorEntry};
ghost use Rattle.hm_types.specs.Interfaces.{AreOrdered};
ghost use Rattle.hm_types.specs.Schemes.{TypeScheme};
ghost use Rattle.hm_names.specs.Cores.{IsSomeCore, IsTop, HasScheme};
ghost use Rattle.hm_scope_interface_entries.specs.ExportedEntries.{AreTypeEntries, AreSynonymEntries, AreConstructorEntries, AreValueEntries, AreTypesOf, AreConstructorsOf, AreValuesOf, HasSoundSynonyms, HasDistinctParameters};
ghost use Rattle.hm_scope_tables.specs.KnownTables.{entity_at};
ghost use Rattle.hm_names.specs.ModuleCores.{ModuleCore};
ghost use Rattle.hm_names.specs.declared.cores.Exported.{Exported};
ghost use Rattle.hm_names.specs.SchemeTables.{scheme_of};

use crate::known_exports::{
    KnownConstructor, KnownType, bound_variables, known_constructors, known_types, known_values,
};
use hm_names::{Core, Exported, Schemes, declared_scheme, declared_synonym, own_entity};
use hm_scope_tables::{EntityKey, TextSet};
use hm_types::{
    ConstructorEntry, Entity, Interface, Scheme, Synonym, SynonymEntry, Text, TypeEntry, ValueEntry,
};
use indexmap::IndexMap;
use std::alloc::{AllocError, Global};

/// Returns the key of an exported entity.
fn key_of(exported: &Exported) -> EntityKey<'_>
    ensures { entity_at result ≡ exported.now.entity }
{
    EntityKey {
        module: exported.entity.module.as_str(),
        name: exported.entity.name.as_str(),
    }
}

/// Adds the entry of a synonym.
fn add_synonym(
    synonyms: &mut Vec<SynonymEntry>,
    exported: &Exported,
    synonym: Synonym,
) -> Result<(), AllocError>
    ensures { OnOk result (synonyms.new.items ≡ synonyms.old.items
        ++ record { name = exported.now.name; entity = exported.now.entity; synonym = synonym } ∷ []) }
{
    synonyms.push(SynonymEntry {
        name: exported.name.copy()?,
        entity: exported.entity.copy()?,
        synonym,
    })?;
    Ok(())
}

/// Adds the entry of a type or a synonym.
fn add_type(
    alloc: Global,
    types: &mut Vec<TypeEntry>,
    synonyms: &mut Vec<SynonymEntry>,
    known: &IndexMap<EntityKey<'_>, KnownType<'_>>,
    exported: &Exported,
) -> Result<(), AllocError>
    requires { HasSoundSynonyms known.now }
    ensures types { OnOk result ((c : ModuleCore) (xs : List Exported) → AreTypesOf c known.now
        → AreOrdered (map (λ x. x.name) (xs ++ exported.now ∷ [])) → AreTypeEntries c xs types.old.items
        → AreTypeEntries c (xs ++ exported.now ∷ []) types.new.items) }
    ensures synonyms { OnOk result ((c : ModuleCore) (xs : List Exported) → AreTypesOf c known.now
        → AreOrdered (map (λ x. x.name) (xs ++ exported.now ∷ [])) → AreSynonymEntries c xs synonyms.old.items
        → AreSynonymEntries c (xs ++ exported.now ∷ []) synonyms.new.items) }
{
    let Some(known) = known.get(&key_of(exported)) else {
        return Ok(());
    };
    match known {
        KnownType::Algebraic(arity) => {
            types.push(TypeEntry {
                name: exported.name.copy()?,
                entity: exported.entity.copy()?,
                arity: *arity,
            })?;
            Ok(())
        }
        KnownType::Declared(params, ty) => {
            Ok(add_synonym(synonyms, exported, declared_synonym(alloc, params, ty)?)?)
        }
        KnownType::Imported(synonym) => Ok(add_synonym(synonyms, exported, synonym.copy(alloc)?)?),
    }
}

/// Adds the entries of types and synonyms.
fn add_types(
    alloc: Global,
    types: &mut Vec<TypeEntry>,
    synonyms: &mut Vec<SynonymEntry>,
    known: &IndexMap<EntityKey<'_>, KnownType<'_>>,
    exports: &[Exported],
) -> Result<(), AllocError>
    requires { HasSoundSynonyms known.now }
    ensures types { OnOk result ((c : ModuleCore) → AreTypesOf c known.now → AreOrdered (map (λ x. x.name) exports.now) → types.old.items ≡ []
        → AreTypeEntries c exports.now types.new.items) }
    ensures synonyms { OnOk result ((c : ModuleCore) → AreTypesOf c known.now → AreOrdered (map (λ x. x.name) exports.now) → synonyms.old.items ≡ []
        → AreSynonymEntries c exports.now synonyms.new.items) }
{
    for exported in exports {
        add_type(alloc, types, synonyms, known, exported)?;
    }
    Ok(())
}

/// Adds an entry of a constructor.
fn push_constructor(
    constructors: &mut Vec<ConstructorEntry>,
    exported: &Exported,
    owner: Entity,
    arguments: usize,
    scheme: Scheme,
) -> Result<(), AllocError>
    ensures { OnOk result (constructors.new.items ≡ constructors.old.items
        ++ record { name = exported.now.name; entity = exported.now.entity; owner = owner; arguments = arguments; scheme = scheme } ∷ []) }
{
    constructors.push(ConstructorEntry {
        name: exported.name.copy()?,
        entity: exported.entity.copy()?,
        owner,
        arguments,
        scheme,
    })?;
    Ok(())
}

/// Adds the entry of a constructor.
fn add_constructor(
    alloc: Global,
    constructors: &mut Vec<ConstructorEntry>,
    home: &Text,
    known: &IndexMap<EntityKey<'_>, KnownConstructor<'_>>,
    exported: &Exported,
) -> Result<(), AllocError>
    requires { HasDistinctParameters known.now }
    ensures { OnOk result ((c : ModuleCore) (xs : List Exported) → home.now ≡ c.name → AreConstructorsOf c known.now
        → AreOrdered (map (λ x. x.name) (xs ++ exported.now ∷ [])) → AreConstructorEntries c xs constructors.old.items
        → AreConstructorEntries c (xs ++ exported.now ∷ []) constructors.new.items) }
{
    let Some(known) = known.get(&key_of(exported)) else {
        return Ok(());
    };
    match known {
        KnownConstructor::Declared(owner, params, constr) => {
            let scheme = declared_scheme(alloc, home, owner, params, constr)?;
            let owner = own_entity(home, owner)?;
            Ok(push_constructor(constructors, exported, owner, constr.args.len(), scheme)?)
        }
        KnownConstructor::Imported(entry) => {
            let scheme = entry.scheme.copy(alloc)?;
            let owner = entry.owner.copy()?;
            Ok(push_constructor(constructors, exported, owner, entry.arguments, scheme)?)
        }
    }
}

/// Adds the entries of constructors.
fn add_constructors(
    alloc: Global,
    constructors: &mut Vec<ConstructorEntry>,
    home: &Text,
    known: &IndexMap<EntityKey<'_>, KnownConstructor<'_>>,
    exports: &[Exported],
) -> Result<(), AllocError>
    requires { HasDistinctParameters known.now }
    ensures { OnOk result ((c : ModuleCore) → home.now ≡ c.name → AreConstructorsOf c known.now → AreOrdered (map (λ x. x.name) exports.now)
        → constructors.old.items ≡ [] → AreConstructorEntries c exports.now constructors.new.items) }
{
    for exported in exports {
        add_constructor(alloc, constructors, home, known, exported)?;
    }
    Ok(())
}

/// The tables for the schemes of exported variables: the core's own variables with their given schemes, and the
/// imported ones.
#[derive(Drop)]
struct Values<'a> {
    home: &'a str,
    own: TextSet<'a>,
    schemes: &'a Schemes,
    imported: IndexMap<EntityKey<'a>, &'a ValueEntry>,
}

// Why: docs/DECISIONS.md, "Schemes stay the same".
/// Returns the scheme of an exported variable.
fn scheme_of<'v>(values: &'v Values<'_>, exported: &'v Exported) -> Option<&'v Scheme>
    ensures { (c : ModuleCore) → AreValuesOf c values.now → (t : TypeScheme)
        → (option_map (λ x. x.now) result ≡ Some t) ↔ HasScheme c (scheme_of values.now.schemes.now) exported.now.entity t }
{
    let name = exported.entity.name.as_str();
    if exported.entity.module.as_str() == values.home && values.own.contains(name) {
        return values.schemes.get(name);
    }
    let entry = values.imported.get(&key_of(exported))?;
    Some(&entry.scheme)
}

/// Adds the entry of a variable.
fn add_value(
    alloc: Global,
    entries: &mut Vec<ValueEntry>,
    values: &Values<'_>,
    exported: &Exported,
) -> Result<(), AllocError>
    ensures { OnOk result ((c : ModuleCore) (xs : List Exported) → AreValuesOf c values.now → AreOrdered (map (λ x. x.name) (xs ++ exported.now ∷ []))
        → AreValueEntries c (scheme_of values.now.schemes.now) xs entries.old.items
        → AreValueEntries c (scheme_of values.now.schemes.now) (xs ++ exported.now ∷ []) entries.new.items) }
{
    let Some(scheme) = scheme_of(values, exported) else {
        return Ok(());
    };
    entries.push(ValueEntry {
        name: exported.name.copy()?,
        entity: exported.entity.copy()?,
        scheme: scheme.copy(alloc)?,
    })?;
    Ok(())
}

/// Adds the entries of variables.
fn add_values(
    alloc: Global,
    entries: &mut Vec<ValueEntry>,
    values: &Values<'_>,
    exports: &[Exported],
) -> Result<(), AllocError>
    ensures { OnOk result ((c : ModuleCore) → AreValuesOf c values.now → AreOrdered (map (λ x. x.name) exports.now) → entries.old.items ≡ []
        → AreValueEntries c (scheme_of values.now.schemes.now) exports.now entries.new.items) }
{
    for exported in exports {
        add_value(alloc, entries, values, exported)?;
    }
    Ok(())
}

/// Returns whether an exported variable is one of the core's own.
fn is_own(home: &str, own: &TextSet<'_>, exported: &Exported) -> bool
    ensures { IsTrue result → (exported.now.entity.«module» ≡ home.now) × Contains own.now exported.now.entity.name }
{
    let name = exported.entity.name.as_str();
    if exported.entity.module.as_str() == home {
        return own.contains(name);
    }
    false
}

/// Returns whether all exported variables are the core's own.
fn are_own(home: &str, own: &TextSet<'_>, exports: &[Exported]) -> bool
    ensures { IsTrue result → All (λ x. (x.entity.«module» ≡ home.now) × Contains own.now x.entity.name) exports.now }
{
    for exported in exports {
        if !is_own(home, own, exported) {
            return false;
        }
    }
    true
}

/// Adds the entry of one of the core's own variables.
fn add_own_value(
    alloc: Global,
    entries: &mut Vec<ValueEntry>,
    schemes: &Schemes,
    exported: &Exported,
) -> Result<(), AllocError>
    ensures { OnOk result ((c : ModuleCore) (xs : List Exported) → IsTop c exported.now.entity
        → AreOrdered (map (λ x. x.name) (xs ++ exported.now ∷ []))
        → AreValueEntries c (scheme_of schemes.now) xs entries.old.items
        → AreValueEntries c (scheme_of schemes.now) (xs ++ exported.now ∷ []) entries.new.items) }
{
    let Some(scheme) = schemes.get(exported.entity.name.as_str()) else {
        return Ok(());
    };
    entries.push(ValueEntry {
        name: exported.name.copy()?,
        entity: exported.entity.copy()?,
        scheme: scheme.copy(alloc)?,
    })?;
    Ok(())
}

/// Returns the entries of the core's own variables.
fn own_value_entries(
    alloc: Global,
    schemes: &Schemes,
    exports: &[Exported],
) -> Result<Vec<ValueEntry>, AllocError>
    ensures { IfOk result (λ entries. (c : ModuleCore) → All (λ x. IsTop c x.entity) exports.now → AreOrdered (map (λ x. x.name) exports.now)
        → AreValueEntries c (scheme_of schemes.now) exports.now entries.items) }
{
    let mut entries = Vec::with_capacity(alloc, exports.len())?;
    for exported in exports {
        add_own_value(alloc, &mut entries, schemes, exported)?;
    }
    Ok(entries)
}

/// The entries of the types and synonyms that a core exports.
#[derive(Drop)]
pub struct TypeEntries {
    pub types: Vec<TypeEntry>,
    pub synonyms: Vec<SynonymEntry>,
}

/// Returns the entries of the types and synonyms that a core exports.
pub fn type_entries(
    alloc: Global,
    core: &Core,
    interfaces: &[&Interface],
) -> Result<TypeEntries, AllocError>
    requires core { IsSomeCore core.now }
    requires interfaces { map (λ f. f.now) interfaces.now ≡ core.now.interfaces }
    ensures types { IfOk result (λ entries. AreTypeEntries core.now core.now.exported_types entries.types.items) }
    ensures synonyms { IfOk result (λ entries. AreSynonymEntries core.now core.now.exported_types entries.synonyms.items) }
{
    let home = core.name.as_str();
    let known = known_types(alloc, home, core.decls.as_slice(), interfaces)?;
    let mut types = Vec::new(alloc);
    let mut synonyms = Vec::new(alloc);
    let exports = core.exported_types.as_slice();
    add_types(alloc, &mut types, &mut synonyms, &known, exports)?;
    Ok(TypeEntries { types, synonyms })
}

/// Returns the entries of the constructors that a core exports.
pub fn constructor_entries(
    alloc: Global,
    core: &Core,
    interfaces: &[&Interface],
) -> Result<Vec<ConstructorEntry>, AllocError>
    requires core { IsSomeCore core.now }
    requires interfaces { map (λ f. f.now) interfaces.now ≡ core.now.interfaces }
    ensures { IfOk result (λ entries. AreConstructorEntries core.now core.now.exported_constructors entries.items) }
{
    let home = &core.name;
    let known = known_constructors(alloc, home.as_str(), core.decls.as_slice(), interfaces)?;
    let mut entries = Vec::new(alloc);
    let exports = core.exported_constructors.as_slice();
    add_constructors(alloc, &mut entries, home, &known, exports)?;
    Ok(entries)
}

// Why: docs/DECISIONS.md, "One pass", "No table of imports".
/// Returns the entries of the variables that a core exports. Needs no table of the imported ones, if it exports none of them.
pub fn value_entries<'a>(
    alloc: Global,
    core: &'a Core,
    schemes: &'a Schemes,
    interfaces: &[&'a Interface],
) -> Result<Vec<ValueEntry>, AllocError>
    requires core { IsSomeCore core.now }
    requires interfaces { map (λ f. f.now) interfaces.now ≡ core.now.interfaces }
    ensures { IfOk result (λ entries. AreValueEntries core.now (scheme_of schemes.now) core.now.exported_values entries.items) }
{
    let home = core.name.as_str();
    let own = bound_variables(alloc, core.decls.as_slice())?;
    let exports = core.exported_values.as_slice();
    if are_own(home, &own, exports) {
        return Ok(own_value_entries(alloc, schemes, exports)?);
    }
    let values = Values {
        home,
        own,
        schemes,
        imported: known_values(alloc, interfaces)?,
    };
    let mut entries = Vec::new(alloc);
    add_values(alloc, &mut entries, &values, exports)?;
    Ok(entries)
}
