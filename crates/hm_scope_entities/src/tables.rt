//! Tables of type constructors, synonyms and constructors, each by the first description of its entity: the module's own, then those of
//! the interfaces in order.

ghost use Rattle.std.specs.Prelude.{◌≡◌, ◌++◌, ◌∷◌, [], List, map, option_map, cond, is_some, Some, IfOk, OnOk};
ghost use Rattle.hm_types.specs.declared.Entity.{Entity};
ghost use Rattle.hm_types.specs.Interfaces.{Exports as Interface};
ghost use Rattle.hm_names.specs.Texts.{same_entity};
ghost use Rattle.hm_names.specs.Types.{entity_of};
ghost use Rattle.hm_names.specs.Described.{TypeDescription, ConstructorDescription, described, declared_types, imported_types, declared_constructors, imported_constructors};
ghost use Rattle.hm_names.specs.Entities.{named};
ghost use Rattle.hm_syntax.specs.Names.{Identifier};
ghost use Rattle.hm_names.specs.Found.{KnownSynonym, arity_among, synonym_among};
ghost use Rattle.hm_scope_tables.specs.KnownTables.{entity_at, known_arity, known_imported, noted, type_description, synonym_description, constructor_description, KnowsTypes, KnowsConstructors, AreTablesOf};

use hm_names::TypeLimits;
use hm_scope_tables::{EntityKey, EntityRef};
use hm_syntax::{Constr, Decl, DeclKind, Module, Name};
use hm_types::{ConstructorEntry, Interface, Synonym, SynonymEntry, TypeEntry};
use indexmap::IndexMap;
use std::alloc::{AllocError, Global};
use std::cell::Cell;
use std::marker::Model;

// Why: docs/DECISIONS.md, "Why not one table", "Two that could share one".
/// The arities of type constructors and constructors, and the synonyms. Has limits for the types that synonyms stand for: the levels of one type,
/// and the nodes that all may still have.
pub struct Tables<'a> {
    types: IndexMap<EntityKey<'a>, usize>,
    constructors: IndexMap<EntityKey<'a>, usize>,
    imported: IndexMap<EntityKey<'a>, &'a Synonym>,
    own: IndexMap<EntityKey<'a>, Synonym>,
    levels: usize,
    nodes: Cell<usize>,
}

impl Drop for Tables<'_> {
    fn drop(self) {
        let Tables {
            types: _types,
            constructors: _constructors,
            imported: _imported,
            own: _own,
            levels: _,
            nodes: _,
        } = self;
    }
}

impl<'a> Model for Tables<'a> {
    ghost use Rattle.std.specs.Prelude.{map, ◌++◌};
    ghost use Rattle.std.specs.Coded.{codes};
    ghost use Rattle.hm_types.specs.Synonyms.{coded_synonym};
    ghost use Rattle.hm_scope_tables.specs.KnownTables.{KnownTables, known_arity, known_imported, known_own};

    ghost Value = { KnownTables };

    ghost coded = { Prim.hlevel (codes, coded_synonym) };

    ghost view = { λ t. record { synonyms = map known_own t.own.entries ++ map known_imported t.imported.entries; types = map known_arity t.types.entries; constructors = map known_arity t.constructors.entries } };
}

/// Records a number of arguments, unless the entity has one.
fn note_arity<'a>(
    table: &mut IndexMap<EntityKey<'a>, usize>,
    key: EntityKey<'a>,
    count: usize,
) -> Result<(), AllocError>
    ensures { OnOk result (map known_arity table.new.entries ≡ noted (map known_arity table.old.entries) (known_arity (key.entry, count))) }
{
    match table.get(&key) {
        Some(_) => Ok(()),
        None => {
            table.insert(key, count)?;
            Ok(())
        }
    }
}

/// Records the type that a declaration declares.
fn add_declared_type<'a>(
    types: &mut IndexMap<EntityKey<'a>, usize>,
    home: &'a str,
    decl: &'a Decl,
) -> Result<(), AllocError>
    ensures { OnOk result ((before : List TypeDescription) (synonyms : List KnownSynonym) → KnowsTypes before (map known_arity types.old.entries) synonyms
        → KnowsTypes (before ++ declared_types home.now (decl.now ∷ [])) (map known_arity types.new.entries) synonyms) }
{
    match &decl.kind {
        DeclKind::DataType { name, params, .. } => {
            let key = EntityKey {
                module: home,
                name: name.as_str(),
            };
            Ok(note_arity(types, key, params.len())?)
        }
        DeclKind::Newtype { name, params, .. } => {
            let key = EntityKey {
                module: home,
                name: name.as_str(),
            };
            Ok(note_arity(types, key, params.len())?)
        }
        DeclKind::Synonym { name, params, .. } => {
            let key = EntityKey {
                module: home,
                name: name.as_str(),
            };
            Ok(note_arity(types, key, params.len())?)
        }
        DeclKind::Signature { .. } => Ok(()),
        DeclKind::Clause { .. } => Ok(()),
        DeclKind::Pattern { .. } => Ok(()),
    }
}

/// Records the types that declarations declare.
fn add_declared_types<'a>(
    types: &mut IndexMap<EntityKey<'a>, usize>,
    home: &'a str,
    decls: &'a [Decl],
) -> Result<(), AllocError>
    ensures { OnOk result ((before : List TypeDescription) (synonyms : List KnownSynonym) → KnowsTypes before (map known_arity types.old.entries) synonyms
        → KnowsTypes (before ++ declared_types home.now decls.now) (map known_arity types.new.entries) synonyms) }
{
    'decls: for decl in decls {
        add_declared_type(types, home, decl)?;
    }
    Ok(())
}

/// Records a constructor of a declaration.
fn add_constructor<'a>(
    constructors: &mut IndexMap<EntityKey<'a>, usize>,
    home: &'a str,
    constr: &'a Constr,
) -> Result<(), AllocError>
    ensures { OnOk result ((before : List ConstructorDescription) (t : Identifier) → KnowsConstructors before (map known_arity constructors.old.entries)
        → KnowsConstructors (before ++ described home.now t constr.now ∷ []) (map known_arity constructors.new.entries)) }
{
    let key = EntityKey {
        module: home,
        name: constr.name.as_str(),
    };
    Ok(note_arity(constructors, key, constr.args.len())?)
}

/// Records the constructors of a declaration.
fn add_constructor_row<'a>(
    constructors: &mut IndexMap<EntityKey<'a>, usize>,
    home: &'a str,
    constrs: &'a [Constr],
) -> Result<(), AllocError>
    ensures { OnOk result ((before : List ConstructorDescription) (t : Identifier) → KnowsConstructors before (map known_arity constructors.old.entries)
        → KnowsConstructors (before ++ map (described home.now t) constrs.now) (map known_arity constructors.new.entries)) }
{
    'constrs: for constr in constrs {
        add_constructor(constructors, home, constr)?;
    }
    Ok(())
}

/// Records the constructors of a declaration, if it declares a type.
fn add_constructors_of<'a>(
    constructors: &mut IndexMap<EntityKey<'a>, usize>,
    home: &'a str,
    decl: &'a Decl,
) -> Result<(), AllocError>
    ensures { OnOk result ((before : List ConstructorDescription) → KnowsConstructors before (map known_arity constructors.old.entries)
        → KnowsConstructors (before ++ declared_constructors home.now (decl.now ∷ [])) (map known_arity constructors.new.entries)) }
{
    match &decl.kind {
        DeclKind::DataType { constrs, .. } => Ok(add_constructor_row(constructors, home, constrs)?),
        DeclKind::Newtype { constr, .. } => Ok(add_constructor(constructors, home, constr)?),
        DeclKind::Synonym { .. } => Ok(()),
        DeclKind::Signature { .. } => Ok(()),
        DeclKind::Clause { .. } => Ok(()),
        DeclKind::Pattern { .. } => Ok(()),
    }
}

/// Records the constructors of declarations.
fn add_declared_constructors<'a>(
    constructors: &mut IndexMap<EntityKey<'a>, usize>,
    home: &'a str,
    decls: &'a [Decl],
) -> Result<(), AllocError>
    ensures { OnOk result ((before : List ConstructorDescription) → KnowsConstructors before (map known_arity constructors.old.entries)
        → KnowsConstructors (before ++ declared_constructors home.now decls.now) (map known_arity constructors.new.entries)) }
{
    'decls: for decl in decls {
        add_constructors_of(constructors, home, decl)?;
    }
    Ok(())
}

/// Records the types of an interface.
fn add_types<'a>(
    types: &mut IndexMap<EntityKey<'a>, usize>,
    entries: &'a [TypeEntry],
) -> Result<(), AllocError>
    ensures { OnOk result ((before : List TypeDescription) (synonyms : List KnownSynonym) → KnowsTypes before (map known_arity types.old.entries) synonyms
        → KnowsTypes (before ++ map type_description entries.now) (map known_arity types.new.entries) synonyms) }
{
    'entries: for entry in entries {
        note_arity(
            types,
            EntityKey::of(&EntityRef::of(&entry.entity)),
            entry.arity,
        )?;
    }
    Ok(())
}

/// Records a synonym of an interface, unless its entity is known as a type.
fn add_synonym<'a>(
    types: &mut IndexMap<EntityKey<'a>, usize>,
    synonyms: &mut IndexMap<EntityKey<'a>, &'a Synonym>,
    entry: &'a SynonymEntry,
) -> Result<(), AllocError>
    ensures { OnOk result ((before : List TypeDescription) → KnowsTypes before (map known_arity types.old.entries) (map known_imported synonyms.old.entries)
        → KnowsTypes (before ++ synonym_description entry.now ∷ []) (map known_arity types.new.entries) (map known_imported synonyms.new.entries)) }
{
    let key = EntityKey::of(&EntityRef::of(&entry.entity));
    match types.get(&key) {
        Some(_) => Ok(()),
        None => {
            types.insert(key, entry.synonym.parameters())?;
            synonyms.insert(key, &entry.synonym)?;
            Ok(())
        }
    }
}

/// Records the synonyms of an interface.
fn add_synonyms<'a>(
    types: &mut IndexMap<EntityKey<'a>, usize>,
    synonyms: &mut IndexMap<EntityKey<'a>, &'a Synonym>,
    entries: &'a [SynonymEntry],
) -> Result<(), AllocError>
    ensures { OnOk result ((before : List TypeDescription) → KnowsTypes before (map known_arity types.old.entries) (map known_imported synonyms.old.entries)
        → KnowsTypes (before ++ map synonym_description entries.now) (map known_arity types.new.entries) (map known_imported synonyms.new.entries)) }
{
    'entries: for entry in entries {
        add_synonym(types, synonyms, entry)?;
    }
    Ok(())
}

// Why: docs/DECISIONS.md, "Two descriptions".
/// Records the types and synonyms of interfaces.
fn add_imported_types<'a>(
    types: &mut IndexMap<EntityKey<'a>, usize>,
    synonyms: &mut IndexMap<EntityKey<'a>, &'a Synonym>,
    interfaces: &[&'a Interface],
) -> Result<(), AllocError>
    ensures { OnOk result ((before : List TypeDescription) → KnowsTypes before (map known_arity types.old.entries) (map known_imported synonyms.old.entries)
        → KnowsTypes (before ++ imported_types (map (λ f.
        f.now) interfaces.now)) (map known_arity types.new.entries) (map known_imported synonyms.new.entries)) }
{
    'interfaces: for interface in interfaces {
        add_types(types, interface.types())?;
        add_synonyms(types, synonyms, interface.synonyms())?;
    }
    Ok(())
}

/// Records the constructors of an interface.
fn add_constructor_entries<'a>(
    constructors: &mut IndexMap<EntityKey<'a>, usize>,
    entries: &'a [ConstructorEntry],
) -> Result<(), AllocError>
    ensures { OnOk result ((before : List ConstructorDescription) → KnowsConstructors before (map known_arity constructors.old.entries)
        → KnowsConstructors (before ++ map constructor_description entries.now) (map known_arity constructors.new.entries)) }
{
    'entries: for entry in entries {
        note_arity(
            constructors,
            EntityKey::of(&EntityRef::of(&entry.entity)),
            entry.arguments,
        )?;
    }
    Ok(())
}

/// Records the constructors of interfaces.
fn add_imported_constructors<'a>(
    constructors: &mut IndexMap<EntityKey<'a>, usize>,
    interfaces: &[&'a Interface],
) -> Result<(), AllocError>
    ensures { OnOk result ((before : List ConstructorDescription) → KnowsConstructors before (map known_arity constructors.old.entries)
        → KnowsConstructors (before ++ imported_constructors (map (λ f. f.now) interfaces.now)) (map known_arity constructors.new.entries)) }
{
    'interfaces: for interface in interfaces {
        add_constructor_entries(constructors, interface.constructors())?;
    }
    Ok(())
}

/// The arity of each type constructor, and the synonyms of interfaces.
#[derive(Drop)]
struct KnownTypes<'a> {
    types: IndexMap<EntityKey<'a>, usize>,
    imported: IndexMap<EntityKey<'a>, &'a Synonym>,
}

/// Returns the types and synonyms of a module's declarations and of these interfaces.
fn known_types<'a>(
    alloc: Global,
    home: &'a str,
    decls: &'a [Decl],
    interfaces: &[&'a Interface],
) -> Result<KnownTypes<'a>, AllocError>
    ensures { IfOk result (λ known. KnowsTypes (declared_types home.now decls.now
        ++ imported_types (map (λ f. f.now) interfaces.now)) (map known_arity known.types.entries) (map known_imported known.imported.entries)) }
{
    let mut types = IndexMap::new(alloc);
    add_declared_types(&mut types, home, decls)?;
    let mut imported = IndexMap::new(alloc);
    add_imported_types(&mut types, &mut imported, interfaces)?;
    Ok(KnownTypes { types, imported })
}

/// Returns the constructors of a module's declarations and of these interfaces.
fn known_constructors<'a>(
    alloc: Global,
    home: &'a str,
    decls: &'a [Decl],
    interfaces: &[&'a Interface],
) -> Result<IndexMap<EntityKey<'a>, usize>, AllocError>
    ensures { IfOk result (λ known. KnowsConstructors (declared_constructors home.now decls.now
        ++ imported_constructors (map (λ f. f.now) interfaces.now)) (map known_arity known.entries)) }
{
    let mut constructors = IndexMap::new(alloc);
    add_declared_constructors(&mut constructors, home, decls)?;
    add_imported_constructors(&mut constructors, interfaces)?;
    Ok(constructors)
}

impl<'a> Tables<'a> {
    /// Returns the tables of a module for these interfaces, without the module's own synonyms.
    pub fn of(
        alloc: Global,
        program: &'a Module,
        interfaces: &[&'a Interface],
        limits: TypeLimits,
    ) -> Result<Tables<'a>, AllocError>
        ensures { IfOk result (λ tables. AreTablesOf program.now (map (λ f. f.now) interfaces.now) tables) }
    {
        let home = program.header.name.as_str();
        let decls = program.decls.as_slice();
        let known = known_types(alloc, home, decls, interfaces)?;
        let constructors = known_constructors(alloc, home, decls, interfaces)?;
        Ok(Tables {
            types: known.types,
            constructors,
            imported: known.imported,
            own: IndexMap::new(alloc),
            levels: limits.levels,
            nodes: Cell::new(limits.nodes),
        })
    }

    /// Returns the same tables without synonyms, so that none is expanded.
    pub fn without_synonyms(self, alloc: Global) -> Tables<'a>
        ensures types { result.types ≡ self.entry.types }
        ensures constructors { result.constructors ≡ self.entry.constructors }
        ensures synonyms { result.synonyms ≡ [] }
    {
        let Tables {
            types,
            constructors,
            imported: _imported,
            own: _own,
            levels,
            nodes,
        } = self;
        Tables {
            types,
            constructors,
            imported: IndexMap::new(alloc),
            own: IndexMap::new(alloc),
            levels,
            nodes,
        }
    }

    /// Returns the number of levels of a type that a synonym stands for.
    pub fn levels(&self) -> usize {
        self.levels
    }

    /// Returns the number of nodes that types for synonyms may still have. Code that makes nodes must count them down.
    pub fn nodes(&self) -> &Cell<usize> {
        &self.nodes
    }

    /// Adds a synonym of the module with a finished right side.
    pub fn add_synonym(
        &mut self,
        home: &'a str,
        name: &'a str,
        synonym: Synonym,
    ) -> Result<(), AllocError>
        ensures types { OnOk result (self.new.types ≡ self.old.types) }
        ensures constructors { OnOk result (self.new.constructors ≡ self.old.constructors) }
        ensures synonyms { OnOk result ((e : Entity) → synonym_among self.new.synonyms e
            ≡ cond (same_entity e (named home.now name.now)) (Some synonym) (synonym_among self.old.synonyms e)) }
    {
        let key = EntityKey { module: home, name };
        self.own.insert(key, synonym)?;
        Ok(())
    }

    /// Returns the number of arguments of a type constructor.
    pub fn type_arity(&self, entity: &EntityRef<'_>) -> Option<usize>
        ensures { result ≡ arity_among self.now.types entity.now }
    {
        arity_in(&self.types, entity)
    }

    /// Returns the number of arguments of a constructor.
    pub fn constructor_arity(&self, entity: &EntityRef<'_>) -> Option<usize>
        ensures { result ≡ arity_among self.now.constructors entity.now }
    {
        arity_in(&self.constructors, entity)
    }

    /// Returns the synonym with a resolved name.
    pub fn synonym<'s>(&'s self, name: &'s Name) -> Option<&'s Synonym>
        ensures { option_map (λ s. s.now) result ≡ synonym_among self.now.synonyms (entity_of name.now) }
    {
        let key = key_of(name);
        match self.own.get(&key) {
            Some(synonym) => Some(synonym),
            None => match self.imported.get(&key) {
                Some(synonym) => Some(*synonym),
                None => None,
            },
        }
    }
}

/// Returns the number of arguments of an entity in a table.
fn arity_in(table: &IndexMap<EntityKey<'_>, usize>, entity: &EntityRef<'_>) -> Option<usize>
    ensures { result ≡ arity_among (map known_arity table.now.entries) entity.now }
{
    let key = EntityKey {
        module: entity.module(),
        name: entity.name(),
    };
    match table.get(&key) {
        None => None,
        Some(arity) => Some(*arity),
    }
}

/// Returns the key of a resolved name.
fn key_of(name: &Name) -> EntityKey<'_>
    ensures { entity_at result ≡ entity_of name.now }
{
    match &name.qualifier {
        None => EntityKey {
            module: "",
            name: name.as_str(),
        },
        Some(qualifier) => EntityKey {
            module: qualifier.as_str(),
            name: name.as_str(),
        },
    }
}
