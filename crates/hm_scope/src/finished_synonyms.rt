//! A module's own synonyms, with their right sides resolved and expanded (Report, section 4.2.2).

ghost use Rattle.std.specs.Prelude.{◌≡◌, ◌↔◌, ◌<◌, ◌≤◌, slice_index_or, ℕ, List, [], IfOk, OnOk, Some, IsTrue, true, false, length};
ghost use Rattle.hm_types.specs.Interfaces.{Exports as Interface};
ghost use Rattle.hm_types.specs.declared.Entity.{Entity};
ghost use Rattle.hm_syntax.specs.declared.ast.Module.{Module};
ghost use Rattle.hm_names.specs.Bindings.{IsScopeOf};
ghost use Rattle.hm_scope.specs.declared.declared_synonyms.OwnSynonym.{OwnSynonym};
ghost use Rattle.hm_syntax.specs.Names.{Identifier};
ghost use Rattle.hm_names.specs.Entities.{named};
ghost use Rattle.hm_names.specs.Faults.Phases.{IsWellFormed};
ghost use Rattle.hm_names.specs.Found.{resolver_of, synonym_among};
ghost use Rattle.hm_scope_tables.specs.KnownTables.{AreTablesOf, lookups_of};
ghost use Rattle.hm_names.specs.Resolved.{Resolver, type_with};
ghost use Rattle.hm_names.specs.DeclaredSynonyms.{AreAmong, IsSound};
ghost use Rattle.hm_scope.specs.NeededSynonyms.{ResolvesNeeded};
ghost use Rattle.hm_scope.specs.Synonyms.{AreOwnSynonyms, IsReferenceGraph, IsExpandable, Finishes};
ghost use Rattle.hm_names.specs.Texts.{same_entity};
ghost use Rattle.hm_names.specs.Types.{synonym_of, program_of, type_in};
ghost use Rattle.hm_names.specs.Variables.{texts, type_variables};
ghost use Rattle.hm_types.specs.Shape.{type_of};

use crate::declared_synonyms::OwnSynonym;
use crate::needed_synonyms::{DeclaredSynonyms, needed_order};
use hm_names::{LentNames, TypeVariables, add_type, monotype, parameters_of};
use hm_scope_entities::Tables;
use hm_scope_resolve::Resolving;
use hm_scope_tables::Scope;
use hm_syntax::{Module, Name, TypeExpr};
use hm_types::{Synonym, Ty};
use std::alloc::{AllocError, Global};

/// Returns whether a type has only these variables.
fn is_closed(
    alloc: Global,
    variables: &TypeVariables<'_>,
    ty: &TypeExpr,
) -> Result<bool, AllocError>
    ensures { IfOk result (λ closed. IsTrue closed ↔ AreAmong variables.now (type_variables ty.now)) }
{
    let mut used = LentNames::new(alloc);
    add_type(&mut used, ty)?;
    'used: for name in used.as_slice() {
        if !variables.contains(name.as_str()) {
            return Ok(false);
        }
    }
    Ok(true)
}

/// Returns a type with its names resolved and its synonyms expanded.
fn resolved_type(
    alloc: Global,
    scope: &Scope<'_>,
    tables: &Tables<'_>,
    ty: &TypeExpr,
) -> Result<TypeExpr, AllocError>
    ensures { IfOk result (λ resolved. resolved ≡ type_with (resolver_of (lookups_of scope.now tables.now)) ty.now) }
{
    let mut resolving = Resolving::new(alloc, scope, tables);
    resolving.type_expr(alloc, ty)
}

/// Returns the resolved and expanded type over these variables.
fn type_over(
    alloc: Global,
    scope: &Scope<'_>,
    tables: &Tables<'_>,
    variables: &TypeVariables<'_>,
    ty: &TypeExpr,
) -> Result<Ty, AllocError>
    ensures { IfOk result (λ t. type_of t ≡ program_of (type_in variables.now (type_with (resolver_of (lookups_of scope.now tables.now)) ty.now))) }
{
    let resolved = resolved_type(alloc, scope, tables, ty)?;
    monotype(alloc, variables, &resolved)
}

/// Returns a synonym with its right side resolved and expanded, or `None` if it has variables other than these.
fn finished_over(
    alloc: Global,
    scope: &Scope<'_>,
    tables: &Tables<'_>,
    variables: &TypeVariables<'_>,
    ty: &TypeExpr,
) -> Result<Option<Synonym>, AllocError>
    ensures { IfOk result (λ synonym. (ps : List Identifier) → variables.now ≡ texts ps → IsSound ps ty.now
        → synonym ≡ Some (synonym_of ps (type_with (resolver_of (lookups_of scope.now tables.now)) ty.now))) }
{
    if !is_closed(alloc, variables, ty)? {
        return Ok(None);
    }
    let body = type_over(alloc, scope, tables, variables, ty)?;
    Ok(Some(Synonym::new(variables.len(), body)))
}

/// Returns a synonym with its right side resolved and expanded, or `None` if a variable isn't a parameter.
fn finished(
    alloc: Global,
    scope: &Scope<'_>,
    tables: &Tables<'_>,
    params: &[Name],
    ty: &TypeExpr,
) -> Result<Option<Synonym>, AllocError>
    ensures { IfOk result (λ synonym. IsSound params.now ty.now
        → synonym ≡ Some (synonym_of params.now (type_with (resolver_of (lookups_of scope.now tables.now)) ty.now))) }
{
    let variables = parameters_of(alloc, params)?;
    finished_over(alloc, scope, tables, &variables, ty)
}

/// Adds a synonym to the tables. The synonyms on its right side must be in the tables already.
fn add_finished<'a>(
    alloc: Global,
    tables: &mut Tables<'a>,
    scope: &Scope<'_>,
    home: &'a str,
    synonym: &OwnSynonym<'a>,
) -> Result<(), AllocError>
    ensures types { OnOk result (tables.new.types ≡ tables.old.types) }
    ensures constructors { OnOk result (tables.new.constructors ≡ tables.old.constructors) }
    ensures others { OnOk result ((e : Entity) → same_entity e (named home.now synonym.now.name.now.text) ≡ false
        → synonym_among tables.new.synonyms e ≡ synonym_among tables.old.synonyms e) }
    ensures synonym { OnOk result (IsSound synonym.now.params.now synonym.now.ty.now → (e : Entity)
        → same_entity e (named home.now synonym.now.name.now.text) ≡ true →
        synonym_among tables.new.synonyms e ≡ Some (synonym_of synonym.now.params.now (type_with (resolver_of (lookups_of scope.now tables.old)) synonym.now.ty.now))) }
{
    match finished(alloc, scope, tables, synonym.params, synonym.ty)? {
        None => Ok(()),
        Some(finished) => Ok(tables.add_synonym(home, synonym.name.as_str(), finished)?),
    }
}

/// A module's declared synonyms, with the scope that resolves their right sides.
#[derive(Clone, Copy)]
struct Unfinished<'r, 'a> {
    scope: &'r Scope<'a>,
    home: &'a str,
    declared: &'r [OwnSynonym<'a>],
}

/// Adds the synonym with this number, if there is one.
fn add_numbered<'a>(
    alloc: Global,
    tables: &mut Tables<'a>,
    unfinished: &Unfinished<'_, 'a>,
    number: usize,
) -> Result<(), AllocError>
    ensures types { OnOk result (tables.new.types ≡ tables.old.types) }
    ensures constructors { OnOk result (tables.new.constructors ≡ tables.old.constructors) }
    ensures none { OnOk result (length unfinished.now.declared.now ≤ number → tables.new.synonyms ≡ tables.old.synonyms) }
    ensures others { OnOk result ((d : OwnSynonym) → number < length unfinished.now.declared.now → (e : Entity)
        → same_entity e (named unfinished.now.home.now (slice_index_or unfinished.now.declared.now number d).name.now.text) ≡ false
        → synonym_among tables.new.synonyms e ≡ synonym_among tables.old.synonyms e) }
    ensures synonym { OnOk result ((d : OwnSynonym) → number < length unfinished.now.declared.now
        → IsSound (slice_index_or unfinished.now.declared.now number d).params.now (slice_index_or unfinished.now.declared.now number d).ty.now →
        (e : Entity) → same_entity e (named unfinished.now.home.now (slice_index_or unfinished.now.declared.now number d).name.now.text) ≡ true →
        synonym_among tables.new.synonyms e ≡ Some (synonym_of (slice_index_or unfinished.now.declared.now number d).params.now (type_with (resolver_of (lookups_of unfinished.now.scope.now tables.old)) (slice_index_or unfinished.now.declared.now number d).ty.now))) }
{
    if number >= unfinished.declared.len() {
        return Ok(());
    }
    Ok(add_finished(
        alloc,
        tables,
        unfinished.scope,
        unfinished.home,
        &unfinished.declared[number],
    )?)
}

// Why: docs/DECISIONS.md, "Order of synonyms".
/// Adds the synonyms with these numbers.
fn add_in_order<'a>(
    alloc: Global,
    tables: &mut Tables<'a>,
    unfinished: &Unfinished<'_, 'a>,
    order: &[usize],
) -> Result<(), AllocError>
    ensures types { OnOk result (tables.new.types ≡ tables.old.types) }
    ensures constructors { OnOk result (tables.new.constructors ≡ tables.old.constructors) }
    ensures finished { OnOk result ((m : Module) (fs : List Interface) (r : Resolver) → IsScopeOf m fs unfinished.now.scope.now
        → unfinished.now.home.now ≡ m.header.name.text → IsExpandable m fs r unfinished.now.declared.now order.now tables.old.synonyms
        → Finishes r unfinished.now.home.now unfinished.now.declared.now order.now tables.old.synonyms tables.new.synonyms) }
{
    'order: for number in order {
        add_numbered(alloc, tables, unfinished, *number)?;
    }
    Ok(())
}

// Why: docs/DECISIONS.md, "Unused synonyms".
/// Adds the synonyms of a module that its core needs, each after those on its right side. May omit synonyms of a module with faults.
pub(crate) fn add_synonyms<'a>(
    alloc: Global,
    tables: &mut Tables<'a>,
    scope: &Scope<'a>,
    program: &'a Module,
    synonyms: &DeclaredSynonyms<'_, 'a>,
) -> Result<(), AllocError>
    requires synonyms { AreOwnSynonyms program.now.decls synonyms.now.own.now }
    requires nodes { length synonyms.now.graph.now ≡ length synonyms.now.own.now.names }
    ensures types { OnOk result (tables.new.types ≡ tables.old.types) }
    ensures constructors { OnOk result (tables.new.constructors ≡ tables.old.constructors) }
    ensures synonyms { OnOk result ((fs : List Interface) → IsScopeOf program.now fs scope.now → AreTablesOf program.now fs tables.old
        → IsReferenceGraph program.now fs synonyms.now.own.now.names synonyms.now.graph.now → IsWellFormed program.now fs
        → ResolvesNeeded program.now fs synonyms.now.exported.now tables.new.synonyms) }
{
    let order = needed_order(alloc, scope, program, synonyms)?;
    let unfinished = Unfinished {
        scope,
        home: program.header.name.as_str(),
        declared: &synonyms.own.declared,
    };
    Ok(add_in_order(alloc, tables, &unfinished, &order)?)
}
