//! A module's declared synonyms, and their references to each other (Report, section 4.2.2).

ghost use Rattle.std.specs.Prelude.{◌≡◌, ◌<◌, ◌⊎◌, ℕ, List, [], ◌∷◌, ◌++◌, IfOk, OnOk, IfSome, IfNone, Contains, length, map, slice_index_or};
ghost use Rattle.hm_syntax.specs.declared.ast.Module.{Module};
ghost use Rattle.hm_types.specs.Interfaces.{Exports as Interface};
ghost use Rattle.hm_syntax.specs.Trees.{Declaration};
ghost use Rattle.hm_names.specs.Entities.{own};
ghost use Rattle.hm_names.specs.Scope.{Means};
ghost use Rattle.hm_names.specs.declared.namespace.Namespace.TheVariants.{Types};
ghost use Rattle.hm_names.specs.Bindings.{IsScopeOf};
ghost use Rattle.hm_scope.specs.Synonyms.{declaration_of, AreSynonyms, AreOwnSynonyms, IsOnce, IsReferenceGraph, NamesOwn, RefersIn, AddsReferences};

use crate::type_names::add_type;
use hm_graph::Digraph;
use hm_names::{LentNames, Namespace};
use hm_scope_tables::{Meaning, Scope, TextSet};
use hm_syntax::{Decl, DeclKind, Module, Name, TypeExpr};
use std::alloc::{AllocError, Global};

/// A declared synonym.
#[derive(Drop)]
pub struct OwnSynonym<'a> {
    pub name: &'a Name,
    pub params: &'a [Name],
    pub ty: &'a TypeExpr,
}

/// A module's declared synonyms, numbered in order, each name once.
#[derive(Drop)]
pub struct OwnSynonyms<'a> {
    pub names: TextSet<'a>,
    /// The first declaration of each name.
    pub declared: Vec<OwnSynonym<'a>>,
}

/// Adds a synonym, unless its name was added before.
fn add_synonym<'a>(
    synonyms: &mut OwnSynonyms<'a>,
    synonym: OwnSynonym<'a>,
) -> Result<(), AllocError>
    ensures { OnOk result ((ds : List Declaration) → AreOwnSynonyms ds synonyms.old → AreOwnSynonyms (ds ++ declaration_of synonym.entry ∷ []) synonyms.new) }
{
    if synonyms.names.insert(synonym.name.as_str())? {
        synonyms.declared.push(synonym)?;
    }
    Ok(())
}

/// Adds the synonym that a declaration declares.
fn add_declared<'a>(synonyms: &mut OwnSynonyms<'a>, decl: &'a Decl) -> Result<(), AllocError>
    ensures { OnOk result ((ds : List Declaration) → AreOwnSynonyms ds synonyms.old → AreOwnSynonyms (ds ++ decl.now ∷ []) synonyms.new) }
{
    match &decl.kind {
        DeclKind::Synonym { name, params, ty } => Ok(add_synonym(
            synonyms,
            OwnSynonym { name, params, ty },
        )?),
        DeclKind::DataType { .. } => Ok(()),
        DeclKind::Newtype { .. } => Ok(()),
        DeclKind::Signature { .. } => Ok(()),
        DeclKind::Clause { .. } => Ok(()),
        DeclKind::Pattern { .. } => Ok(()),
    }
}

/// Returns the synonyms of a module.
pub fn own_synonyms<'a>(alloc: Global, decls: &'a [Decl]) -> Result<OwnSynonyms<'a>, AllocError>
    ensures { IfOk result (λ synonyms. AreOwnSynonyms decls.now synonyms) }
{
    let mut synonyms = OwnSynonyms {
        names: TextSet::new(alloc),
        declared: Vec::new(alloc),
    };
    'decls: for decl in decls {
        add_declared(&mut synonyms, decl)?;
    }
    Ok(synonyms)
}

/// Returns the number of the module's synonym that a type constructor means, if it means one.
pub(crate) fn own_synonym(
    scope: &Scope<'_>,
    home: &str,
    names: &TextSet<'_>,
    name: &Name,
) -> Option<usize>
    ensures within { IfSome result (λ j. j < length names.now) }
    ensures own { IfSome result (λ j. (m : Module) (fs : List Interface) → IsScopeOf m fs scope.now → home.now ≡ m.header.name.text
        → Means m fs Types name.now (own m (slice_index_or names.now j []))) }
    ensures none { IfNone result ((m : Module) (fs : List Interface) → IsScopeOf m fs scope.now → home.now ≡ m.header.name.text → (x : List ℕ)
        → Contains names.now x → ¬ Means m fs Types name.now (own m x)) }
{
    match scope.meaning(Namespace::Types, name) {
        Meaning::Unbound => None,
        Meaning::Ambiguous => None,
        Meaning::Entity(entity) => {
            if entity.module() == home {
                names.place_of(entity.name())
            } else {
                None
            }
        }
    }
}

/// The names of a module's synonyms, and the scope in which type constructors are looked up.
#[derive(Clone, Copy)]
pub(crate) struct ScopedNames<'r, 'a> {
    pub(crate) scope: &'r Scope<'a>,
    pub(crate) home: &'r str,
    pub(crate) names: &'r TextSet<'a>,
}

/// Adds the edge from a synonym to the one that a type constructor means, if it is one of the module.
fn add_reference(
    graph: &mut Digraph,
    scoped: &ScopedNames<'_, '_>,
    from: usize,
    name: &Name,
) -> Result<(), AllocError>
    requires nodes { length graph.old ≡ length scoped.now.names.now }
    requires from { from < length scoped.now.names.now }
    ensures nodes { OnOk result (length graph.new ≡ length graph.old) }
    ensures edges { OnOk result ((m : Module) (fs : List Interface) → IsScopeOf m fs scoped.now.scope.now → scoped.now.home.now ≡ m.header.name.text
        → IsOnce scoped.now.names.now →
        AddsReferences scoped.now.names.now graph.old graph.new (λ i y. (i ≡ from) × Means m fs Types name.now (own m y))) }
{
    match own_synonym(scoped.scope, scoped.home, scoped.names, name) {
        None => Ok(()),
        Some(to) => {
            graph.add(from, to)?;
            Ok(())
        }
    }
}

/// Adds the edges from a synonym to the synonyms among these type constructors.
fn add_references(
    graph: &mut Digraph,
    scoped: &ScopedNames<'_, '_>,
    from: usize,
    used: &[&Name],
) -> Result<(), AllocError>
    requires nodes { length graph.old ≡ length scoped.now.names.now }
    requires from { from < length scoped.now.names.now }
    ensures nodes { OnOk result (length graph.new ≡ length graph.old) }
    ensures edges { OnOk result ((m : Module) (fs : List Interface) → IsScopeOf m fs scoped.now.scope.now → scoped.now.home.now ≡ m.header.name.text
        → IsOnce scoped.now.names.now →
        AddsReferences scoped.now.names.now graph.old graph.new (λ i y. (i ≡ from) × NamesOwn m fs (map (λ n. n.now) used.now) y)) }
{
    'used: for name in used {
        add_reference(graph, scoped, from, name)?;
    }
    Ok(())
}

/// Adds the edges of a declaration.
fn add_declaration(
    alloc: Global,
    graph: &mut Digraph,
    scoped: &ScopedNames<'_, '_>,
    decl: &Decl,
) -> Result<(), AllocError>
    requires nodes { length graph.old ≡ length scoped.now.names.now }
    ensures nodes { OnOk result (length graph.new ≡ length graph.old) }
    ensures edges { OnOk result ((m : Module) (fs : List Interface) → IsScopeOf m fs scoped.now.scope.now → scoped.now.home.now ≡ m.header.name.text
        → IsOnce scoped.now.names.now →
        AddsReferences scoped.now.names.now graph.old graph.new (λ i y. RefersIn m fs (decl.now ∷ []) (slice_index_or scoped.now.names.now i []) y)) }
{
    match &decl.kind {
        DeclKind::Synonym { name, ty, .. } => {
            match scoped.names.place_of(name.as_str()) {
                None => Ok(()),
                Some(from) => {
                    let mut used = LentNames::new(alloc);
                    add_type(&mut used, ty)?;
                    Ok(add_references(graph, scoped, from, used.as_slice())?)
                }
            }
        }
        DeclKind::DataType { .. } => Ok(()),
        DeclKind::Newtype { .. } => Ok(()),
        DeclKind::Signature { .. } => Ok(()),
        DeclKind::Clause { .. } => Ok(()),
        DeclKind::Pattern { .. } => Ok(()),
    }
}

/// Returns the graph of a module's synonyms, with an edge from each synonym to those to which it refers.
pub fn reference_graph(
    alloc: Global,
    scope: &Scope<'_>,
    program: &Module,
    names: &TextSet<'_>,
) -> Result<Digraph, AllocError>
    ensures nodes { IfOk result (λ graph. length graph ≡ length names.now) }
    ensures edges { IfOk result (λ graph. (fs : List Interface) → IsScopeOf program.now fs scope.now → AreSynonyms program.now.decls names.now
        → IsReferenceGraph program.now fs names.now graph) }
{
    let mut graph = Digraph::new(alloc, names.len())?;
    let scoped = ScopedNames {
        scope,
        home: program.header.name.as_str(),
        names,
    };
    'decls: for decl in program.decls.as_slice() {
        add_declaration(alloc, &mut graph, &scoped, decl)?;
    }
    Ok(graph)
}
