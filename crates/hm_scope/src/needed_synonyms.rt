//! The synonyms of a module that its core needs: those that are exported, those that a type outside of synonyms uses, and those to which
//! these refer.

ghost use Rattle.std.specs.Prelude.{◌≡◌, ◌↔◌, ◌⊎◌, ◌∷◌, ℕ, List, [], true, false, length, map, filter, slice_index_or, IfOk, OnOk, Contains};
ghost use Rattle.hm_syntax.specs.declared.ast.Module.{Module};
ghost use Rattle.hm_types.specs.Interfaces.{Exports as Interface};
ghost use Rattle.hm_names.specs.Bindings.{IsScopeOf};
ghost use Rattle.hm_names.specs.Texts.{is_text_among};
ghost use Rattle.hm_scope.specs.NeededSynonyms.{Exports, kept_by, AddsMarks, MarksNames, MarksNeeded, AreNeeded, IsNeededOrder};
ghost use Rattle.hm_scope.specs.Synonyms.{IsOnce, AreOwnSynonyms};
ghost use Rattle.hm_scope.specs.UsedTypes.{all_types_outside};

use crate::declared_synonyms::{OwnSynonym, OwnSynonyms, ScopedNames, own_synonym};
use crate::used_types::add_all_outside;
use hm_graph::Digraph;
use hm_names::{LentNames, Namespace};
use hm_scope_resolve::{copy_name, copy_names};
use hm_scope_tables::{Binding, Scope, TextSet};
use hm_syntax::{Decl, DeclKind, Module, Name, TypeExpr, TypeKind};
use std::alloc::{AllocError, Global};

/// Adds the name of the type that a binding exports, if this module defines it.
fn add_exported<'a>(
    names: &mut TextSet<'a>,
    home: &str,
    binding: &Binding<'a>,
) -> Result<(), AllocError>
    ensures { OnOk result ((x : List ℕ) → Contains names.new x ↔ (Contains names.old x ⊎ Exports home.now (binding.now ∷ []) x)) }
{
    if binding.space() != Namespace::Types {
        return Ok(());
    }
    let entity = binding.entity();
    if entity.module() != home {
        return Ok(());
    }
    names.insert(entity.name())?;
    Ok(())
}

/// Returns the names of the types that these bindings export and this module defines.
pub(crate) fn exported_types<'a>(
    alloc: Global,
    home: &str,
    given: &[Binding<'a>],
) -> Result<TextSet<'a>, AllocError>
    ensures { IfOk result (λ names. (x : List ℕ) → Contains names x ↔ Exports home.now given.now x) }
{
    let mut names = TextSet::new(alloc);
    'given: for binding in given {
        add_exported(&mut names, home, binding)?;
    }
    Ok(names)
}

/// Returns for each synonym whether it is exported.
fn exported_marks(
    alloc: Global,
    declared: &[OwnSynonym<'_>],
    exported: &TextSet<'_>,
) -> Result<Vec<bool>, AllocError>
    ensures { IfOk result (λ marks. marks.items ≡ map (λ s. is_text_among s.name.now.text exported.now) declared.now) }
{
    let mut marks = Vec::new(alloc);
    'declared: for synonym in declared {
        marks.push(exported.contains(synonym.name.as_str()))?;
    }
    Ok(marks)
}

/// Marks the synonym that a type constructor means, if it is one of the module.
fn mark_name(scoped: &ScopedNames<'_, '_>, marks: &mut [bool], name: &Name)
    requires { length marks.old ≡ length scoped.now.names.now }
    ensures added { AddsMarks marks.old marks.new }
    ensures marked { (m : Module) (fs : List Interface) → IsScopeOf m fs scoped.now.scope.now → scoped.now.home.now ≡ m.header.name.text
        → IsOnce scoped.now.names.now → MarksNames m fs scoped.now.names.now marks.new (name.now ∷ []) }
{
    match own_synonym(scoped.scope, scoped.home, scoped.names, name) {
        None => {}
        Some(number) => marks[number] = true,
    }
}

/// Marks the synonyms that these type constructors mean.
fn mark_names(scoped: &ScopedNames<'_, '_>, marks: &mut [bool], used: &[&Name])
    requires { length marks.old ≡ length scoped.now.names.now }
    ensures added { AddsMarks marks.old marks.new }
    ensures marked { (m : Module) (fs : List Interface) → IsScopeOf m fs scoped.now.scope.now → scoped.now.home.now ≡ m.header.name.text
        → IsOnce scoped.now.names.now → MarksNames m fs scoped.now.names.now marks.new (map (λ n. n.now) used.now) }
{
    'used: for name in used {
        mark_name(scoped, marks, name);
    }
}

/// Marks the synonyms that a type outside of the right sides of synonyms uses.
fn mark_used(
    alloc: Global,
    scoped: &ScopedNames<'_, '_>,
    marks: &mut [bool],
    decls: &[Decl],
) -> Result<(), AllocError>
    requires { length marks.old ≡ length scoped.now.names.now }
    ensures added { OnOk result (AddsMarks marks.old marks.new) }
    ensures marked { OnOk result ((m : Module) (fs : List Interface) → IsScopeOf m fs scoped.now.scope.now → scoped.now.home.now ≡ m.header.name.text
        → IsOnce scoped.now.names.now → MarksNames m fs scoped.now.names.now marks.new (all_types_outside decls.now)) }
{
    if scoped.names.len() == 0 {
        return Ok(());
    }
    let mut used = LentNames::new(alloc);
    add_all_outside(&mut used, decls)?;
    mark_names(scoped, marks, used.as_slice());
    Ok(())
}

/// Marks the synonyms that a type outside of the right sides of synonyms uses, and those to which one with a mark refers.
fn mark_needed(
    alloc: Global,
    scoped: &ScopedNames<'_, '_>,
    graph: &Digraph,
    marks: &mut [bool],
    decls: &[Decl],
) -> Result<(), AllocError>
    requires marks { length marks.old ≡ length scoped.now.names.now }
    requires nodes { length graph.now ≡ length scoped.now.names.now }
    ensures { OnOk result ((m : Module) (fs : List Interface) → IsScopeOf m fs scoped.now.scope.now → scoped.now.home.now ≡ m.header.name.text
        → IsOnce scoped.now.names.now → MarksNeeded m fs scoped.now.names.now decls.now graph.now marks.old marks.new) }
{
    mark_used(alloc, scoped, marks, decls)?;
    graph.spread(marks)?;
    Ok(())
}

/// A module's declared synonyms, with the graph of their references and the names of its types that it exports.
#[derive(Clone, Copy)]
pub(crate) struct DeclaredSynonyms<'r, 'a> {
    pub(crate) own: &'r OwnSynonyms<'a>,
    pub(crate) graph: &'r Digraph,
    pub(crate) exported: &'r TextSet<'a>,
}

/// Returns for each synonym of a module whether its core needs it.
fn needed_marks(
    alloc: Global,
    scope: &Scope<'_>,
    program: &Module,
    synonyms: &DeclaredSynonyms<'_, '_>,
) -> Result<Vec<bool>, AllocError>
    requires synonyms { AreOwnSynonyms program.now.decls synonyms.now.own.now }
    requires nodes { length synonyms.now.graph.now ≡ length synonyms.now.own.now.names }
    ensures { IfOk result (λ marks. (fs : List Interface) → IsScopeOf program.now fs scope.now
        → AreNeeded program.now fs synonyms.now.own.now.names synonyms.now.exported.now synonyms.now.graph.now marks.items) }
{
    let scoped = ScopedNames {
        scope,
        home: program.header.name.as_str(),
        names: &synonyms.own.names,
    };
    let mut marks = exported_marks(alloc, &synonyms.own.declared, synonyms.exported)?;
    let decls = program.decls.as_slice();
    mark_needed(alloc, &scoped, synonyms.graph, &mut marks, decls)?;
    Ok(marks)
}

/// Returns the numbers with a mark, in order.
fn marked_of(alloc: Global, order: &[usize], marks: &[bool]) -> Result<Vec<usize>, AllocError>
    ensures { IfOk result (λ marked. marked.items ≡ filter (λ k. slice_index_or marks.now k false) order.now) }
{
    let mut marked = Vec::new(alloc);
    'order: for number in order {
        if *number < marks.len() && marks[*number] {
            marked.push(*number)?;
        }
    }
    Ok(marked)
}

/// Returns the numbers of the synonyms of a module that its core needs, each after those on its right side.
pub(crate) fn needed_order(
    alloc: Global,
    scope: &Scope<'_>,
    program: &Module,
    synonyms: &DeclaredSynonyms<'_, '_>,
) -> Result<Vec<usize>, AllocError>
    requires synonyms { AreOwnSynonyms program.now.decls synonyms.now.own.now }
    requires nodes { length synonyms.now.graph.now ≡ length synonyms.now.own.now.names }
    ensures { IfOk result (λ order. (fs : List Interface) → IsScopeOf program.now fs scope.now
        → IsNeededOrder program.now fs synonyms.now.own.now.names synonyms.now.exported.now synonyms.now.graph.now order.items) }
{
    let marks = needed_marks(alloc, scope, program, synonyms)?;
    let order = synonyms.graph.order()?;
    marked_of(alloc, &order, &marks)
}

/// Returns a declaration of a core. A synonym that isn't exported has the unit type in place of its right side.
fn kept(alloc: Global, decl: Decl, exported: &TextSet<'_>) -> Result<Decl, AllocError>
    ensures { IfOk result (λ kept. kept ≡ kept_by exported.now decl) }
{
    match &decl.kind {
        DeclKind::Synonym { name, params, .. } => {
            if exported.contains(name.as_str()) {
                return Ok(decl);
            }
            let name = copy_name(name)?;
            let params = copy_names(alloc, params)?;
            Ok(Decl {
                kind: DeclKind::Synonym {
                    name,
                    params,
                    ty: TypeExpr {
                        kind: TypeKind::Unit,
                    },
                },
            })
        }
        DeclKind::DataType { .. } => Ok(decl),
        DeclKind::Newtype { .. } => Ok(decl),
        DeclKind::Signature { .. } => Ok(decl),
        DeclKind::Clause { .. } => Ok(decl),
        DeclKind::Pattern { .. } => Ok(decl),
    }
}

/// Returns the declarations of a core.
pub(crate) fn kept_decls(
    alloc: Global,
    decls: Vec<Decl>,
    exported: &TextSet<'_>,
) -> Result<Vec<Decl>, AllocError>
    ensures { IfOk result (λ all. all.items ≡ map (kept_by exported.now) decls.items) }
{
    let mut all = Vec::new(alloc);
    for decl in decls {
        all.push(kept(alloc, decl, exported)?)?;
    }
    Ok(all)
}
