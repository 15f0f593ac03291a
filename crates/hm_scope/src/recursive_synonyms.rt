//! Recursive synonyms (Report, section 4.2.2).

ghost use Rattle.std.specs.Prelude.{◌≡◌, ◌<◌, ◌↔◌, ℕ, List, [], ◌∷◌, IsTrue, IfOk, OnOk, Contains, length};
ghost use Rattle.hm_types.specs.Interfaces.{Exports as Interface};
ghost use Rattle.hm_names.specs.Bindings.{IsScopeOf, Adds};
ghost use Rattle.hm_scope.specs.Synonyms.{AreSynonyms, IsOnce, IsReferenceGraph, IsMarked, IsMarkedFault, HasSynonymFault};
ghost use Rattle.hm_names.specs.declared.faults.Fault.{Fault};

use hm_graph::Digraph;
use hm_names::{Fault, Kind, fault_at};
use hm_scope_tables::TextSet;
use hm_syntax::{Decl, DeclKind, Module, Name};
use std::alloc::{AllocError, Global};

/// Returns whether the synonym with this name is marked.
fn is_marked(names: &TextSet<'_>, marks: &[bool], name: &Name) -> bool
    requires { length marks.now ≡ length names.now }
    ensures { IsOnce names.now → (IsTrue result ↔ IsMarked names.now marks.now name.now.text) }
{
    match names.place_of(name.as_str()) {
        None => false,
        Some(place) => place < marks.len() && marks[place],
    }
}

/// Adds the fault of a declaration of a marked synonym.
fn add_recursive(
    alloc: Global,
    faults: &mut Vec<Fault>,
    names: &TextSet<'_>,
    marks: &[bool],
    decl: &Decl,
) -> Result<(), AllocError>
    requires { length marks.now ≡ length names.now }
    ensures { OnOk result (IsOnce names.now → Adds faults.old.items faults.new.items (IsMarkedFault names.now marks.now (decl.now ∷ []))) }
{
    match &decl.kind {
        DeclKind::Synonym { name, .. } => {
            if !is_marked(names, marks, name) {
                return Ok(());
            }
            faults.push(fault_at(alloc, Kind::Recursive, name)?)?;
            Ok(())
        }
        DeclKind::DataType { .. } => Ok(()),
        DeclKind::Newtype { .. } => Ok(()),
        DeclKind::Signature { .. } => Ok(()),
        DeclKind::Clause { .. } => Ok(()),
        DeclKind::Pattern { .. } => Ok(()),
    }
}

// Why: docs/DECISIONS.md, "Recursive synonyms".
/// Returns the faults of recursive synonyms.
pub fn synonym_faults(
    alloc: Global,
    program: &Module,
    names: &TextSet<'_>,
    graph: &Digraph,
) -> Result<Vec<Fault>, AllocError>
    requires { length graph.now ≡ length names.now }
    ensures { IfOk result (λ faults. (fs : List Interface) → AreSynonyms program.now.decls names.now
        → IsReferenceGraph program.now fs names.now graph.now → (f : Fault) → Contains faults.items f ↔ HasSynonymFault program.now fs f) }
{
    let marks = graph.recursive()?;
    let mut faults = Vec::new(alloc);
    'decls: for decl in program.decls.as_slice() {
        add_recursive(alloc, &mut faults, names, &marks, decl)?;
    }
    Ok(faults)
}
