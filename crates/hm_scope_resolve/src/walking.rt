//! The walk over a whole module.
ghost use Rattle.std.specs.Prelude.{◌≡◌, ◌↔◌, List, [], IfOk, map, Contains};
ghost use Rattle.hm_types.specs.Interfaces.{Exports as Interface};
ghost use Rattle.hm_names.specs.declared.faults.Fault.{Fault};
ghost use Rattle.hm_names.specs.Walk.{Somewhere};
ghost use Rattle.hm_names.specs.Resolved.{declaration_with, top};
ghost use Rattle.hm_names.specs.Found.{lookups_in, resolver_of};
ghost use Rattle.hm_names.specs.NodeFaults.{NodeFault, AreLookupsOf};

use crate::resolving::Resolving;
use hm_names::Fault;
use hm_scope_entities::Tables;
use hm_scope_tables::Scope;
use hm_syntax::{Decl, Module};
use hm_types::Text;
use std::alloc::{AllocError, Global};

/// The result of the walk over a module.
#[derive(Drop)]
pub struct Walked {
    /// The declarations with their names resolved. Only useful if there are no faults.
    pub decls: Vec<Decl>,
    /// The faults of declaration lists, of names and of numbers of arguments, unordered.
    pub faults: Vec<Fault>,
}

// Why: docs/DECISIONS.md, "One walk".
/// Returns the faults in a module's trees, and its declarations with their names resolved.
#[tactic(auto, using(hm_names::proofs::Standing::noted_somewhere))]
pub fn walk(
    alloc: Global,
    scope: &Scope<'_>,
    tables: &Tables<'_>,
    module: &Module,
) -> Result<Walked, AllocError>
    ensures faults { IfOk result (λ w. (fs : List Interface)
        → AreLookupsOf «module».now fs (lookups_in scope.now tables.now.synonyms tables.now.types tables.now.constructors) → (f : Fault)
        → Contains w.faults.items f ↔ Somewhere «module».now (NodeFault «module».now fs f)) }
    ensures trees { IfOk result (λ w. w.decls.items
        ≡ map (declaration_with (resolver_of (lookups_in scope.now tables.now.synonyms tables.now.types tables.now.constructors)) (top «module».now)
        []) «module».now.decls) }
{
    let home = Some(module.header.name.text.copy()?);
    let mut walk = Resolving::new(alloc, scope, tables);
    walk.note_list(alloc, module.decls.as_slice())?;
    let decls = walk.decl_row(alloc, &home, module.decls.as_slice())?;
    Ok(Walked {
        decls,
        faults: walk.into_faults(),
    })
}
