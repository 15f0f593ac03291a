//! The entities between which a name is ambiguous.
ghost use Rattle.std.specs.Prelude.{◌≡◌, ◌↔◌, List, Contains, IfOk, OnOk, IsTrue, option_map};
ghost use Rattle.hm_types.specs.declared.Entity.{Entity};
ghost use Rattle.hm_types.specs.Interfaces.{Exports as Interface};
ghost use Rattle.hm_syntax.specs.declared.ast.Module.{Module};
ghost use Rattle.hm_names.specs.Bindings.{Adds, IsScopeOf, Pair};
ghost use Rattle.hm_names.specs.Scope.{InScope};
ghost use Rattle.hm_uses_declarations.specs.Candidates.{IsCandidate};

use hm_names::Namespace;
use hm_scope_tables::{Binding, EntityRef, Scope};
use hm_syntax::Name;
use std::alloc::{AllocError, Global};

/// Returns whether a name has this qualifier, or none.
fn has_qualifier(qualifier: Option<&str>, name: &Name) -> bool
    ensures { IsTrue result ↔ (option_map (λ q. q.now) qualifier.entry ≡ name.now.qualifier) }
{
    match &name.qualifier {
        None => qualifier.is_none(),
        Some(own) => match qualifier {
            None => false,
            Some(other) => own.as_str() == other,
        },
    }
}

/// Adds the entity of a pair, if the pair has the name.
fn add_candidate<'a>(
    found: &mut Vec<EntityRef<'a>>,
    space: Namespace,
    name: &Name,
    pair: &Binding<'a>,
) -> Result<(), AllocError>
    ensures { OnOk result (Adds found.old.items found.new.items (IsCandidate space name.now pair.now)) }
{
    if pair.space() != space {
        return Ok(());
    }
    if pair.text() != name.as_str() {
        return Ok(());
    }
    if !has_qualifier(pair.qualifier(), name) {
        return Ok(());
    }
    found.push(pair.entity().copy())?;
    Ok(())
}

/// Adds the entities of the pairs that have the name.
fn add_candidates<'a>(
    found: &mut Vec<EntityRef<'a>>,
    space: Namespace,
    name: &Name,
    pairs: &[Binding<'a>],
) -> Result<(), AllocError>
    ensures { OnOk result (Adds found.old.items found.new.items (λ e. (p : Pair) × (Contains pairs.now p × IsCandidate space name.now p e))) }
{
    'pairs: for pair in pairs {
        add_candidate(found, space, name, pair)?;
    }
    Ok(())
}

// Why: docs/DECISIONS.md, "Candidates".
/// Returns the entities that a scope has under a name, once for each of its pairs. An ambiguous name has two entities or more.
///
/// # Errors
///
/// If memory runs out.
pub fn candidates_of<'a>(
    alloc: Global,
    scope: &Scope<'a>,
    space: Namespace,
    name: &Name,
) -> Result<Vec<EntityRef<'a>>, AllocError>
    ensures { IfOk result (λ entities. («module» : Module) (fs : List Interface) → IsScopeOf «module» fs scope.now → (e : Entity)
        → Contains entities.items e ↔ InScope «module» fs space name.now.qualifier name.now.text e) }
{
    let mut found = Vec::new(alloc);
    add_candidates(&mut found, space, name, scope.pairs())?;
    Ok(found)
}
