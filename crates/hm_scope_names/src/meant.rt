//! The names that mean one entity in a scope.
ghost use Rattle.std.specs.Prelude.{◌≡◌, ◌↔◌, ◌++◌, ◌∷◌, [], List, Contains, IfOk, OnOk, map};
ghost use Rattle.std.specs.Arc.{arc_value};
ghost use Rattle.hm_names.specs.Bindings.{IsScopeOf, Pair};
ghost use Rattle.hm_scope_imports.specs.Apart.{AreNamedApart};
ghost use Rattle.hm_scope_names.specs.Meant.{AreApart, AreMeantIn, IsMeant};
ghost use Rattle.hm_scope_tables.specs.Tables.{IsTable};
ghost use Rattle.hm_syntax.specs.declared.ast.Module.{Module};
ghost use Rattle.hm_types.specs.Interfaces.{Exports as Interface};

use hm_scope_export_items::copy_of;
use hm_scope_imports::scope_of;
use hm_scope_tables::{Binding, Key, NameSet, Slot, is_several, note};
use hm_syntax::Module;
use hm_types::Interface;
use indexmap::IndexMap;
use std::alloc::{AllocError, Global};
use std::sync::Arc;

/// Returns the table of pairs.
fn table_of<'a>(
    alloc: Global,
    pairs: &[Binding<'a>],
) -> Result<IndexMap<Key<'a>, Slot<'a>>, AllocError>
    ensures { IfOk result (IsTable pairs.now) }
{
    let mut table = IndexMap::with_capacity(alloc, pairs.len())?;
    'pairs: for pair in pairs {
        note(&mut table, pair)?;
    }
    Ok(table)
}

/// Adds a pair, unless its name was seen before or means several entities.
fn add_meant<'a>(
    names: &mut Vec<Binding<'a>>,
    seen: &mut NameSet<'a>,
    table: &IndexMap<Key<'a>, Slot<'a>>,
    pair: &Binding<'a>,
) -> Result<(), AllocError>
    ensures { OnOk result ((pairs before : List Pair) → IsTable pairs table.now → ((p : Pair) → Contains (before ++ pair.now ∷ []) p → Contains pairs p)
        → AreMeantIn pairs before seen.old names.old.items → AreMeantIn pairs (before ++ pair.now ∷ []) seen.new names.new.items) }
{
    if seen.contains(pair.space(), pair.qualifier(), pair.text()) {
        return Ok(());
    }
    seen.insert(pair.space(), pair.qualifier(), pair.text())?;
    if is_several(table, pair) {
        return Ok(());
    }
    names.push(copy_of(pair))?;
    Ok(())
}

/// Returns one pair for each name that means one entity among these pairs.
fn meant_in<'a>(alloc: Global, pairs: &[Binding<'a>]) -> Result<Vec<Binding<'a>>, AllocError>
    ensures exact { IfOk result (λ names. («module» : Module) (fs : List Interface) → IsScopeOf «module» fs pairs.now → (p : Pair) → Contains names.items p ↔ IsMeant «module» fs p) }
    ensures once { IfOk result (λ names. AreApart names.items) }
{
    let table = table_of(alloc, pairs)?;
    let mut seen = NameSet::new(alloc);
    let mut names = Vec::new(alloc);
    'pairs: for pair in pairs {
        add_meant(&mut names, &mut seen, &table, pair)?;
    }
    Ok(names)
}

/// Returns the names that mean one entity in the scope of a module, bare or qualified, for Prelude's interface and those of its imports. Each name is
/// there once, in the order of the scope: first what the module declares, then what its imports bring in.
///
/// `imports` has the interfaces of the imported modules except Prelude, in any order. The module may have faults.
///
/// # Errors
///
/// If memory runs out.
pub fn meant_names<'a>(
    alloc: Global,
    program: &'a Module,
    prelude: &'a Interface,
    imports: &'a [Arc<Interface>],
) -> Result<Vec<Binding<'a>>, AllocError>
    requires { AreNamedApart (prelude.now ∷ map arc_value imports.now) }
    ensures exact { IfOk result (λ names. (p : Pair) → Contains names.items p ↔ IsMeant program.now (prelude.now ∷ map arc_value imports.now) p) }
    ensures once { IfOk result (λ names. AreApart names.items) }
{
    let scope = scope_of(alloc, program, prelude, imports)?;
    Ok(meant_in(alloc, scope.pairs())?)
}
