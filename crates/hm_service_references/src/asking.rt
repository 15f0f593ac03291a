//! The references of the name at a place of a held set.
ghost use Rattle.std.specs.Prelude.{IfNone, IfOk, IfSome};
ghost use Rattle.hm_service_references.specs.Names.{AreReferencesAt, HasNoNameAt, IsFound};

use crate::imported::{View, all_imported};
use crate::names::all_names;
use core::thread::Stack;
use hm_run_sources::{Nesting, origins_of};
use hm_service_places::{Checked, ServiceFault};
use hm_store::Store;
use hm_types_prelude::SharedPrelude;
use hm_uses_references::{Reference, references_at};
use std::alloc::{AllocError, Global};
use std::sync::Wait;
use std::thread;
use std::thread::{Promise, Scope, Threads};

/// What a question is about: a build, the number of modules of each of its sources, the numbers of these in the held set, and a place.
#[derive(Clone, Copy)]
struct Asked<'a> {
    store: &'a Store,
    counts: &'a [usize],
    part: &'a [usize],
    source: usize,
    line: u32,
    column: usize,
}

impl Promise<Result<Option<Vec<Reference>>, AllocError>> for Asked<'_> {
    ghost use Rattle.std.specs.Prelude.{IfOk};
    ghost use Rattle.hm_service_references.specs.Names.{IsFound};

    ghost kept_by = { λ p r. IfOk r (IsFound p.store.now p.counts.now p.part.now p.source (record { line = p.line; column = p.column })) };
}

/// Returns the references of the name at a place of a build.
fn found(alloc: Global, asked: Asked<'_>) -> Result<Option<Vec<Reference>>, AllocError>
    ensures { IfOk result (IsFound asked.entry.store.now asked.entry.counts.now asked.entry.part.now asked.entry.source (record { line = asked.entry.line; column = asked.entry.column })) }
{
    let prelude = SharedPrelude::new(alloc)?;
    let origins = origins_of(alloc, asked.counts)?;
    let view = View {
        store: asked.store,
        prelude: &prelude,
        origins: origins.as_slice(),
    };
    let imported = all_imported(alloc, &view)?;
    let names = all_names(alloc, &view, asked.part, imported.as_slice())?;
    Ok(references_at(
        alloc,
        names.as_slice(),
        asked.source,
        asked.line,
        asked.column,
    )?)
}

/// Starts a thread with a large stack for a question, and returns its answer.
fn found_by_thread<'s, E, T: Threads + Wait + Sync>(
    rt: &T,
    scope: &Scope<'s, E>,
    alloc: Global,
    stack: usize,
    asked: Asked<'s>,
) -> Result<Option<Vec<Reference>>, ServiceFault>
    ensures { IfOk result (IsFound asked.entry.store.now asked.entry.counts.now asked.entry.part.now asked.entry.source (record { line = asked.entry.line; column = asked.entry.column })) }
{
    let thread = Stack::new().stack_size(stack);
    let work = move || { found(alloc, asked) };
    match thread.spawn_scoped_with(scope, asked, work) {
        Ok(finder) => match finder.join(rt) {
            Ok(found) => Ok(found),
            Err(AllocError) => Err(ServiceFault::Memory),
        },
        Err(_) => Err(ServiceFault::NoWorker),
    }
}

// Why: docs/DECISIONS.md, "Places of a held set".
/// Returns where the names of a checked set are written that mean the same as the name at a place of a source. The column counts bytes, from 1. Returns
/// `None` if no name is at the place, or the source can't be checked, or its module is skipped.
///
/// They are in the order of sources and of places, and the name itself is among them. A name that isn't bound, or is ambiguous, has none.
///
/// # Errors
///
/// `Memory` if memory ran out, and `NoWorker` if no thread could start.
pub fn references_of<T: Threads + Wait + Sync>(
    rt: &T,
    alloc: Global,
    checked: &Checked,
    source: usize,
    line: u32,
    column: usize,
) -> Result<Option<Vec<Reference>>, ServiceFault>
    ensures some { IfOk result (λ found. IfSome found (λ references. AreReferencesAt checked.now source (record { line = line; column = column }) references.items)) }
    ensures none { IfOk result (λ found. IfNone found (HasNoNameAt checked.now source (record { line = line; column = column }))) }
{
    let build = &checked.build;
    let store = &build.store;
    let counts = build.counts.as_slice();
    let part = checked.part.as_slice();
    let stack = Nesting::of(checked.texts.as_slice()).stack_size();
    let found = thread::scope(
        thread::scope_env(),
        rt,
        |scope| -> Result<Option<Vec<Reference>>, ServiceFault>
            ensures { IfOk result (IsFound store.entry.now counts.entry.now part.entry.now source (record { line = line; column = column })) }
        {
            let asked = Asked {
                store,
                counts,
                part,
                source,
                line,
                column,
            };
            found_by_thread(rt, scope, alloc, stack, asked)
        },
    )?;
    Ok(found)
}
