//! The names of two checks, compared on a thread with a large stack.
ghost use Rattle.std.specs.Prelude.{◌≡◌, IfOk, IsTrue};
ghost use Rattle.hm_service_rename.specs.Compared.{AreRenamedWith, IsComparedIn, IsComparison};
ghost use Rattle.hm_service_rename.specs.Renames.{AreNamesRenamed};

use crate::results::Rename;
use core::thread::Stack;
use hm_run_sources::{Nesting, origins_of};
use hm_service_places::{Checked, ServiceFault};
use hm_service_references::{View, all_imported, all_names};
use hm_store::Store;
use hm_types_prelude::SharedPrelude;
use hm_uses_references::{SetUse, names_at};
use hm_uses_renames::are_renamed;
use std::alloc::{AllocError, Global};
use std::sync::Wait;
use std::thread;
use std::thread::{Promise, Scope, Threads};

/// A build, the number of modules of each of its sources, and the numbers of these in the held set.
#[derive(Clone, Copy)]
struct Side<'a> {
    store: &'a Store,
    counts: &'a [usize],
    part: &'a [usize],
}

/// Two builds, and the rename between them.
#[derive(Clone, Copy)]
struct Sides<'a> {
    before: Side<'a>,
    after: Side<'a>,
    rename: Rename<'a>,
}

impl Promise<Result<bool, AllocError>> for Sides<'_> {
    ghost use Rattle.std.specs.Prelude.{IfOk};
    ghost use Rattle.hm_service_rename.specs.Compared.{IsComparison};

    ghost kept_by = { λ p r. IfOk r (IsComparison p) };
}

/// Compares names with those of a build.
fn compared_with(
    alloc: Global,
    names: &[SetUse<'_>],
    after: &Side<'_>,
    rename: &Rename<'_>,
) -> Result<bool, AllocError>
    ensures { IfOk result (λ same. IsTrue same → AreRenamedWith names.now after.now rename.now) }
{
    let on = names_at(alloc, names, rename.source, rename.line, rename.column)?;
    if on.len() != 1 {
        return Ok(false);
    }
    let prelude = SharedPrelude::new(alloc)?;
    let origins = origins_of(alloc, after.counts)?;
    let view = View {
        store: after.store,
        prelude: &prelude,
        origins: origins.as_slice(),
    };
    let imported = all_imported(alloc, &view)?;
    let later = all_names(alloc, &view, after.part, imported.as_slice())?;
    Ok(are_renamed(alloc, on[0], rename.name, names, later.as_slice())?)
}

/// Compares the names of two builds.
fn compared(alloc: Global, sides: Sides<'_>) -> Result<bool, AllocError>
    ensures { IfOk result (IsComparison sides.entry) }
{
    let before = &sides.before;
    let prelude = SharedPrelude::new(alloc)?;
    let origins = origins_of(alloc, before.counts)?;
    let view = View {
        store: before.store,
        prelude: &prelude,
        origins: origins.as_slice(),
    };
    let imported = all_imported(alloc, &view)?;
    let names = all_names(alloc, &view, before.part, imported.as_slice())?;
    Ok(compared_with(alloc, names.as_slice(), &sides.after, &sides.rename)?)
}

/// Starts a thread with a large stack for a comparison, and returns its result.
fn compared_by_thread<'s, E, T: Threads + Wait + Sync>(
    rt: &T,
    scope: &Scope<'s, E>,
    alloc: Global,
    stack: usize,
    sides: Sides<'s>,
) -> Result<bool, ServiceFault>
    ensures { IfOk result (IsComparison sides.entry) }
{
    let thread = Stack::new().stack_size(stack);
    let work = move || { compared(alloc, sides) };
    match thread.spawn_scoped_with(scope, sides, work) {
        Ok(comparer) => match comparer.join(rt) {
            Ok(same) => Ok(same),
            Err(AllocError) => Err(ServiceFault::Memory),
        },
        Err(_) => Err(ServiceFault::NoWorker),
    }
}

/// Returns whether the names of a check are those of another one after a rename.
pub(crate) fn are_names_renamed<T: Threads + Wait + Sync>(
    rt: &T,
    alloc: Global,
    before: &Checked,
    after: &Checked,
    rename: &Rename<'_>,
) -> Result<bool, ServiceFault>
    ensures { IfOk result (λ same. IsTrue same → AreNamesRenamed before.now after.now rename.now) }
{
    let first = Nesting::of(before.texts.as_slice()).stack_size();
    let stack = first.max(Nesting::of(after.texts.as_slice()).stack_size());
    let (store, later_store) = (&before.build.store, &after.build.store);
    let counts = before.build.counts.as_slice();
    let later_counts = after.build.counts.as_slice();
    let part = before.part.as_slice();
    let later_part = after.part.as_slice();
    let (source, line, column, name) = (rename.source, rename.line, rename.column, rename.name);
    let same = thread::scope(
        thread::scope_env(),
        rt,
        |scope| -> Result<bool, ServiceFault>
            ensures { IfOk result (IsComparedIn store.entry.now counts.entry.now part.entry.now later_store.entry.now later_counts.entry.now later_part.entry.now source (record { line = line; column = column }) name.entry.now) }
        {
            let before = Side {
                store,
                counts,
                part,
            };
            let after = Side {
                store: later_store,
                counts: later_counts,
                part: later_part,
            };
            let rename = Rename {
                source,
                line,
                column,
                name,
            };
            let sides = Sides {
                before,
                after,
                rename,
            };
            compared_by_thread(rt, scope, alloc, stack, sides)
        },
    )?;
    Ok(same)
}
