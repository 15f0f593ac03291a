//! The name that a rename at a place of a held set is of.
ghost use Rattle.std.specs.Prelude.{◌≡◌, IfOk, string_bytes};
ghost use Rattle.hm_service_rename.specs.Prepared.{IsFoundAt, IsFoundBy, IsFoundIn, IsFoundWithin, IsPrepared, place_in};
ghost use Rattle.hm_uses_references.specs.References.{reference_of};

use crate::renaming::is_bound;
use crate::results::{Prepared, RenameRefusal, SourcePlace, Target};
use crate::whole::{current_texts, is_whole};
use core::thread::Stack;
use hm_run_sources::{Nesting, origins_of};
use hm_service_places::{Checked, CheckedSet, ServiceFault};
use hm_service_references::{View, all_imported, all_names};
use hm_store::Store;
use hm_types_prelude::SharedPrelude;
use hm_uses_references::{SetUse, names_at, reference_of, references_at};
use std::alloc::{AllocError, Global};
use std::sync::Wait;
use std::thread;
use std::thread::{Promise, Scope, Threads};

/// What a question is about: a build, the number of modules of each of its sources, the numbers of these in the held set, and a place.
#[derive(Clone, Copy)]
struct Asked<'a> {
    store: &'a Store,
    counts: &'a [usize],
    part: &'a [usize],
    place: SourcePlace,
}

impl Promise<Result<Prepared, AllocError>> for Asked<'_> {
    ghost use Rattle.std.specs.Prelude.{IfOk};
    ghost use Rattle.hm_service_rename.specs.Prepared.{IsFoundBy};

    ghost kept_by = { λ p r. IfOk r (IsFoundBy p) };
}

/// Returns a name with where it is written.
fn target_of(alloc: Global, one: &SetUse<'_>) -> Result<Target, AllocError>
    ensures reference { IfOk result (λ t. t.reference ≡ reference_of one.now) }
    ensures name { IfOk result (λ t. string_bytes t.name ≡ one.now.used.mention.name.text) }
{
    let name = one.used().name().as_str();
    Ok(Target {
        reference: reference_of(one),
        name: String::from_str(alloc, name)?,
    })
}

/// Returns the name at a place among the names of a set, or why it can't be renamed.
fn found_in(
    alloc: Global,
    names: &[SetUse<'_>],
    place: &SourcePlace,
) -> Result<Prepared, AllocError>
    ensures { IfOk result (IsFoundIn names.now place.now.source (place_in place.now)) }
{
    let SourcePlace {
        source,
        line,
        column,
    } = *place;
    let Some(references) = references_at(alloc, names, source, line, column)? else {
        return Ok(Prepared::Refused(RenameRefusal::NoName));
    };
    if !is_bound(references.as_slice()) {
        return Ok(Prepared::Refused(RenameRefusal::NotBound));
    }
    let on = names_at(alloc, names, source, line, column)?;
    if on.is_empty() {
        return Ok(Prepared::Refused(RenameRefusal::NoName));
    }
    Ok(Prepared::Renamable(target_of(alloc, on[0])?))
}

/// Returns the name at a place of a build, or why it can't be renamed.
fn found(alloc: Global, asked: Asked<'_>) -> Result<Prepared, AllocError>
    ensures { IfOk result (IsFoundBy asked.entry) }
{
    let prelude = SharedPrelude::new(alloc)?;
    let origins = origins_of(alloc, asked.counts)?;
    let view = View {
        store: asked.store,
        prelude: &prelude,
        origins: origins.as_slice(),
    };
    let imported = all_imported(alloc, &view)?;
    let names = all_names(alloc, &view, asked.part, imported.as_slice())?;
    Ok(found_in(alloc, names.as_slice(), &asked.place)?)
}

/// Starts a thread with a large stack for a question, and returns its answer.
fn found_by_thread<'s, E, T: Threads + Wait + Sync>(
    rt: &T,
    scope: &Scope<'s, E>,
    alloc: Global,
    stack: usize,
    asked: Asked<'s>,
) -> Result<Prepared, ServiceFault>
    ensures { IfOk result (IsFoundBy asked.entry) }
{
    let thread = Stack::new().stack_size(stack);
    let work = move || { found(alloc, asked) };
    match thread.spawn_scoped_with(scope, asked, work) {
        Ok(finder) => match finder.join(rt) {
            Ok(found) => Ok(found),
            Err(AllocError) => Err(ServiceFault::Memory),
        },
        Err(_) => Err(ServiceFault::NoWorker),
    }
}

/// Returns the name at a place of a checked set, or why it can't be renamed.
fn found_at<T: Threads + Wait + Sync>(
    rt: &T,
    alloc: Global,
    checked: &Checked,
    place: &SourcePlace,
) -> Result<Prepared, ServiceFault>
    ensures { IfOk result (IsFoundAt checked.now place.now) }
{
    let build = &checked.build;
    let store = &build.store;
    let counts = build.counts.as_slice();
    let part = checked.part.as_slice();
    let stack = Nesting::of(checked.texts.as_slice()).stack_size();
    let (source, line, column) = (place.source, place.line, place.column);
    let found = thread::scope(
        thread::scope_env(),
        rt,
        |scope| -> Result<Prepared, ServiceFault>
            ensures { IfOk result (IsFoundWithin store.entry.now counts.entry.now part.entry.now source (record { line = line; column = column })) }
        {
            let place = SourcePlace {
                source,
                line,
                column,
            };
            let asked = Asked {
                store,
                counts,
                part,
                place,
            };
            found_by_thread(rt, scope, alloc, stack, asked)
        },
    )?;
    Ok(found)
}

// Why: docs/DECISIONS.md, "Prepared renames".
/// Returns the name at a place of a held set, or why a rename of it is refused, whatever its new name is: the check isn't of all sources as they are now
/// or skips a module, no name is at the place, or none of its references binds it.
///
/// # Errors
///
/// `Memory` if memory ran out, and `NoWorker` if no thread could start.
pub fn prepare_rename<T: Threads + Wait + Sync>(
    rt: &T,
    alloc: Global,
    set: &CheckedSet<'_>,
    place: &SourcePlace,
) -> Result<Prepared, ServiceFault>
    ensures { IfOk result (IsPrepared set.now place.now) }
{
    let texts = current_texts(alloc, set.held)?;
    if !is_whole(texts.as_slice(), set.checked) {
        return Ok(Prepared::Refused(RenameRefusal::NotWhole));
    }
    Ok(found_at(rt, alloc, set.checked, place)?)
}
