//! Makes modules in parallel.
ghost use Rattle.std.specs.Prelude.{◌≡◌, ◌<◌, ◌≤◌, ◌∷◌, [], IfErr, IfOk, length, map, take};
ghost use Rattle.hm_graph.specs.Imports.{IsImportPlan, IsLawful};
ghost use Rattle.hm_run_sources.specs.Errors.{HaveHeaders, IsPlanError, IsSetError, IsSourceError};
ghost use Rattle.hm_run_sources.specs.ModuleCounts.{AreCountedModules};
ghost use Rattle.hm_run_sources.specs.Names.{module_outlines};
ghost use Rattle.hm_run_sources.specs.Parts.{FailsBehind, Follow};
ghost use Rattle.hm_run_sources.specs.SourceModules.{AreModulesOf, HasModules};

use crate::Pool;
use crate::joining::joined;
use crate::parsing::modules_of;
use crate::parts::{Part, bytes_of_part, part_end};
use core::thread::Stack;
use hm_run_sources::{
    CountedModules, PlanError, PlannedModules, SetError, modules_between, planned, source_error,
};
use std::alloc::Global;
use std::sync::Wait;
use std::thread;
use std::thread::{Scope, Threads};

/// Returns the modules of a part with their numbers, made on this thread.
fn made(alloc: Global, part: Part<'_>) -> Result<CountedModules, SetError>
    requires from { part.from ≤ part.to }
    requires to { part.to ≤ length part.sources.now }
    ensures ok { IfOk result (λ read. Follow (map (λ s. s.items) (take part.entry.from part.entry.sources.now)) (map (λ s.
        s.items) (take part.entry.to part.entry.sources.now)) read.modules.items read.counts.items) }
    ensures err { IfErr result (FailsBehind (map (λ s. s.items) part.entry.sources.now) (map (λ s. s.items) (take part.entry.from part.entry.sources.now))) }
{
    modules_between(alloc, part.sources, part.from, part.to)
}

/// Returns the modules of the rest of the sources, with their numbers. Gives a part of at least this many bytes to another thread, if one can start, while this
/// thread goes on after it.
fn made_by_threads<'s, E, R: Threads>(
    rt: &R,
    scope: &Scope<'s, E>,
    alloc: Global,
    rest: Part<'s>,
    bytes: usize,
) -> Result<CountedModules, SetError>
    requires from { rest.from ≤ rest.to }
    requires to { rest.to ≡ length rest.sources.now }
    ensures ok { IfOk result (λ read. Follow (map (λ s. s.items) (take rest.entry.from rest.entry.sources.now)) (map (λ s.
        s.items) (take rest.entry.to rest.entry.sources.now)) read.modules.items read.counts.items) }
    ensures err { IfErr result (FailsBehind (map (λ s. s.items) rest.entry.sources.now) (map (λ s. s.items) (take rest.entry.from rest.entry.sources.now))) }
{
    if rest.from >= rest.to {
        return made(alloc, rest);
    }
    let end = part_end(rest.sources, rest.from, bytes);
    if end >= rest.to {
        return made(alloc, rest);
    }
    let front = Part {
        sources: rest.sources,
        from: rest.from,
        to: end,
        stack: rest.stack,
    };
    let behind = Part {
        sources: rest.sources,
        from: end,
        to: rest.to,
        stack: rest.stack,
    };
    let thread = Stack::new().stack_size(rest.stack);
    let work = move ||
        requires { (front.from ≤ front.to) × (front.to ≤ length front.sources.now) }
    { made(alloc, front) };
    let begun = thread.spawn_scoped_with(scope, front, work);
    let later = made_by_threads(rt, scope, alloc, behind, bytes);
    match begun {
        Ok(thread) => joined(thread.join(rt), later),
        Err(_) => joined(made(alloc, front), later),
    }
}

/// Returns all modules of the sources, in order of appearance, with the number of modules of each. Makes at most one part for each thread.
fn made_of_all<'s, E, R: Threads>(
    rt: &R,
    scope: &Scope<'s, E>,
    alloc: Global,
    sources: &'s [Vec<u8>],
    pool: Pool,
) -> Result<CountedModules, SetError>
    ensures ok { IfOk result (λ read. AreCountedModules (map (λ s. s.items) sources.now) read.modules.items read.counts.items) }
    ensures err { IfErr result (IsSetError (map (λ s. s.items) sources.now)) }
{
    let rest = Part {
        sources,
        from: 0,
        to: sources.len(),
        stack: pool.stack,
    };
    let bytes = bytes_of_part(sources, pool.threads);
    made_by_threads(rt, scope, alloc, rest, bytes)
}

/// Returns all modules of several sources, in order of appearance, made by a pool, with the number of modules of each. This thread is one of its
/// threads.
fn modules_of_all<T: Threads + Wait + Sync>(
    rt: &T,
    alloc: Global,
    sources: &[Vec<u8>],
    pool: Pool,
) -> Result<CountedModules, SetError>
    ensures ok { IfOk result (λ read. AreCountedModules (map (λ s. s.items) sources.now) read.modules.items read.counts.items) }
    ensures err { IfErr result (IsSetError (map (λ s. s.items) sources.now)) }
{
    thread::scope(
        thread::scope_env(),
        rt,
        |scope| -> Result<CountedModules, SetError>
            ensures ok { IfOk result (λ read. AreCountedModules (map (λ s. s.items) sources.entry.now) read.modules.items read.counts.items) }
            ensures err { IfErr result (IsSetError (map (λ s. s.items) sources.entry.now)) }
        { made_of_all(rt, scope, alloc, sources, pool) },
    )
}

/// Returns the modules of the only source of a set, made by a pool, with their number.
fn lone_modules<T: Threads + Wait + Sync>(
    rt: &T,
    alloc: Global,
    text: &[u8],
    pool: Pool,
) -> Result<CountedModules, SetError>
    ensures ok { IfOk result (λ read. HasModules text.now read.modules.items × (read.counts.items ≡ length read.modules.items ∷ [])) }
    ensures err { IfErr result (IsSourceError 1 text.now) }
{
    let modules = match modules_of(rt, alloc, text, pool) {
        Ok(modules) => modules,
        Err(fault) => return Err(fault),
    };
    let mut counts = Vec::new(alloc);
    match counts.push(modules.len()) {
        Ok(()) => Ok(CountedModules { modules, counts }),
        Err(_) => Err(SetError::Memory),
    }
}

/// Returns all modules of the sources, in order of appearance, made by a pool, with the number of modules of each. Several sources are divided
/// between threads, a single one is cut into runs.
fn source_modules<T: Threads + Wait + Sync>(
    rt: &T,
    alloc: Global,
    sources: &[Vec<u8>],
    pool: Pool,
) -> Result<CountedModules, SetError>
    ensures read { IfOk result (λ read. AreModulesOf (map (λ s. s.items) sources.now) read.modules.items) }
    ensures counted { IfOk result (λ read. AreCountedModules (map (λ s. s.items) sources.now) read.modules.items read.counts.items) }
    ensures err { IfErr result (IsSetError (map (λ s. s.items) sources.now)) }
{
    if sources.len() == 1 {
        lone_modules(rt, alloc, sources[0].as_slice(), pool)
    } else {
        modules_of_all(rt, alloc, sources, pool)
    }
}

// Why: docs/DECISIONS.md, "Two calls for sets".
/// Returns the modules of a set of sources, their plan, and the number of modules of each source. They are made by a pool, or by as many of its
/// threads as can start.
///
/// # Errors
///
/// `Refused` with the first fault of the sources, or else that of their plan. `Memory` if memory ran out.
#[tactic(auto, using(hm_run_sources::proofs::ModuleCounts::counts_sum))]
pub fn set_modules_by<T: Threads + Wait + Sync>(
    rt: &T,
    alloc: Global,
    sources: &[Vec<u8>],
    pool: Pool,
) -> Result<PlannedModules, PlanError>
    ensures read { IfOk result (λ set. AreModulesOf (map (λ s. s.items) sources.now) set.modules.items) }
    ensures counted { IfOk result (λ set. AreCountedModules (map (λ s. s.items) sources.now) set.modules.items set.counts.items) }
    ensures lawful { IfOk result (λ set. IsLawful (module_outlines set.modules.items)) }
    ensures planned { IfOk result (λ set. IsImportPlan (module_outlines set.modules.items) set.plan) }
    ensures err { IfErr result (λ e. IsPlanError (map (λ s. s.items) sources.now) e) }
    ensures headers { IfErr result (λ e. HaveHeaders (map (λ s. s.items) sources.now) e) }
{
    let read = match source_modules(rt, alloc, sources, pool) {
        Ok(read) => read,
        Err(error) => return Err(source_error(alloc, error)),
    };
    Ok(planned(alloc, read)?)
}
