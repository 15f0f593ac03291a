//! Builds the modules of sources. Each worker checks a module for the published interfaces of its imports.
ghost use Rattle.std.specs.Prelude.{◌≡◌, ◌⊎◌, ◌↔◌, ◌<◌, ◌≤◌, ◌^◌, ℕ, List, [], All, IfErr, IfOk, IsErrOf, length, map, min};
ghost use Rattle.std.specs.Arc.{arc_value};
ghost use Rattle.hm_build_earlier.specs.Earlier.{IsOfTexts};
ghost use Rattle.hm_build_stages.specs.Errors.{IsBuildError, IsBuildFault};
ghost use Rattle.hm_build_reports.specs.FinishedBuilds.{IsFinished};
ghost use Rattle.hm_store_shared.specs.Gathered.{records_in, written_in};
ghost use Rattle.hm_build.specs.Headline.{HasVerdicts};
ghost use Rattle.hm_build.specs.Workers.{IsWorkError};
ghost use Rattle.hm_run_sources.specs.ModuleCounts.{AreCountedModules};
ghost use Rattle.hm_run_sources.specs.SourceModules.{AreModulesOf};

use crate::limits::type_limits;
use crate::workers::{Work, build_fault, run_workers};
use crate::{BuildFault, Finished, Gate, Open};
use core::thread::Stack;
use hm_build_earlier::{Earlier, named_outcomes, read_after};
use hm_build_reports::may_work;
use hm_build_stages::{Fresh, finished, room_for};
use hm_run_parallel_parse::Pool;
use hm_run_sources::Nesting;
use hm_store::laws::settled_builds_are_settled_sets;
use hm_store_journal::Unnamed;
use hm_store_published::{Naming, Opened};
use hm_store_shared::{Brands, Crew, Records, Shared};
use hm_verdicts::settled_modules_have_their_verdicts;
use std::alloc::Global;
use std::marker::Brand;
use std::snapshot::Snapshot;
use std::sync::Wait;
use std::sync::ledger::{Blank, Ledger};
use std::thread;
use std::thread::{Promise, Threads};

/// The parameters of a build.
#[derive(Drop)]
pub(crate) struct Task<'a, G: Gate> {
    pub workers: usize,
    pub gate: &'a G,
    /// Builds from which this one takes what hasn't changed.
    pub earlier: &'a [Earlier<'a>],
    /// How deep the sources nest. Stacks and the limits of types depend on it.
    pub nesting: Nesting,
}

/// Runs the workers on a new store, and checks that the build is complete.
#[tactic(auto, using(crate::proofs::JobRows::work_is, crate::proofs::Rooms::all_have_room, crate::proofs::BuildFaults::from_shared, crate::proofs::BuildFaults::from_memory, crate::proofs::BuildFaults::from_end))]
fn worked<L: Ledger + Naming + Send + Sync, G: Gate + Sync, R: Threads + Wait + Sync>(
    rt: &R,
    alloc: Global,
    fresh: Fresh,
    task: &Task<'_, G>,
    brands: Brands,
) -> Result<Finished, BuildFault>
    requires brand { (brands.blank.name ≡ L.name) × (brands.blank.parts ≡ L.parts) × (brands.blank.parts ≡ task.now.workers) }
    requires list { brands.opened.seen.book ≡ L.book }
    requires table { brands.unnamed.seat.table_id ≡ L.table }
    requires subjects { fresh.store.modules ≡ L.modules }
    requires same { map arc_value fresh.modules.items ≡ fresh.store.modules }
    requires plan { fresh.store.given.imports ≡ L.plan }
    requires rows { map (λ row. row.items) fresh.imports.items ≡ fresh.store.given.imports }
    requires workers { (0 < task.now.workers) × (task.now.workers ≤ 16) }
    requires empty { fresh.store.journal ≡ [] }
    ensures finished { IfOk result (λ f. (sources : List (List ℕ)) → AreModulesOf sources (map arc_value fresh.modules.items)
        → IsFinished sources task.now.workers f.store (records_in f.records)) }
    ensures counted { IfOk result (λ f. (sources : List (List ℕ)) → AreCountedModules sources (map arc_value fresh.modules.items) fresh.counts.items
        → AreCountedModules sources f.store.modules f.counts.items) }
    ensures written { IfOk result (λ f. written_in (records_in f.records) ≡ length f.store.journal) }
    ensures err { IfErr result (IsWorkError (map arc_value fresh.modules.items) fresh.counts.items) }
{
    let Fresh {
        modules,
        imports,
        counts,
        store,
        prelude,
    } = fresh;
    // Shows that the store's modules are a lawful set, as the workers require.
    let _entries = store.entries();
    let workers = task.workers;
    let room = room_for(imports.as_slice())?;
    let crew = Crew { workers, room };
    let earlier = named_outcomes(alloc, task.earlier, modules.as_slice())?;
    let (shared, passes) = Shared::<L, &R>::new(alloc, rt, store, crew, brands)?;
    let work = Work {
        alloc,
        shared: &shared,
        modules: modules.as_slice(),
        imports: imports.as_slice(),
        gate: task.gate,
        limits: type_limits(task.nesting, modules.len()),
        prelude: &prelude,
        earlier: earlier.as_slice(),
    };
    let stack = task.nesting.worker_stack_size();
    let (passes, ended) = run_workers(rt, &work, passes, stack);
    match ended {
        Ok(()) => {}
        Err(fault) => return Err(build_fault(fault, modules.as_slice(), counts.as_slice())),
    }
    let (store, mut book) = shared.into_store();
    let records = Records::of(alloc, &store, &mut book, passes)?;
    finished(alloc, store, records, counts, workers)
}

/// Builds the modules of sources on this thread, whose stack must be large enough. `build` and `run` both call it.
pub(crate) fn build_here<T: Threads + Wait + Sync, G: Gate + Sync>(
    rt: &T,
    alloc: Global,
    sources: &[Vec<u8>],
    task: Task<'_, G>,
) -> Result<Finished, BuildFault>
    requires workers { (0 < task.workers) × (task.workers ≤ 16) }
    requires earlier { All IsOfTexts task.earlier.now }
    ensures finished { IfOk result (λ f. IsFinished (map (λ s. s.items) sources.now) task.entry.workers f.store (records_in f.records)) }
    ensures counted { IfOk result (λ f. AreCountedModules (map (λ s. s.items) sources.now) f.store.modules f.counts.items) }
    ensures written { IfOk result (λ f. written_in (records_in f.records) ≡ length f.store.journal) }
    ensures verdicts { IfOk result (λ f. HasVerdicts f.store) }
    ensures err { IfErr result (IsBuildError (map (λ s. s.items) sources.now)) }
{
    settled_builds_are_settled_sets();
    settled_modules_have_their_verdicts();
    let Ok(unnamed) = Unnamed::new(alloc) else {
        return Err(BuildFault::Memory);
    };
    let pool = Pool {
        threads: task.workers,
        stack: task.nesting.stack_size(),
    };
    let fresh = read_after(rt, alloc, sources, task.earlier, pool)?;
    let brands = Brands {
        blank: Blank::new(task.workers as u64),
        opened: Opened::new(),
        unnamed,
    };
    worked::<Brand, G, T>(rt, alloc, fresh, &task, brands)
}

/// What a thread promises: it returns a build of these sources by this number of workers.
#[derive(Drop)]
struct BuildOf {
    sources: Snapshot<Vec<Vec<u8>>>,
    workers: usize,
}

impl Promise<Result<Finished, BuildFault>> for BuildOf {
    ghost use Rattle.std.specs.Prelude.{◌≡◌, IfErr, IfOk, length, map};
    ghost use Rattle.hm_build_stages.specs.Errors.{IsBuildError};
    ghost use Rattle.hm_build_reports.specs.FinishedBuilds.{IsFinished};
    ghost use Rattle.hm_store_shared.specs.Gathered.{records_in, written_in};
    ghost use Rattle.hm_build.specs.Headline.{HasVerdicts};
    ghost use Rattle.hm_run_sources.specs.ModuleCounts.{AreCountedModules};

    ghost kept_by = { λ p r. IfOk r (λ f. IsFinished (map (λ s. s.items) p.sources.value.items) p.workers f.store (records_in f.records)) × (IfOk r (λ f. AreCountedModules (map (λ s. s.items) p.sources.value.items) f.store.modules f.counts.items) × (IfOk r (λ f. written_in (records_in f.records) ≡ length f.store.journal) × (IfOk r (λ f. HasVerdicts f.store) × IfErr r (IsBuildError (map (λ s. s.items) p.sources.value.items))))) };
}

/// Builds the modules of sources on a new thread with a large stack.
fn build_on_thread<T: Threads + Wait + Sync, G: Gate + Sync>(
    rt: &T,
    alloc: Global,
    sources: Vec<Vec<u8>>,
    workers: usize,
    gate: &G,
) -> Result<Finished, BuildFault>
    requires { (0 < workers) × (workers ≤ 16) }
    ensures finished { IfOk result (λ f. IsFinished (map (λ s. s.items) sources.items) workers f.store (records_in f.records)) }
    ensures counted { IfOk result (λ f. AreCountedModules (map (λ s. s.items) sources.items) f.store.modules f.counts.items) }
    ensures written { IfOk result (λ f. written_in (records_in f.records) ≡ length f.store.journal) }
    ensures verdicts { IfOk result (λ f. HasVerdicts f.store) }
    ensures err { IfErr result (IsBuildError (map (λ s. s.items) sources.items)) }
{
    thread::scope(
        thread::scope_env(),
        rt,
        move |scope| -> Result<Finished, BuildFault>
            requires { (0 < workers) × (workers ≤ 16) }
            ensures finished { IfOk result (λ f. IsFinished (map (λ s. s.items) sources.items) workers f.store (records_in f.records)) }
            ensures counted { IfOk result (λ f. AreCountedModules (map (λ s. s.items) sources.items) f.store.modules f.counts.items) }
            ensures written { IfOk result (λ f. written_in (records_in f.records) ≡ length f.store.journal) }
            ensures verdicts { IfOk result (λ f. HasVerdicts f.store) }
            ensures err { IfErr result (IsBuildError (map (λ s. s.items) sources.items)) }
        {
            let promise = BuildOf {
                sources: Snapshot::of(&sources),
                workers,
            };
            let nesting = Nesting::of(&sources);
            let thread = Stack::new().stack_size(nesting.stack_size());
            let work = move ||
                requires { (0 < workers) × (workers ≤ 16) }
            {
                let task = Task {
                    workers,
                    gate,
                    earlier: &[],
                    nesting,
                };
                build_here(rt, alloc, &sources, task)
            };
            match thread.spawn_scoped_with(scope, promise, work) {
                Ok(builder) => builder.join(rt),
                Err(_) => Err(BuildFault::NoWorker),
            }
        },
    )
}

// Why: docs/DECISIONS.md, "Sources by value".
/// Checks all modules of these sources with the given number of workers, and returns the finished build.
///
/// A worker passes the gate before each check. It checks a module for the published interfaces of its imports.
///
/// # Errors
///
/// - `Workers` if the number of workers is 0 or above 16. No source is read then.
/// - `Refused` if a source has a lexical or syntax fault, or if the set of modules is unlawful.
/// - The other faults if memory ran out, no thread could start, or the workers contradict the store.
pub fn build<T: Threads + Wait + Sync, G: Gate + Sync>(
    rt: &T,
    alloc: Global,
    sources: Vec<Vec<u8>>,
    workers: usize,
    gate: &G,
) -> Result<Finished, BuildFault>
    // The journal is legal, settles each module, and agrees with the record of each worker.
    ensures finished { IfOk result (λ f. IsFinished (map (λ s. s.items) sources.items) workers f.store (records_in f.records)) }
    // Each source has its number of modules.
    ensures counted { IfOk result (λ f. AreCountedModules (map (λ s. s.items) sources.items) f.store.modules f.counts.items) }
    // The journal has as many entries as the recorded calls of the workers wrote.
    ensures written { IfOk result (λ f. written_in (records_in f.records) ≡ length f.store.journal) }
    // Each module has the verdict that the rules give it in its set.
    ensures verdicts { IfOk result (λ f. HasVerdicts f.store) }
    // The number of workers is checked before any source is read.
    ensures workers { IsErrOf result BuildFault.Workers ↔ ((workers ≡ 0) ⊎ (16 < workers)) }
    // If the sources are refused, this is their first fault.
    ensures refused { IfErr result (IsBuildFault (map (λ s. s.items) sources.items)) }
{
    if !may_work(workers) {
        return Err(BuildFault::Workers);
    }
    build_on_thread(rt, alloc, sources, workers, gate)
}

// Why: docs/DECISIONS.md, "Earlier checks".
/// Does what `build` does with an open gate, and takes from earlier builds what hasn't changed: the modules of sources with equal texts, and the
/// outcomes of good modules that are equal and have equal interfaces of their imports. The result is the same; an unchanged module takes the time of
/// a comparison.
///
/// It works on this thread, whose stack must be as large as `Nesting` says for the sources.
///
/// # Errors
///
/// Those of `build`.
pub fn build_after<T: Threads + Wait + Sync>(
    rt: &T,
    alloc: Global,
    sources: &[Vec<u8>],
    earlier: &[Earlier<'_>],
    workers: usize,
) -> Result<Finished, BuildFault>
    requires { All IsOfTexts earlier.now }
    // The journal is legal, settles each module, and agrees with the record of each worker.
    ensures finished { IfOk result (λ f. IsFinished (map (λ s. s.items) sources.now) workers f.store (records_in f.records)) }
    // Each source has its number of modules.
    ensures counted { IfOk result (λ f. AreCountedModules (map (λ s. s.items) sources.now) f.store.modules f.counts.items) }
    // The journal has as many entries as the recorded calls of the workers wrote.
    ensures written { IfOk result (λ f. written_in (records_in f.records) ≡ length f.store.journal) }
    // Each module has the verdict that the rules give it in its set.
    ensures verdicts { IfOk result (λ f. HasVerdicts f.store) }
    // The number of workers is checked before any source is read.
    ensures workers { IsErrOf result BuildFault.Workers ↔ ((workers ≡ 0) ⊎ (16 < workers)) }
    // If the sources are refused, this is their first fault.
    ensures refused { IfErr result (IsBuildFault (map (λ s. s.items) sources.now)) }
{
    if !may_work(workers) {
        return Err(BuildFault::Workers);
    }
    let task = Task {
        workers,
        gate: &Open,
        earlier,
        nesting: Nesting::of(sources),
    };
    build_here(rt, alloc, sources, task)
}
