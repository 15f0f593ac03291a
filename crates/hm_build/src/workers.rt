//! The workers of a build, which claim modules and check them.
ghost use Rattle.std.specs.Prelude.{◌≡◌, ◌≢◌, ◌<◌, ◌≤◌, ◌+◌, ◌⊎◌, ◌↔◌, [], All, IfErr, IfOk, IsErrOf, IsOk, length, map, slice_index_or, vec_len};
ghost use Rattle.std.specs.Arc.{arc_value};
ghost use Rattle.hm_check.specs.Refusals.{IsRefused};
ghost use Rattle.hm_store_published.specs.Publications.{IsLawful};
ghost use Rattle.hm_store.specs.declared.object.Refusal.TheVariants.{NotYours, Stranger};
ghost use Rattle.hm_store.specs.declared.object.Turn.TheVariants.{Job};
ghost use Rattle.hm_store_shared.specs.Listings.{HasImports, IsOfSeen, IsWithin};
ghost use Rattle.hm_store_shared.specs.Knowing.{HasClaimed, IsStopped};
ghost use Rattle.hm_store_shared.specs.Passes.{known_of, room_of, seen_of, worker_of};
ghost use Rattle.hm_build.specs.Workers.{HasRoomIn, IsWorkError, IsWorkOf, calls_of};

use crate::{BuildFault, Gate};
use hm_build_earlier::outcome_from;
use hm_check::{CheckFault, check_module_within};
use hm_names::TypeLimits;
use hm_run_sources::{SourceModule, source_of};
use hm_store::{Refusal, Turn};
use hm_store_published::{LookFault, Naming, Published, Step};
use hm_store_shared::laws::{claims_fit_the_room, replies_are_known, seen_imports_are_asked_for};
use hm_store_shared::{Pass, Shared};
use hm_syntax::Module;
use hm_types::Interface;
use hm_types_prelude::SharedPrelude;
use hm_verdicts::Outcome;
use left_right::Absorb;
use std::alloc::{AllocError, Global};
use std::sync::ledger::Ledger;
use std::sync::{Arc, Wait};
use std::thread;
use std::thread::{Builder, JoinHandle, Threads};

/// Why workers stopped before the build was complete.
#[derive(Clone, Copy, Debug, PartialEq, Eq)]
pub(crate) enum WorkFault {
    /// No thread could start.
    NoWorker,
    /// Memory ran out in a look or a publication, or when the workers were started.
    Memory,
    /// Memory ran out in the check of the module with this number.
    Exhausted(usize),
    /// The store or the checker refused a call.
    Mixed,
}

impl WorkFault {
    /// Returns the fault to report: `Mixed` if there is one, else `Exhausted` with the smaller number, else the second fault.
    fn or(self, other: WorkFault) -> WorkFault
        // One of the two; `Mixed` comes before all others.
        ensures one { (result ≡ self) ⊎ (result ≡ other) }
        ensures mixed { (self ≡ WorkFault.Mixed) ⊎ (other ≡ WorkFault.Mixed) → result ≡ WorkFault.Mixed }
    {
        match (self, other) {
            (WorkFault::Mixed, _) | (_, WorkFault::Mixed) => WorkFault::Mixed,
            (WorkFault::Exhausted(one), WorkFault::Exhausted(two)) => {
                WorkFault::Exhausted(one.min(two))
            }
            (WorkFault::Exhausted(one), _) => WorkFault::Exhausted(one),
            (_, other) => other,
        }
    }
}

/// Returns what two workers return together: a fault if one of them has a fault, and the one to report if both have.
fn both(one: Result<(), WorkFault>, other: Result<(), WorkFault>) -> Result<(), WorkFault>
    ensures ok { IsOk result ↔ (IsOk one × IsOk other) }
    ensures given { (result ≡ one) ⊎ (result ≡ other) }
    ensures mixed { IsErrOf one WorkFault.Mixed ⊎ IsErrOf other WorkFault.Mixed → IsErrOf result WorkFault.Mixed }
{
    match (one, other) {
        (Ok(()), other) => other,
        (one, Ok(())) => one,
        (Err(one), Err(other)) => Err(one.or(other)),
    }
}

// Why: docs/DECISIONS.md, "The module without memory".
/// Returns the fault of a build that has no memory to check the module with this number. `counts` has the number of modules of each source.
fn exhausted(modules: &[Arc<Module>], counts: &[usize], number: usize) -> BuildFault
    requires { number < length modules.now }
    ensures { IsWorkError (map arc_value modules.now) counts.now result }
{
    let Some(source) = source_of(counts, number) else {
        return BuildFault::Memory;
    };
    match modules[number].header.name.copy() {
        Ok(name) => BuildFault::Exhausted(SourceModule {
            number,
            source,
            name,
        }),
        Err(AllocError) => BuildFault::Memory,
    }
}

/// Returns the fault of a build of these modules. `counts` has the number of modules of each source.
pub(crate) fn build_fault(fault: WorkFault, modules: &[Arc<Module>], counts: &[usize]) -> BuildFault
    ensures error { IsWorkError (map arc_value modules.now) counts.now result }
    ensures no_worker { fault ≡ WorkFault.NoWorker → result ≡ BuildFault.NoWorker }
    ensures mixed { fault ≡ WorkFault.Mixed → result ≡ BuildFault.Mixed }
{
    match fault {
        WorkFault::NoWorker => BuildFault::NoWorker,
        WorkFault::Exhausted(number) if number < modules.len() => {
            exhausted(modules, counts, number)
        }
        WorkFault::Memory | WorkFault::Exhausted(_) => BuildFault::Memory,
        WorkFault::Mixed => BuildFault::Mixed,
    }
}

/// What the workers share.
#[derive(Drop)]
pub(crate) struct Work<'a, L: Ledger + Naming, G: Gate, W: Wait + Drop>
where
    Published<L>: Absorb<Step<L>>,
{
    pub alloc: Global,
    pub shared: &'a Shared<L, W>,
    /// The modules of the store.
    pub modules: &'a [Arc<Module>],
    /// For each module, the numbers of the modules that it imports, in order of first import.
    pub imports: &'a [Vec<usize>],
    pub gate: &'a G,
    /// The limits for the types of a module.
    pub limits: TypeLimits,
    pub prelude: &'a SharedPrelude,
    /// For each module, the outcomes that earlier builds have for modules of its name. No rows if there is no earlier build.
    pub earlier: &'a [Vec<&'a Outcome>],
}

// Why: docs/DECISIONS.md, "Mixed".
/// Returns the worker's fault if the store refuses an outcome. The only reason left is that memory ran out.
fn fault_of(refusal: Refusal) -> WorkFault
    requires stranger { refusal ≢ Stranger }
    requires yours { refusal ≢ NotYours }
    ensures { result ≡ WorkFault.Memory }
{
    match refusal {
        Refusal::Memory => WorkFault::Memory,
        Refusal::NotYours => unreachable!(),
        Refusal::Stranger => unreachable!(),
    }
}

/// Publishes or fails a module that the worker has claimed. The outcome must be that of the module for the interfaces that the pass has seen.
fn settle<L: Ledger + Naming, G: Gate, W: Wait + Drop, R: Wait>(
    rt: &R,
    work: &Work<'_, L, G, W>,
    pass: &mut Pass<L>,
    number: usize,
    outcome: Outcome,
) -> Result<(), WorkFault>
    requires room { 0 < room_of pass.old }
    requires fits { IsOfSeen L.modules L.plan (seen_of pass.old) number outcome }
    requires has { HasClaimed (worker_of pass.old) (known_of pass.old) number }
    ensures room { room_of pass.old ≤ room_of pass.new + 1 }
    ensures worker { worker_of pass.new ≡ worker_of pass.old }
    ensures calls { calls_of L.plan (worker_of pass.old) (known_of pass.new) ≡ calls_of L.plan (worker_of pass.old) (known_of pass.old) }
    ensures memory { IfErr result (λ fault. fault ≡ WorkFault.Memory) }
{
    replies_are_known();
    claims_fit_the_room();
    if outcome.is_good() {
        return match work.shared.publish_claimed(rt, pass, number, outcome) {
            Ok(()) => Ok(()),
            Err(_) => Err(WorkFault::Memory),
        };
    }
    match work.shared.fail(rt, pass, number, outcome) {
        Ok(()) => Ok(()),
        Err((refusal, _)) => Err(fault_of(refusal)),
    }
}

// Why: docs/DECISIONS.md, "Earlier checks".
/// Returns the outcome of the module with this number for the interfaces of its imports: one that an earlier build has, or else that of a check.
fn outcome_of<L: Ledger + Naming, G: Gate, W: Wait + Drop>(
    work: &Work<'_, L, G, W>,
    number: usize,
    module: &Arc<Module>,
    imports: &[Arc<Interface>],
) -> Result<Outcome, CheckFault>
    ensures refused { IfErr result (IsRefused (arc_value «module».now) (map arc_value imports.now)) }
    ensures module { IfOk result (λ o. o.«module» ≡ arc_value «module».now) }
    ensures imports { IfOk result (λ o. o.imports ≡ map arc_value imports.now) }
{
    if let Some(outcomes) = work.earlier.get(number) {
        if let Some(outcome) = outcome_from(work.alloc, outcomes.as_slice(), module, imports)? {
            return Ok(outcome);
        }
    }
    Ok(check_module_within(work.alloc, work.prelude, module, imports, work.limits)?)
}

// Why: docs/DECISIONS.md, "Workers' contracts".
/// Checks a claimed module. The pass has seen all its imports, so each look finds one, and they are those that the module requires.
/// Takes a call for each import and one more.
fn check_one<L: Ledger + Naming, G: Gate, W: Wait + Drop, R: Wait>(
    rt: &R,
    work: &Work<'_, L, G, W>,
    pass: &mut Pass<L>,
    number: usize,
) -> Result<(), WorkFault>
    requires work { IsWorkOf L.modules L.plan (map arc_value work.now.modules.now) (map (λ row. row.items) work.now.imports.now) }
    requires within { IsWithin (length L.modules) (Job number) × IsWithin (length L.plan) (Job number) }
    requires imports { HasImports L.plan (Job number) (seen_of pass.old) }
    requires has { HasClaimed (worker_of pass.old) (known_of pass.old) number }
    requires lawful { IsLawful L.modules L.plan (seen_of pass.old) }
    requires room { length (slice_index_or L.plan number []) + 2 ≤ room_of pass.old }
    ensures room { room_of pass.old ≤ room_of pass.new + (length (slice_index_or L.plan number []) + 1) }
    ensures worker { worker_of pass.new ≡ worker_of pass.old }
    ensures calls { calls_of L.plan (worker_of pass.old) (known_of pass.new) ≡ calls_of L.plan (worker_of pass.old) (known_of pass.old) }
{
    seen_imports_are_asked_for();
    let numbers = work.imports[number].as_slice();
    let interfaces = match pass.look_at_all(work.alloc, numbers) {
        Ok(interfaces) => interfaces,
        Err(LookFault::NoEntry) => return Err(WorkFault::Mixed),
        Err(LookFault::Memory) => return Err(WorkFault::Memory),
    };
    work.gate.enter(pass.worker(), number);
    match outcome_of(work, number, &work.modules[number], interfaces.as_slice()) {
        Ok(outcome) => settle(rt, work, pass, number, outcome),
        Err(CheckFault::Memory) => Err(WorkFault::Exhausted(number)),
        Err(CheckFault::Imports) => unreachable!(),
    }
}

/// Claims and checks modules until none is left. There is room for that, and for a stop.
fn check_all<L: Ledger + Naming, G: Gate, W: Wait + Drop, R: Wait>(
    rt: &R,
    work: &Work<'_, L, G, W>,
    pass: &mut Pass<L>,
) -> Result<(), WorkFault>
    requires work { IsWorkOf L.modules L.plan (map arc_value work.now.modules.now) (map (λ row. row.items) work.now.imports.now) }
    requires room { HasRoomIn L.plan pass.old }
    ensures { 0 < room_of pass.new }
{
    replies_are_known();
    claims_fit_the_room();
    for _ in rt.forever() {
        match work.shared.claim(rt, pass) {
            Turn::Job(number) => check_one(rt, work, pass, number)?,
            Turn::Done => return Ok(()),
        }
    }
    unreachable!()
}

// Why: docs/DECISIONS.md, "Room for a stop".
/// Runs one worker. If it fails, it stops the build.
fn run_worker<L: Ledger + Naming, G: Gate, W: Wait + Drop, R: Wait>(
    rt: &R,
    work: &Work<'_, L, G, W>,
    pass: &mut Pass<L>,
) -> Result<(), WorkFault>
    requires work { IsWorkOf L.modules L.plan (map arc_value work.now.modules.now) (map (λ row. row.items) work.now.imports.now) }
    requires room { HasRoomIn L.plan pass.old }
    // If a worker fails, the journal that it has seen has a stop.
    ensures stopped { IfErr result (λ _. IsStopped L.modules L.plan (known_of pass.new)) }
{
    let ended = check_all(rt, work, pass);
    if ended.is_err() {
        work.shared.stop(rt, pass);
    }
    ended
}

// Why: docs/DECISIONS.md, "Joins", "Mixed before a stop".
/// Waits for all workers, and returns the fault to report.
fn join_all<R: Threads>(
    rt: &R,
    workers: Vec<JoinHandle<Result<(), WorkFault>>>,
) -> Result<(), WorkFault> {
    let mut all = Ok(());
    for worker in workers {
        all = both(all, worker.join(rt));
    }
    all
}

// Why: docs/DECISIONS.md, "Threads that don't start".
/// Runs a worker for each pass, on threads with stacks of this size. Starts as many threads as it can. Returns the passes.
pub(crate) fn run_workers<
    L: Ledger + Naming + Send + Sync,
    G: Gate + Sync,
    W: Wait + Drop + Send,
    R: Threads + Wait + Sync,
>(
    rt: &R,
    work: &Work<'_, L, G, W>,
    mut passes: Vec<Pass<L>>,
    stack: usize,
) -> (Vec<Pass<L>>, Result<(), WorkFault>)
    requires work { IsWorkOf L.modules L.plan (map arc_value work.now.modules.now) (map (λ row. row.items) work.now.imports.now) }
    requires room { All (HasRoomIn L.plan) passes.items }
    ensures { vec_len result.0 ≡ vec_len passes }
{
    let count = passes.len();
    let lent = passes.as_mut_slice();
    let ended = thread::scope(
        thread::scope_env(),
        rt,
        move |scope| -> Result<(), WorkFault>
            requires work { IsWorkOf L.modules L.plan (map arc_value work.now.modules.now) (map (λ row. row.items) work.now.imports.now) }
            requires room { All (HasRoomIn L.plan) lent.now }
        {
            let Ok(mut workers) = Vec::with_capacity(work.alloc, count) else {
                return Err(WorkFault::Memory);
            };
            for pass in lent.iter_mut() {
                let thread = Builder::new().stack_size(stack);
                if let Ok(worker) = thread.spawn_scoped(
                    scope,
                    move || -> Result<(), WorkFault>
                        requires work { IsWorkOf L.modules L.plan (map arc_value work.now.modules.now) (map (λ row. row.items) work.now.imports.now) }
                        requires room { HasRoomIn L.plan pass.now }
                    { run_worker(rt, work, pass) },
                ) {
                    let _ = workers.push(worker);
                }
            }
            if workers.is_empty() {
                return Err(WorkFault::NoWorker);
            }
            join_all(rt, workers)
        },
    );
    (passes, ended)
}
