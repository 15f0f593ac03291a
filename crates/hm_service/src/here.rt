//! Checks the texts of a held set on the current thread.
ghost use Rattle.std.specs.Prelude.{◌≡◌, ◌<◌, ◌≤◌, All, IfErr, IfOk, IsTrue, map};
ghost use Rattle.hm_build.specs.Headline.{HasVerdicts};
ghost use Rattle.hm_build_earlier.specs.Earlier.{IsOfTexts};
ghost use Rattle.hm_build_reports.specs.FinishedBuilds.{IsFinished};
ghost use Rattle.hm_run_sources.specs.ModuleCounts.{AreCountedModules};
ghost use Rattle.hm_run_sources.specs.Origins.{AreHeadersFor};
ghost use Rattle.hm_run_sources.specs.Runs.{IsRefusalOf};
ghost use Rattle.hm_service.specs.Checks.{AreUnreadTold, IsCheckOf};
ghost use Rattle.hm_service.specs.Steps.{IsOfPlan};
ghost use Rattle.hm_store_shared.specs.Gathered.{records_in};

use crate::earlier::EarlierChecks;
use crate::faults::build_fault;
use hm_build::{BuildFault, Earlier, Finished, build_after};
use hm_run_sources::{PlanError, RefusedSet, SetFault, SetFaultKind, origins_of, set_modules};
use hm_service_messages::Told;
use hm_service_places::{Checked, ServiceFault, Spelled};
use hm_service_runs::{finished_told, refused_told};
use hm_service_sources::{HeldTexts, all_numbers, checkable, copies, texts_at};
use std::alloc::Global;
use std::sync::Wait;
use std::thread::Threads;

/// The texts of a held set, earlier builds, and the number of workers.
#[derive(Clone, Copy)]
struct Given<'a> {
    held: &'a HeldTexts,
    earlier: &'a [Earlier<'a>],
    workers: usize,
}

/// Returns the diagnostics of the sources that can't be read, if there are any.
fn unread_told(
    alloc: Global,
    held: &HeldTexts,
    workers: usize,
) -> Result<Option<Told>, ServiceFault>
    ensures { IfOk result (AreUnreadTold workers held.now.unread.items (map (λ s. s.items) held.now.texts.items)) }
{
    if held.unread.is_empty() {
        return Ok(None);
    }
    let texts = held.texts.as_slice();
    match set_modules(alloc, texts) {
        Ok(_set) => Err(ServiceFault::Mixed),
        Err(PlanError::Memory) => Err(ServiceFault::Memory),
        Err(PlanError::Refused(refused)) => {
            let told = refused_told(alloc, texts, &refused, held.unread.as_slice(), workers)?;
            Ok(Some(told))
        }
    }
}

/// Returns whether the plan of a set has the fault, and no source.
fn is_of_plan(fault: &SetFault) -> bool
    ensures { IsTrue result → IsOfPlan fault.now }
{
    match &fault.kind {
        SetFaultKind::Lex { .. } => false,
        SetFaultKind::Parse { .. } => false,
        SetFaultKind::Plan { .. } => true,
    }
}

/// Checks the part of a refused set that can be checked.
fn part_checked<T: Threads + Wait + Sync>(
    rt: &T,
    alloc: Global,
    given: &Given<'_>,
    unread: Option<Told>,
    refused: RefusedSet,
) -> Result<Checked, ServiceFault>
    requires earlier { All IsOfTexts given.now.earlier.now }
    requires unread { AreUnreadTold given.now.workers given.now.held.now.unread.items (map (λ s. s.items) given.now.held.now.texts.items) unread }
    requires because { IsRefusalOf (map (λ s. s.items) given.now.held.now.standing.items) refused.fault }
    requires headers { AreHeadersFor (map (λ s. s.items) given.now.held.now.standing.items) refused.fault refused.located.items }
    ensures { IfOk result (IsCheckOf given.now.workers given.now.held.now.unread.items (map (λ s. s.items) given.now.held.now.texts.items) (map (λ s. s.items) given.now.held.now.standing.items)) }
{
    if !is_of_plan(&refused.fault) {
        return Err(ServiceFault::Mixed);
    }
    let workers = given.workers;
    let standing = given.held.standing.as_slice();
    let numbers = all_numbers(alloc, standing.len())?;
    let why = refused_told(alloc, standing, &refused, numbers.as_slice(), workers)?;
    let part = checkable(alloc, refused.located.as_slice(), standing.len())?;
    let texts = texts_at(alloc, standing, part.as_slice())?;
    let build = match build_after(rt, alloc, texts.as_slice(), given.earlier, workers) {
        Ok(build) => build,
        Err(fault) => return Err(build_fault(fault)),
    };
    let told = finished_told(alloc, texts.as_slice(), &build, part.as_slice(), workers)?;
    let spelled = Spelled::of(&texts, &build);
    Ok(Checked {
        part,
        texts,
        unread,
        refused: Some(why),
        told,
        build,
        spelled,
    })
}

/// Makes the result of a check in which no source is left out.
fn whole_checked(
    alloc: Global,
    held: &HeldTexts,
    workers: usize,
    unread: Option<Told>,
    build: Finished,
) -> Result<Checked, ServiceFault>
    requires unread { AreUnreadTold workers held.now.unread.items (map (λ s. s.items) held.now.texts.items) unread }
    requires finished { IsFinished (map (λ s. s.items) held.now.standing.items) workers build.store (records_in build.records) }
    requires counted { AreCountedModules (map (λ s. s.items) held.now.standing.items) build.store.modules build.counts.items }
    requires verdicts { HasVerdicts build.store }
    ensures { IfOk result (IsCheckOf workers held.now.unread.items (map (λ s. s.items) held.now.texts.items) (map (λ s. s.items) held.now.standing.items)) }
{
    let standing = held.standing.as_slice();
    // The journal is legal, so the modules are a lawful set.
    build.store.legal();
    // Each module has its source.
    let origins = origins_of(alloc, build.counts.as_slice())?;
    drop(origins);
    let part = all_numbers(alloc, standing.len())?;
    let texts = copies(alloc, standing)?;
    let told = finished_told(alloc, texts.as_slice(), &build, part.as_slice(), workers)?;
    let spelled = Spelled::of(&texts, &build);
    Ok(Checked {
        part,
        texts,
        unread,
        refused: None,
        told,
        build,
        spelled,
    })
}

/// Checks the texts of a held set on this thread, whose stack must be large enough.
pub(crate) fn check_here<T: Threads + Wait + Sync, E: EarlierChecks>(
    rt: &T,
    alloc: Global,
    held: &HeldTexts,
    earlier: &E,
    workers: usize,
) -> Result<Checked, ServiceFault>
    requires { (0 < workers) × (workers ≤ 16) }
    ensures { IfOk result (IsCheckOf workers held.now.unread.items (map (λ s. s.items) held.now.texts.items) (map (λ s. s.items) held.now.standing.items)) }
{
    let builds = earlier.builds(alloc)?;
    let earlier = builds.as_slice();
    let unread = unread_told(alloc, held, workers)?;
    let given = Given {
        held,
        earlier,
        workers,
    };
    match build_after(rt, alloc, held.standing.as_slice(), earlier, workers) {
        Ok(build) => whole_checked(alloc, held, workers, unread, build),
        Err(BuildFault::Refused(refused)) => part_checked(rt, alloc, &given, unread, refused),
        Err(fault) => Err(build_fault(fault)),
    }
}
