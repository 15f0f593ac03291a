//! The messages of runs as diagnostics.
ghost use Rattle.std.specs.Prelude.{◌≡◌, ◌<◌, ◌≤◌, IfOk, List, ℕ, length, map};
ghost use Rattle.hm_run_sources.specs.ModuleCounts.{AreCountedModules};
ghost use Rattle.hm_run_sources.specs.Origins.{AreHeadersFor};
ghost use Rattle.hm_run_sources.specs.Runs.{IsRefusalOf};
ghost use Rattle.hm_build_reports.specs.FinishedBuilds.{IsFinished};
ghost use Rattle.hm_store_shared.specs.Gathered.{records_in};
ghost use Rattle.hm_service_runs.specs.Runs.{AreOptionsFor, IsRunTold};

use hm_build_messages::MessageOptions;
use hm_build_output::{Options, RunOptions, finished_output, refused_output};
use hm_build_stages::Finished;
use hm_messages::MessageFormat;
use hm_run_sources::{RefusedSet, Trees};
use hm_service_messages::{Told, told_in};
use hm_service_places::{ServiceFault, names_of};
use std::alloc::{AllocError, Global};

/// Returns the options of a run of sources with these numbers, with messages as JSON objects.
fn options_for(alloc: Global, numbers: &[usize], workers: usize) -> Result<RunOptions, AllocError>
    ensures { IfOk result (AreOptionsFor numbers.now workers) }
{
    let names = names_of(alloc, numbers)?;
    Ok(RunOptions {
        options: Options {
            workers,
            journal: false,
            trees: Trees::Dropped,
        },
        messages: Some(MessageOptions {
            names,
            format: MessageFormat::Json,
        }),
        listed: None,
    })
}

/// Returns the diagnostics of a run of refused sources. `numbers` has the number of each.
pub fn refused_told(
    alloc: Global,
    sources: &[Vec<u8>],
    refused: &RefusedSet,
    numbers: &[usize],
    workers: usize,
) -> Result<Told, ServiceFault>
    requires because { IsRefusalOf (map (λ s. s.items) sources.now) refused.now.fault }
    requires headers { AreHeadersFor (map (λ s. s.items) sources.now) refused.now.fault refused.now.located.items }
    ensures { IfOk result (IsRunTold workers numbers.now (map (λ s. s.items) sources.now)) }
{
    let options = options_for(alloc, numbers, workers)?;
    let output = refused_output(alloc, sources, refused, &options)?;
    let told = told_in(alloc, output.messages.as_slice())?;
    Ok(told)
}

/// Returns the diagnostics of a run of sources whose build is finished. `numbers` has the number of each.
pub fn finished_told(
    alloc: Global,
    sources: &[Vec<u8>],
    finished: &Finished,
    numbers: &[usize],
    workers: usize,
) -> Result<Told, ServiceFault>
    requires finished { IsFinished (map (λ s. s.items) sources.now) workers finished.now.store (records_in finished.now.records) }
    requires counted { AreCountedModules (map (λ s. s.items) sources.now) finished.now.store.modules finished.now.counts.items }
    ensures { IfOk result (IsRunTold workers numbers.now (map (λ s. s.items) sources.now)) }
{
    let options = options_for(alloc, numbers, workers)?;
    let counts = finished.counts.as_slice();
    let output = finished_output(alloc, &finished.store, counts, sources, &options)?;
    let told = told_in(alloc, output.messages.as_slice())?;
    Ok(told)
}
