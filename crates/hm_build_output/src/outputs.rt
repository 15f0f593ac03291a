//! The output of a run before it is written: of a finished build, or of a refused set.
ghost use Rattle.std.specs.Prelude.{◌≡◌, ℕ, List, [], IfOk, IfNone, IfSome, map, string_bytes};
ghost use Rattle.hm_build_messages.specs.Explained.{StatesRefusal, AreMessagesOf};
ghost use Rattle.hm_run_sources.specs.Origins.{AreHeadersFor};
ghost use Rattle.hm_run_sources.specs.Runs.{IsRefusalOf};
ghost use Rattle.hm_store.specs.declared.record.Record.{Record};
ghost use Rattle.hm_build_reports.specs.FinishedBuilds.{IsFinished};
ghost use Rattle.hm_build_output.specs.Outputs.{IsOutput};
ghost use Rattle.hm_run_sources.specs.ModuleCounts.{AreCountedModules};

use crate::answers::finished_answer;
use crate::listed::{finished_text, refused_text};
use crate::options::RunOptions;
use crate::refused::refused_set_messages;
use hm_build_messages::{BuildView, MessageOptions, explanation, starts_of};
use hm_build_reports::{settled_in, skipped_in};
use hm_messages::pages_of;
use hm_run_sources::{RefusedSet, Status, origins_of, refusal_answer};
use hm_store::Store;
use hm_types_prelude::SharedPrelude;
use std::alloc::{AllocError, Global};

/// The status of a run, and what it writes.
#[derive(Drop)]
pub struct Output {
    pub status: Status,
    /// The report or the refusal, as text or as JSON objects.
    pub text: String,
    /// The messages. There are none unless they are requested.
    pub messages: Vec<u8>,
}

/// Returns the messages of a finished build. `counts` has the number of modules of each source.
fn build_messages<'a>(
    alloc: Global,
    store: &'a Store,
    counts: &[usize],
    sources: &'a [Vec<u8>],
    options: &'a MessageOptions,
) -> Result<Vec<u8>, AllocError>
    requires { AreCountedModules (map (λ s. s.items) sources.now) store.now.modules counts.now }
    ensures { IfOk result (λ m. AreMessagesOf options.now.format (map (λ s. s.items) options.now.names.items) (map (λ s.
        s.items) sources.now) store.now m.items) }
{
    // The journal is legal, so the modules are a lawful set.
    store.legal();
    let settled = settled_in(alloc, store)?;
    let modules = store.modules();
    let origins = origins_of(alloc, counts)?;
    let starts = starts_of(alloc, modules, origins.as_slice())?;
    let pages = pages_of(
        alloc,
        options.format,
        sources,
        &options.names,
        starts.as_slice(),
    )?;
    let prelude = SharedPrelude::new(alloc)?;
    let view = BuildView {
        pages: &pages,
        origins: origins.as_slice(),
        modules,
        plan: store.plan(),
        settled: settled.as_slice(),
        store,
        prelude: &prelude,
    };
    Ok(explanation(alloc, &view, skipped_in(settled.as_slice()))?)
}

/// Returns the messages of a finished build if they are requested.
fn finished_messages<'a>(
    alloc: Global,
    store: &'a Store,
    counts: &[usize],
    sources: &'a [Vec<u8>],
    run_options: &'a RunOptions,
) -> Result<Vec<u8>, AllocError>
    requires { AreCountedModules (map (λ s. s.items) sources.now) store.now.modules counts.now }
    ensures some { IfOk result (λ m. IfSome run_options.now.messages (λ o.
        AreMessagesOf o.format (map (λ s. s.items) o.names.items) (map (λ s. s.items) sources.now) store.now m.items)) }
    ensures none { IfOk result (λ m. IfNone run_options.now.messages (m.items ≡ [])) }
{
    match &run_options.messages {
        Some(options) => Ok(build_messages(alloc, store, counts, sources, options)?),
        None => Ok(Vec::new(alloc)),
    }
}

// Why: docs/DECISIONS.md, "One record of what a run writes".
/// Returns the output of a finished build. `counts` has the number of modules of each source.
pub fn finished_output<'a>(
    alloc: Global,
    store: &'a Store,
    counts: &[usize],
    sources: &'a [Vec<u8>],
    run_options: &'a RunOptions,
) -> Result<Output, AllocError>
    requires { AreCountedModules (map (λ s. s.items) sources.now) store.now.modules counts.now }
    ensures { IfOk result (λ o. (records : List Record) → IsFinished (map (λ s. s.items) sources.now) run_options.now.options.workers store.now records
        → IsOutput run_options.now (map (λ s. s.items) sources.now) (map (λ s. s.items) sources.now) o.status (string_bytes o.text) o.messages.items) }
{
    let answer = finished_answer(alloc, store, run_options.options.journal)?;
    let messages = finished_messages(alloc, store, counts, sources, run_options)?;
    let text = finished_text(alloc, store, counts, run_options, answer.text)?;
    Ok(Output {
        status: answer.status,
        text,
        messages,
    })
}

/// Returns the messages of a refused set if they are requested.
fn refused_messages<'a>(
    alloc: Global,
    sources: &'a [Vec<u8>],
    refused: &RefusedSet,
    run_options: &'a RunOptions,
) -> Result<Vec<u8>, AllocError>
    requires because { IsRefusalOf (map (λ s. s.items) sources.now) refused.now.fault }
    requires headers { AreHeadersFor (map (λ s. s.items) sources.now) refused.now.fault refused.now.located.items }
    ensures some { IfOk result (λ m. IfSome run_options.now.messages (λ o.
        StatesRefusal o.format (map (λ s. s.items) o.names.items) (map (λ s. s.items) sources.now) refused.now.fault m.items)) }
    ensures none { IfOk result (λ m. IfNone run_options.now.messages (m.items ≡ [])) }
{
    match &run_options.messages {
        Some(options) => Ok(refused_set_messages(alloc, sources, refused, options)?),
        None => Ok(Vec::new(alloc)),
    }
}

/// Returns the output of a refused set.
pub fn refused_output<'a>(
    alloc: Global,
    sources: &'a [Vec<u8>],
    refused: &RefusedSet,
    run_options: &'a RunOptions,
) -> Result<Output, AllocError>
    requires because { IsRefusalOf (map (λ s. s.items) sources.now) refused.now.fault }
    requires headers { AreHeadersFor (map (λ s. s.items) sources.now) refused.now.fault refused.now.located.items }
    ensures { IfOk result (λ o. IsOutput run_options.now (map (λ s. s.items) sources.now) (map (λ s.
        s.items) sources.now) o.status (string_bytes o.text) o.messages.items) }
{
    let answer = refusal_answer(alloc, &refused.fault)?;
    let messages = refused_messages(alloc, sources, refused, run_options)?;
    let text = refused_text(alloc, &refused.fault, run_options, answer.text)?;
    Ok(Output {
        status: answer.status,
        text,
        messages,
    })
}
