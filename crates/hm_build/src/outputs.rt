//! The output of a run before it is written, or why there is none.
ghost use Rattle.std.specs.Prelude.{◌≡◌, ◌⊎◌, ◌<◌, ◌≤◌, None, IfOk, IfErr, IfSome, map, string_bytes};
ghost use Rattle.hm_build_output.specs.Outputs.{IsExhaustionFor, IsOutput};

use crate::building::{Task, build_here};
use crate::{BuildFault, Finished, Open, Options};
use hm_build_output::{Output, RunOptions, exhausted_message, finished_output, refused_output};
use hm_build_stages::drop_by_threads;
use hm_run_io::RunFault;
use hm_run_sources::{Nesting, Trees};
use std::alloc::{AllocError, Global};
use std::mem;
use std::sync::Wait;
use std::thread::Threads;

/// Why a run has no output.
#[derive(Drop)]
pub(crate) struct NoOutput {
    pub fault: RunFault,
    /// Names the module whose check ran out of memory.
    pub message: Option<Vec<u8>>,
}

impl From<AllocError> for NoOutput {
    ghost use Rattle.std.specs.Prelude.{◌≡◌, None};
    ghost use Rattle.hm_run_io.specs.declared.faults.RunFault.TheVariants.{Memory};

    ghost from_gives = { λ _ none. (none.fault ≡ Memory) × (none.message ≡ None) };

    fn from(_error: AllocError) -> NoOutput {
        NoOutput::of(RunFault::Memory)
    }
}

impl NoOutput {
    /// Returns a fault without a message.
    pub(crate) fn of(fault: RunFault) -> NoOutput
        ensures fault { result.fault ≡ fault }
        ensures message { result.message ≡ None }
    {
        NoOutput {
            fault,
            message: None,
        }
    }
}

/// Drops a finished build, or leaves its trees in memory, as the options say.
fn let_go<T: Threads + Wait + Sync>(
    rt: &T,
    alloc: Global,
    finished: Finished,
    options: Options,
    nesting: Nesting,
) {
    match options.trees {
        Trees::Dropped => {
            drop_by_threads(rt, alloc, finished, options.workers, nesting.stack_size());
        }
        Trees::Left => mem::forget(finished),
    }
}

/// Returns the output of a build of these sources, or of their refusal.
pub(crate) fn build_output<'a, T: Threads + Wait + Sync>(
    rt: &T,
    alloc: Global,
    sources: &'a [Vec<u8>],
    run_options: &'a RunOptions,
    nesting: Nesting,
) -> Result<Output, NoOutput>
    requires { (0 < run_options.now.options.workers) × (run_options.now.options.workers ≤ 16) }
    ensures ok { IfOk result (λ o. IsOutput run_options.now (map (λ s. s.items) sources.now) (map (λ s.
        s.items) sources.now) o.status (string_bytes o.text) o.messages.items) }
    ensures err { IfErr result (λ e. (e.fault ≡ RunFault.Memory) ⊎ ((e.fault ≡ RunFault.NoWorker) ⊎ (e.fault ≡ RunFault.Mixed))) }
    ensures exhausted { IfErr result (λ e. IfSome e.message (λ m. IsExhaustionFor run_options.now.messages (map (λ s. s.items) sources.now) m.items)) }
    ensures silent { IfErr result (λ e. (e.fault ≡ RunFault.Memory) ⊎ (e.message ≡ None)) }
{
    let workers = run_options.options.workers;
    let task = Task {
        workers,
        gate: &Open,
        earlier: &[],
        nesting,
    };
    match build_here(rt, alloc, sources, task) {
        Ok(finished) => {
            let counts = finished.counts.as_slice();
            let output = finished_output(alloc, &finished.store, counts, sources, run_options)?;
            let_go(rt, alloc, finished, run_options.options, nesting);
            Ok(output)
        }
        Err(BuildFault::Refused(refused)) => {
            Ok(refused_output(alloc, sources, &refused, run_options)?)
        }
        Err(BuildFault::Exhausted(module)) => Err(NoOutput {
            fault: RunFault::Memory,
            message: exhausted_message(alloc, sources, run_options, &module),
        }),
        Err(BuildFault::Workers) => unreachable!(),
        Err(BuildFault::NoWorker) => Err(NoOutput::of(RunFault::NoWorker)),
        Err(BuildFault::Memory) => Err(NoOutput::of(RunFault::Memory)),
        Err(BuildFault::Mixed) => Err(NoOutput::of(RunFault::Mixed)),
    }
}
