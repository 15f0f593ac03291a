//! Runs a build on a thread whose stack is large enough for the source that nests deepest.
ghost use Rattle.std.specs.Prelude.{◌<◌, ◌≤◌, map};
ghost use Rattle.hm_build.specs.Threads.{IsResultOf};

use crate::outputs::{NoOutput, build_output};
use core::thread::Stack;
use hm_build_output::{Output, RunOptions};
use hm_run_io::RunFault;
use hm_run_sources::Nesting;
use std::alloc::Global;
use std::snapshot::Snapshot;
use std::sync::Wait;
use std::thread;
use std::thread::{Promise, Threads};

/// What a thread promises: it returns the output of a run on these sources.
#[derive(Drop)]
struct OutputOf {
    sources: Snapshot<Vec<Vec<u8>>>,
    run_options: Snapshot<RunOptions>,
}

impl Promise<Result<Output, NoOutput>> for OutputOf {
    ghost use Rattle.hm_build.specs.Threads.{IsResultOf};
    ghost use Rattle.std.specs.Prelude.{map};

    ghost kept_by = { λ p r. IsResultOf p.run_options.value (map (λ s. s.items) p.sources.value.items) r };
}

/// Returns what `build_output` returns, from a new thread with a large stack.
pub(crate) fn build_output_on_thread<T: Threads + Wait + Sync>(
    rt: &T,
    alloc: Global,
    sources: Vec<Vec<u8>>,
    run_options: RunOptions,
) -> Result<Output, NoOutput>
    requires { (0 < run_options.options.workers) × (run_options.options.workers ≤ 16) }
    ensures { IsResultOf run_options (map (λ s. s.items) sources.items) result }
{
    thread::scope(
        thread::scope_env(),
        rt,
        move |scope| -> Result<Output, NoOutput>
            requires { (0 < run_options.options.workers) × (run_options.options.workers ≤ 16) }
            ensures { IsResultOf run_options (map (λ s. s.items) sources.items) result }
        {
            let promise = OutputOf {
                sources: Snapshot::of(&sources),
                run_options: Snapshot::of(&run_options),
            };
            let nesting = Nesting::of(&sources);
            let thread = Stack::new().stack_size(nesting.stack_size());
            let work = move ||
                requires { (0 < run_options.options.workers) × (run_options.options.workers ≤ 16) }
            { build_output(rt, alloc, &sources, &run_options, nesting) };
            match thread.spawn_scoped_with(scope, promise, work) {
                Ok(builder) => builder.join(rt),
                Err(_) => Err(NoOutput::of(RunFault::NoWorker)),
            }
        },
    )
}
