//! Runs a build on a thread whose stack is large enough for the source that nests deepest.
ghost use Rattle.std.specs.Prelude.{◌≡◌, ◌⊎◌, ◌<◌, ◌≤◌, IfErr, IfOk, map, string_bytes};
ghost use Rattle.hm_build_place_runs.specs.Runs.{IsPlaceRun};

use crate::answers::{AskedPlace, asked_answer};
use core::thread::Stack;
use hm_run_io::RunFault;
use hm_run_sources::{Answer, Nesting};
use std::alloc::Global;
use std::snapshot::Snapshot;
use std::sync::Wait;
use std::thread;
use std::thread::{Promise, Threads};

/// What a thread promises: it returns the result of a run on these sources.
#[derive(Drop)]
struct AnswerOf {
    sources: Snapshot<Vec<Vec<u8>>>,
    asked: Snapshot<AskedPlace>,
}

impl Promise<Result<Answer, RunFault>> for AnswerOf {
    ghost use Rattle.std.specs.Prelude.{◌≡◌, ◌⊎◌, IfErr, IfOk, map, string_bytes};
    ghost use Rattle.hm_build_place_runs.specs.Runs.{IsPlaceRun};
    ghost use Rattle.hm_run_io.specs.declared.faults.RunFault.TheVariants.{Memory, NoWorker, Mixed};

    ghost kept_by = { λ p r. IfOk r (λ a. IsPlaceRun (map (λ n. n.items) p.asked.value.question.names.items) (map (λ s. s.items) p.sources.value.items) (record { source = p.asked.value.question.source; line = p.asked.value.question.line; column = p.asked.value.question.column; format = p.asked.value.question.format }) a.status (string_bytes a.text)) × IfErr r (λ e. (e ≡ Memory) ⊎ ((e ≡ NoWorker) ⊎ (e ≡ Mixed))) };
}

/// Returns what `asked_answer` returns, from a new thread with a large stack.
pub(crate) fn answer_on_thread<T: Threads + Wait + Sync>(
    rt: &T,
    alloc: Global,
    sources: Vec<Vec<u8>>,
    asked: AskedPlace,
) -> Result<Answer, RunFault>
    requires { (0 < asked.options.workers) × (asked.options.workers ≤ 16) }
    ensures ok { IfOk result (λ a. IsPlaceRun (map (λ n. n.items) asked.question.names.items) (map (λ s. s.items) sources.items)
        (record { source = asked.question.source; line = asked.question.line; column = asked.question.column; format = asked.question.format }) a.status (string_bytes a.text)) }
    ensures err { IfErr result (λ e. (e ≡ RunFault.Memory) ⊎ ((e ≡ RunFault.NoWorker) ⊎ (e ≡ RunFault.Mixed))) }
{
    thread::scope(
        thread::scope_env(),
        rt,
        move |scope| -> Result<Answer, RunFault>
            requires { (0 < asked.options.workers) × (asked.options.workers ≤ 16) }
            ensures ok { IfOk result (λ a. IsPlaceRun (map (λ n. n.items) asked.question.names.items) (map (λ s. s.items) sources.items)
                (record { source = asked.question.source; line = asked.question.line; column = asked.question.column; format = asked.question.format }) a.status (string_bytes a.text)) }
            ensures err { IfErr result (λ e. (e ≡ RunFault.Memory) ⊎ ((e ≡ RunFault.NoWorker) ⊎ (e ≡ RunFault.Mixed))) }
        {
            let promise = AnswerOf {
                sources: Snapshot::of(&sources),
                asked: Snapshot::of(&asked),
            };
            let nesting = Nesting::of(&sources);
            let thread = Stack::new().stack_size(nesting.stack_size());
            let work = move ||
                requires { (0 < asked.options.workers) × (asked.options.workers ≤ 16) }
            { asked_answer(rt, alloc, &sources, &asked, nesting) };
            match thread.spawn_scoped_with(scope, promise, work) {
                Ok(builder) => builder.join(rt),
                Err(_) => Err(RunFault::NoWorker),
            }
        },
    )
}
