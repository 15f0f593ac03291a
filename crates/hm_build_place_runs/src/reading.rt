//! Reads sources and checks them. Writing the result is left to the callers.
ghost use Rattle.std.specs.Prelude.{◌≡◌, ◌<◌, ◌⊎◌, ◌↔◌, ℕ, List, All, IfOk, IfErr, IsErrOf, map, string_bytes};
ghost use Rattle.hm_build_place_runs.specs.Runs.{IsPlaceRun};
ghost use Rattle.hm_run_io.specs.Reads.{ReadsAll};
ghost use Rattle.hm_run_io.specs.Sources.{Tell, held_of};
ghost use Rattle.hm_run_io.specs.Watching.{device_of, given_of, IsFresh};

use crate::answers::AskedPlace;
use crate::stacks::answer_on_thread;
use hm_build_reports::may_work;
use hm_run_io::{RunFault, Watched, read_all};
use hm_run_sources::Answer;
use std::alloc::Global;
use std::io::Read;
use std::sync::Wait;
use std::thread::Threads;

/// Reads the sources and checks their modules. Returns the text for a place and its status. The clauses are those of `run_place` about readers.
pub(crate) fn read_and_answer<T: Threads + Wait + Sync, R: Read>(
    rt: &T,
    alloc: Global,
    readers: &mut [Watched<R>],
    asked: AskedPlace,
) -> Result<Answer, RunFault>
    requires readers { All IsFresh readers.old }
    ensures ok { IfOk result (λ a. (sources : List (List ℕ)) → Tell (λ r. R.remaining (device_of r)) readers.old sources
        → IsPlaceRun (map (λ n. n.items) asked.question.names.items) (map held_of sources)
        (record { source = asked.question.source; line = asked.question.line; column = asked.question.column; format = asked.question.format }) a.status (string_bytes a.text)) }
    ensures given { IfOk result (λ a. IsPlaceRun (map (λ n. n.items) asked.question.names.items) (map given_of readers.new)
        (record { source = asked.question.source; line = asked.question.line; column = asked.question.column; format = asked.question.format }) a.status (string_bytes a.text)) }
    ensures reads { ReadsAll R.remaining readers.old readers.new result }
    ensures workers { IsErrOf result RunFault.Workers ↔ ((asked.options.workers ≡ 0) ⊎ (16 < asked.options.workers)) }
    ensures others { IfErr result (λ e. (e ≡ RunFault.Workers)
        ⊎ ((e ≡ RunFault.Read) ⊎ ((e ≡ RunFault.Memory) ⊎ ((e ≡ RunFault.NoWorker) ⊎ (e ≡ RunFault.Mixed))))) }
{
    if !may_work(asked.options.workers) {
        return Err(RunFault::Workers);
    }
    let sources = read_all(alloc, readers)?;
    Ok(answer_on_thread(rt, alloc, sources, asked)?)
}
