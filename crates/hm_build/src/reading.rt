//! Reads sources and checks them. Writing the result is left to the callers.
ghost use Rattle.std.specs.Prelude.{◌≡◌, ◌<◌, ◌⊎◌, ◌↔◌, ℕ, List, None, All, IfOk, IfErr, IfSome, IsErrOf, map, string_bytes};
ghost use Rattle.hm_build_output.specs.Outputs.{IsExhaustionFor, IsOutput};
ghost use Rattle.hm_run_io.specs.Reads.{ReadsAll};
ghost use Rattle.hm_run_io.specs.Sources.{Tell, held_of};
ghost use Rattle.hm_run_io.specs.Watching.{device_of, given_of, IsFresh};

use crate::stacks::build_output_on_thread;
use hm_build_output::{Output, RunOptions};
use hm_build_reports::may_work;
use hm_run_io::{RunFault, Watched, read_all};
use std::alloc::Global;
use std::io::Read;
use std::sync::Wait;
use std::thread::Threads;

// Why: docs/DECISIONS.md, "One path", "Records of devices".
/// Reads the sources, checks their modules, and returns the output.
///
/// If the check of a module runs out of memory, `note` gets a message that names the module, if messages are requested. The clauses are those
/// of `run` about readers.
pub(crate) fn read_and_check<T: Threads + Wait + Sync, R: Read>(
    rt: &T,
    alloc: Global,
    readers: &mut [Watched<R>],
    run_options: RunOptions,
    note: &mut Option<Vec<u8>>,
) -> Result<Output, RunFault>
    requires readers { All IsFresh readers.old }
    requires note { note.old ≡ None }
    ensures ok { IfOk result (λ o. (sources : List (List ℕ)) → Tell (λ r. R.remaining (device_of r)) readers.old sources
        → IsOutput run_options sources (map held_of sources) o.status (string_bytes o.text) o.messages.items) }
    ensures given { IfOk result (λ o. IsOutput run_options (map given_of readers.new) (map given_of readers.new) o.status (string_bytes o.text) o.messages.items) }
    ensures exhausted { IfSome note.new (λ m. (sources : List (List ℕ)) → Tell (λ r. R.remaining (device_of r)) readers.old sources
        → IsExhaustionFor run_options.messages (map held_of sources) m.items) }
    ensures silent { IsErrOf result RunFault.Memory ⊎ (note.new ≡ None) }
    ensures reads { ReadsAll R.remaining readers.old readers.new result }
    ensures workers { IsErrOf result RunFault.Workers ↔ ((run_options.options.workers ≡ 0) ⊎ (16 < run_options.options.workers)) }
    ensures others { IfErr result (λ e. (e ≡ RunFault.Workers)
        ⊎ ((e ≡ RunFault.Read) ⊎ ((e ≡ RunFault.Memory) ⊎ ((e ≡ RunFault.NoWorker) ⊎ (e ≡ RunFault.Mixed))))) }
{
    if !may_work(run_options.options.workers) {
        return Err(RunFault::Workers);
    }
    let sources = read_all(alloc, readers)?;
    match build_output_on_thread(rt, alloc, sources, run_options) {
        Ok(output) => Ok(output),
        Err(none) => {
            *note = none.message;
            Err(none.fault)
        }
    }
}
