//! Runs of the plan, from readers to a writer.
ghost use Rattle.std.specs.Prelude.{◌≡◌, ◌⊎◌, ℕ, List, All, IfOk, IfErr, IsErrOf, map};
ghost use Rattle.std.specs.Io.KnownBytes.{Appends};
ghost use Rattle.hm_run_sources.specs.Runs.{IsPlanRun};
ghost use Rattle.hm_run_io.specs.Reads.{ReadsAll};
ghost use Rattle.hm_run_io.specs.Sources.{Tell, WritesPrefix};
ghost use Rattle.hm_run_io.specs.Writes.{WritesOnce};
ghost use Rattle.hm_run_sources.specs.declared.status.Status.{Status};
ghost use Rattle.hm_run_io.specs.Watching.{device_of, given_of, IsFresh};

use crate::answers::Answer;
use crate::stacks::plan_on_thread;
use crate::{Status, Trees};
use hm_run_io::{RunFault, Watched, read_all, write_text};
use std::alloc::Global;
use std::io::{Read, Write};
use std::thread::Threads;

// Why: docs/DECISIONS.md, "Plans from whole modules".
/// Reads the sources, and writes the text of their plan, or the line that refuses them.
///
/// # Errors
///
/// - `Read` at the first reader that fails.
/// - `Memory` if memory ran out.
/// - `Write` if the writer fails. A part of the text may be written then.
pub fn run_plan<T: Threads, R: Read, W: Write>(
    rt: &T,
    alloc: Global,
    readers: &mut [Watched<R>],
    writer: &mut Watched<W>,
    trees: Trees,
) -> Result<Status, RunFault>
    requires readers { All IsFresh readers.old }
    requires writer { IsFresh writer.old }

    // If readers and writer report their bytes exactly, the plan's text or the refusal is written, and nothing else.
    ensures ok { IfOk result (λ status. (sources : List (List ℕ)) → Tell (λ r. R.remaining (device_of r)) readers.old sources
        → (text : List ℕ) × IsPlanRun sources status text × Appends (W.contents (device_of writer.old)) (W.contents (device_of writer.new)) text) }
    // For every device, the text is that of the bytes that the readers gave, and each gave all that it had or more than a source may have.
    ensures given { IfOk result (λ status. (text : List ℕ) × IsPlanRun (map given_of readers.new) status text
        × Appends (W.contents (device_of writer.old)) (W.contents (device_of writer.new)) text) }
    // If the writer failed, it got a prefix of that text.
    ensures prefix { IsErrOf result RunFault.Write → (sources : List (List ℕ)) → Tell (λ r. R.remaining (device_of r)) readers.old sources
        → (status : Status) × (text : List ℕ) × IsPlanRun sources status text
        × WritesPrefix (W.contents (device_of writer.old)) (W.contents (device_of writer.new)) text }
    // The readers were read in order, and the writer was written once.
    ensures reads { ReadsAll R.remaining readers.old readers.new result }
    ensures writes { WritesOnce writer.old writer.new result }
    // There is no other fault.
    ensures others { IfErr result (λ e. (e ≡ RunFault.Read) ⊎ ((e ≡ RunFault.Write) ⊎ (e ≡ RunFault.Memory))) }
{
    let sources = read_all(alloc, readers)?;
    let Answer { status, text } = plan_on_thread(rt, alloc, sources, trees)?;
    write_text(writer, text.as_bytes())?;
    Ok(status)
}
