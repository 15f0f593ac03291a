//! Runs with one writer, which gets the report.
ghost use Rattle.std.specs.Prelude.{◌≡◌, ◌<◌, ◌⊎◌, ◌↔◌, ℕ, List, All, IfOk, IfErr, IsErrOf, map};
ghost use Rattle.std.specs.Io.KnownBytes.{Appends};
ghost use Rattle.hm_build_output.specs.JournalledRuns.{IsRun};
ghost use Rattle.hm_run_io.specs.Reads.{ReadsAll};
ghost use Rattle.hm_run_io.specs.Sources.{Tell, WritesPrefix};
ghost use Rattle.hm_run_io.specs.Writes.{WritesOnce};
ghost use Rattle.hm_run_sources.specs.declared.status.Status.{Status};
ghost use Rattle.hm_run_io.specs.Watching.{device_of, given_of, IsFresh};

use crate::Options;
use crate::reading::read_and_check;
use hm_build_output::RunOptions;
use hm_run_io::{RunFault, Watched, write_text};
use hm_run_sources::Status;
use std::alloc::Global;
use std::io::{Read, Write};
use std::sync::Wait;
use std::thread::Threads;

/// Reads the sources, checks their modules with the given number of workers, and writes the report of their verdicts.
///
/// The journal follows the report if the options say so. If the sources are refused, one line says why in place of the report.
///
/// # Errors
///
/// - `Workers` if the number of workers is 0 or above 16. Nothing is read then.
/// - `Read` at the first reader that fails.
/// - `Memory` if memory ran out, and `NoWorker` if no thread could start.
/// - `Mixed` if the workers contradict the store.
/// - `Write` if the writer fails. A part of the text may be written then.
pub fn run<T: Threads + Wait + Sync, R: Read, W: Write>(
    rt: &T,
    alloc: Global,
    readers: &mut [Watched<R>],
    writer: &mut Watched<W>,
    options: Options,
) -> Result<Status, RunFault>
    requires readers { All IsFresh readers.old }
    requires writer { IsFresh writer.old }

    // If readers and writer report their bytes exactly, the report or the refusal is written, and nothing else.
    ensures ok { IfOk result (λ status. (sources : List (List ℕ)) → Tell (λ r. R.remaining (device_of r)) readers.old sources
        → (text : List ℕ) × IsRun options.workers options.journal sources status text
        × Appends (W.contents (device_of writer.old)) (W.contents (device_of writer.new)) text) }
    // For every device, the report or the refusal is that of the bytes that the readers gave. Each gave all that it had, or more than a source may have.
    ensures given { IfOk result (λ status. (text : List ℕ) × IsRun options.workers options.journal (map given_of readers.new) status text
        × Appends (W.contents (device_of writer.old)) (W.contents (device_of writer.new)) text) }
    // If the writer failed, it got a prefix of that text.
    ensures prefix { IsErrOf result RunFault.Write → (sources : List (List ℕ)) → Tell (λ r. R.remaining (device_of r)) readers.old sources
        → (status : Status) × (text : List ℕ) × IsRun options.workers options.journal sources status text
        × WritesPrefix (W.contents (device_of writer.old)) (W.contents (device_of writer.new)) text }
    // The readers were read in order, and the writer was written once.
    ensures reads { ReadsAll R.remaining readers.old readers.new result }
    ensures writes { WritesOnce writer.old writer.new result }
    // The number of workers is refused if it isn't 1 to 16. There is no other fault.
    ensures workers { IsErrOf result RunFault.Workers ↔ ((options.workers ≡ 0) ⊎ (16 < options.workers)) }
    ensures others { IfErr result (λ e. (e ≡ RunFault.Workers)
        ⊎ ((e ≡ RunFault.Read) ⊎ ((e ≡ RunFault.Write) ⊎ ((e ≡ RunFault.Memory) ⊎ ((e ≡ RunFault.NoWorker) ⊎ (e ≡ RunFault.Mixed)))))) }
{
    let run_options = RunOptions {
        options,
        messages: None,
        listed: None,
    };
    let mut note = None;
    let output = read_and_check(rt, alloc, readers, run_options, &mut note)?;
    write_text(writer, output.text.as_bytes())?;
    Ok(output.status)
}
