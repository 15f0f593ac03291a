//! Runs that write what is at a place.
ghost use Rattle.std.specs.Prelude.{◌≡◌, ◌<◌, ◌⊎◌, ◌↔◌, ℕ, List, All, IfOk, IfErr, IsErrOf, map};
ghost use Rattle.std.specs.Io.KnownBytes.{Appends};
ghost use Rattle.hm_build_place_runs.specs.Runs.{IsPlaceRun};
ghost use Rattle.hm_run_io.specs.Reads.{ReadsAll};
ghost use Rattle.hm_run_io.specs.Sources.{Tell, WritesPrefix, held_of};
ghost use Rattle.hm_run_io.specs.Writes.{WritesOnce};
ghost use Rattle.hm_run_sources.specs.declared.status.Status.{Status};
ghost use Rattle.hm_run_io.specs.Watching.{device_of, given_of, IsFresh};

use crate::AskedPlace;
use crate::reading::read_and_answer;
use hm_run_io::{RunFault, Watched, write_text};
use hm_run_sources::Status;
use std::alloc::Global;
use std::io::{Read, Write};
use std::sync::Wait;
use std::thread::Threads;

// Why: docs/DECISIONS.md, "Places".
/// Reads the sources, checks their modules with the given number of workers, and writes what the name at a place means: its kind, where it is bound,
/// and its type.
///
/// The status is `Good` if a name is there, and `Faulty` if none is. If the sources are refused, one line says why.
///
/// # Errors
///
/// - `Workers` if the number of workers is 0 or above 16. Nothing is read then.
/// - `Read` at the first reader that fails.
/// - `Memory` if memory ran out, and `NoWorker` if no thread could start.
/// - `Mixed` if the workers contradict the store.
/// - `Write` if the writer fails. A part of the text may be written then.
pub fn run_place<T: Threads + Wait + Sync, R: Read, W: Write>(
    rt: &T,
    alloc: Global,
    readers: &mut [Watched<R>],
    writer: &mut Watched<W>,
    asked: AskedPlace,
) -> Result<Status, RunFault>
    requires readers { All IsFresh readers.old }
    requires writer { IsFresh writer.old }

    // If readers and writer report their bytes exactly, the text for the place or the refusal is written, and nothing else.
    ensures ok { IfOk result (λ status. (sources : List (List ℕ)) → Tell (λ r. R.remaining (device_of r)) readers.old sources
        → (text : List ℕ) × IsPlaceRun (map (λ n. n.items) asked.question.names.items) (map held_of sources)
        (record { source = asked.question.source; line = asked.question.line; column = asked.question.column; format = asked.question.format }) status text
        × Appends (W.contents (device_of writer.old)) (W.contents (device_of writer.new)) text) }
    // For every device, the text is that of the bytes that the readers gave. Each gave all that it had, or more than a source may have.
    ensures given { IfOk result (λ status. (text : List ℕ) × IsPlaceRun (map (λ n. n.items) asked.question.names.items) (map given_of readers.new)
        (record { source = asked.question.source; line = asked.question.line; column = asked.question.column; format = asked.question.format }) status text
        × Appends (W.contents (device_of writer.old)) (W.contents (device_of writer.new)) text) }
    // If the writer failed, it got a prefix of that text.
    ensures prefix { IsErrOf result RunFault.Write → (sources : List (List ℕ)) → Tell (λ r. R.remaining (device_of r)) readers.old sources
        → (status : Status) × (text : List ℕ) × IsPlaceRun (map (λ n. n.items) asked.question.names.items) (map held_of sources)
        (record { source = asked.question.source; line = asked.question.line; column = asked.question.column; format = asked.question.format }) status text
        × WritesPrefix (W.contents (device_of writer.old)) (W.contents (device_of writer.new)) text }
    // The readers were read in order, and the writer was written once.
    ensures reads { ReadsAll R.remaining readers.old readers.new result }
    ensures writes { WritesOnce writer.old writer.new result }
    // The number of workers is refused if it isn't 1 to 16. There is no other fault.
    ensures workers { IsErrOf result RunFault.Workers ↔ ((asked.options.workers ≡ 0) ⊎ (16 < asked.options.workers)) }
    ensures others { IfErr result (λ e. (e ≡ RunFault.Workers)
        ⊎ ((e ≡ RunFault.Read) ⊎ ((e ≡ RunFault.Write) ⊎ ((e ≡ RunFault.Memory) ⊎ ((e ≡ RunFault.NoWorker) ⊎ (e ≡ RunFault.Mixed)))))) }
{
    let answer = read_and_answer(rt, alloc, readers, asked)?;
    write_text(writer, answer.text.as_bytes())?;
    Ok(answer.status)
}
