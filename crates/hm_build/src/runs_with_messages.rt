//! Runs with two writers: one for the report, and one for messages.
ghost use Rattle.std.specs.Prelude.{◌≡◌, ◌<◌, ◌⊎◌, ◌↔◌, ℕ, List, All, IfOk, IfErr, IsErrOf, OnErr, map};
ghost use Rattle.std.specs.Io.KnownBytes.{Appends};
ghost use Rattle.hm_build_messages.specs.Explained.{IsStatedTo};
ghost use Rattle.hm_build_output.specs.Outputs.{IsExhaustionFor, IsOutput};
ghost use Rattle.hm_run_io.specs.Reads.{ReadsAll};
ghost use Rattle.hm_run_io.specs.Sources.{Tell, WritesPrefix, held_of};
ghost use Rattle.hm_run_io.specs.Writes.{WritesOnce};
ghost use Rattle.hm_run_sources.specs.declared.status.Status.{Status};
ghost use Rattle.hm_run_io.specs.Watching.{device_of, given_of, HasWriteFault, IsFresh};

use crate::reading::read_and_check;
use hm_build_output::RunOptions;
use hm_run_io::{RunFault, Watched, write_text};
use hm_run_sources::Status;
use std::alloc::Global;
use std::io::{Read, Write};
use std::sync::Wait;
use std::thread::Threads;

/// The two writers of a run.
#[derive(Drop)]
pub struct Outputs<W, E> {
    /// Gets the report or the refusal.
    pub writer: Watched<W>,
    /// Gets the messages.
    pub errors: Watched<E>,
}

// Why: docs/DECISIONS.md, "One record of what a run writes".
/// Does what `run` does with the options of a run: the report is text or JSON objects, and messages are written to the second writer if they are
/// requested. The journal isn't written after JSON objects.
///
/// There is a message for each fault and for each import because of which a module is skipped, in the report's order. If the sources are
/// refused, the message says why. If the check of a module runs out of memory, a message names the module; the schedule decides which, if
/// there are several.
///
/// # Errors
///
/// Those of `run`. A failure of the second writer isn't one.
pub fn run_with_messages<T: Threads + Wait + Sync, R: Read, W: Write, E: Write>(
    rt: &T,
    alloc: Global,
    readers: &mut [Watched<R>],
    outputs: &mut Outputs<W, E>,
    run_options: RunOptions,
) -> Result<Status, RunFault>
    requires readers { All IsFresh readers.old }
    requires writer { IsFresh outputs.old.writer }
    requires errors { IsFresh outputs.old.errors }

    // If readers and writer report their bytes exactly, the output of a run on these sources is written, and nothing else. The second writer got
    // its messages: all of them, or a prefix if it failed.
    ensures ok { IfOk result (λ status. (sources : List (List ℕ)) → Tell (λ r. R.remaining (device_of r)) readers.old sources
        → (text : List ℕ) × (messages : List ℕ) × IsOutput run_options sources (map held_of sources) status text messages
        × Appends (W.contents (device_of outputs.old.writer)) (W.contents (device_of outputs.new.writer)) text
        × IsStatedTo (E.contents (device_of outputs.old.errors)) (E.contents (device_of outputs.new.errors)) messages (HasWriteFault outputs.new.errors)) }
    // For every device, that output is the one of the bytes that the readers gave. Each gave all that it had, or more than a source may have.
    ensures given { IfOk result (λ status. (text : List ℕ) × (messages : List ℕ)
        × IsOutput run_options (map given_of readers.new) (map given_of readers.new) status text messages
        × Appends (W.contents (device_of outputs.old.writer)) (W.contents (device_of outputs.new.writer)) text
        × IsStatedTo (E.contents (device_of outputs.old.errors)) (E.contents (device_of outputs.new.errors)) messages (HasWriteFault outputs.new.errors)) }
    // If the writer failed, it got a prefix of such a text.
    ensures prefix { IsErrOf result RunFault.Write → (sources : List (List ℕ)) → Tell (λ r. R.remaining (device_of r)) readers.old sources
        → (status : Status) × (text : List ℕ) × (messages : List ℕ) × IsOutput run_options sources (map held_of sources) status text messages
        × WritesPrefix (W.contents (device_of outputs.old.writer)) (W.contents (device_of outputs.new.writer)) text }
    // Without a report there are no messages, except one if memory ran out.
    ensures unstated { OnErr result ((outputs.new.errors ≡ outputs.old.errors) ⊎ IsErrOf result RunFault.Memory) }
    // That message names a module of the sources whose check ran out of memory. The writer got all of it, or a prefix if it failed.
    ensures exhausted { IsErrOf result RunFault.Memory → (sources : List (List ℕ)) → Tell (λ r. R.remaining (device_of r)) readers.old sources
        → (outputs.new.errors ≡ outputs.old.errors) ⊎ ((message : List ℕ) × IsExhaustionFor run_options.messages (map held_of sources) message
        × IsStatedTo (E.contents (device_of outputs.old.errors)) (E.contents (device_of outputs.new.errors)) message (HasWriteFault outputs.new.errors)) }

    // The readers were read in order, and the writer was written once.
    ensures reads { ReadsAll R.remaining readers.old readers.new result }
    ensures writes { WritesOnce outputs.old.writer outputs.new.writer result }
    // The number of workers is refused if it isn't 1 to 16. There is no other fault.
    ensures workers { IsErrOf result RunFault.Workers ↔ ((run_options.options.workers ≡ 0) ⊎ (16 < run_options.options.workers)) }
    ensures others { IfErr result (λ e. (e ≡ RunFault.Workers)
        ⊎ ((e ≡ RunFault.Read) ⊎ ((e ≡ RunFault.Write) ⊎ ((e ≡ RunFault.Memory) ⊎ ((e ≡ RunFault.NoWorker) ⊎ (e ≡ RunFault.Mixed)))))) }
{
    let mut note = None;
    let output = match read_and_check(rt, alloc, readers, run_options, &mut note) {
        Ok(output) => output,
        Err(fault) => {
            if let Some(message) = note {
                let _ = write_text(&mut outputs.errors, message.as_slice());
            }
            return Err(fault);
        }
    };
    write_text(&mut outputs.writer, output.text.as_bytes())?;
    let _ = write_text(&mut outputs.errors, output.messages.as_slice());
    Ok(output.status)
}
