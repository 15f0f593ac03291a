//! Plans whose refusal is explained.
ghost use Rattle.std.specs.Prelude.{All, IfOk};
ghost use Rattle.hm_run_io.specs.Watching.{IsFresh};

use crate::quiet::StandardOutput;
use hm_build::{Outputs, RunOptions, run_with_messages};
use hm_messages::count_text;
use hm_run_io::{RunFault, Watched, read_all, write_text};
use hm_run_sources::{Status, Trees, run_plan};
use std::alloc::{AllocError, Global};
use std::io::Read;
use std::sync::Wait;
use std::thread::Threads;

/// Returns readers of texts.
fn readers_of(alloc: Global, texts: &[Vec<u8>]) -> Result<Vec<Watched<&[u8]>>, AllocError>
    ensures { IfOk result (λ readers. All IsFresh readers.items) }
{
    let mut readers = Vec::new(alloc);
    for text in texts {
        readers.push(Watched::new(text.as_slice()))?;
    }
    Ok(readers)
}

/// Writes the last line of the messages of a plan without faults.
fn end_messages(rt: &HostRuntime, run_options: &RunOptions) -> Result<(), RunFault> {
    let Some(messages) = &run_options.messages else {
        return Ok(());
    };
    let text = count_text(rt.alloc(), messages.format, 0, 0)?;
    if !text.as_str().is_empty() {
        let _ = write_text(&mut Watched::new(rt.stderr()), text.as_bytes());
    }
    Ok(())
}

// Why: docs/DECISIONS.md, "Messages of a plan".
/// Prints the plan of these readers, or why they are refused, and then messages that explain the refusal.
pub(crate) fn plan_explained<T: Threads + Wait + Sync, R: Read>(
    rt: &HostRuntime,
    threads: &T,
    readers: &mut [Watched<R>],
    output: StandardOutput,
    run_options: RunOptions,
) -> Result<Status, RunFault>
    requires { All IsFresh readers.old }
{
    let alloc = rt.alloc();
    let texts = read_all(alloc, readers)?;
    let mut planned = readers_of(alloc, texts.as_slice())?;
    let mut writer = Watched::new(output);
    let status = run_plan(
        threads,
        alloc,
        planned.as_mut_slice(),
        &mut writer,
        Trees::Left,
    )?;
    if status != Status::Refused {
        end_messages(rt, &run_options)?;
        return Ok(status);
    }
    let mut refused = readers_of(alloc, texts.as_slice())?;
    let mut outputs = Outputs {
        writer: Watched::new(StandardOutput::Nothing),
        errors: Watched::new(rt.stderr()),
    };
    let _ = run_with_messages(
        threads,
        alloc,
        refused.as_mut_slice(),
        &mut outputs,
        run_options,
    );
    Ok(status)
}
