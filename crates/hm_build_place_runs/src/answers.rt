//! The result of a run before it is written.
ghost use Rattle.std.specs.Prelude.{◌≡◌, ◌⊎◌, ◌<◌, ◌≤◌, IfErr, IfOk, map, string_bytes};
ghost use Rattle.hm_run_sources.specs.Refusals.{refusal_text as refusal_bytes};
ghost use Rattle.hm_build_place_texts.specs.Formats.{refusal_in};
ghost use Rattle.hm_build_place_runs.specs.Runs.{IsPlaceRun};

use hm_build::{BuildFault, Finished, Open, Options, build};
use hm_build_place_texts::{PlaceFormat, refused_text};
use hm_build_places::{PlaceQuestion, place_answer};
use hm_build_stages::drop_by_threads;
use hm_run_io::RunFault;
use hm_run_sources::{Answer, Nesting, SetFault, Status, Trees, refusal_answer};
use std::alloc::{AllocError, Global};
use std::mem;
use std::sync::Wait;
use std::thread::Threads;

/// What a run is asked: a place of its sources. The journal of the options isn't written.
#[derive(Drop)]
pub struct AskedPlace {
    pub options: Options,
    pub question: PlaceQuestion,
}

/// Returns copies of sources, which a build takes by value.
fn copies(alloc: Global, sources: &[Vec<u8>]) -> Result<Vec<Vec<u8>>, AllocError>
    ensures { IfOk result (λ copies. map (λ s. s.items) copies.items ≡ map (λ s. s.items) sources.now) }
{
    let mut copies = Vec::new(alloc);
    'sources: for source in sources {
        copies.push(Vec::from_slice(alloc, source.as_slice())?)?;
    }
    Ok(copies)
}

/// Returns the text and the status for a refused set, in this format.
fn refused_answer(
    alloc: Global,
    fault: &SetFault,
    format: PlaceFormat,
) -> Result<Answer, AllocError>
    ensures status { IfOk result (λ a. a.status ≡ Status.Refused) }
    ensures text { IfOk result (λ a. string_bytes a.text ≡ refusal_in format (refusal_bytes fault.now)) }
{
    let Answer { status, text } = refusal_answer(alloc, fault)?;
    let text = refused_text(alloc, format, text)?;
    Ok(Answer { status, text })
}

/// Drops a finished build, or leaves its trees in memory, as the options say.
fn let_go<T: Threads + Wait + Sync>(
    rt: &T,
    alloc: Global,
    finished: Finished,
    options: Options,
    nesting: Nesting,
) {
    match options.trees {
        Trees::Dropped => {
            drop_by_threads(rt, alloc, finished, options.workers, nesting.stack_size());
        }
        Trees::Left => mem::forget(finished),
    }
}

/// Returns the text and the status for a place of these sources, or their refusal.
pub(crate) fn asked_answer<T: Threads + Wait + Sync>(
    rt: &T,
    alloc: Global,
    sources: &[Vec<u8>],
    asked: &AskedPlace,
    nesting: Nesting,
) -> Result<Answer, RunFault>
    requires { (0 < asked.now.options.workers) × (asked.now.options.workers ≤ 16) }
    ensures ok { IfOk result (λ a. IsPlaceRun (map (λ n. n.items) asked.now.question.names.items) (map (λ s. s.items) sources.now)
        (record { source = asked.now.question.source; line = asked.now.question.line; column = asked.now.question.column; format = asked.now.question.format }) a.status (string_bytes a.text)) }
    ensures err { IfErr result (λ e. (e ≡ RunFault.Memory) ⊎ ((e ≡ RunFault.NoWorker) ⊎ (e ≡ RunFault.Mixed))) }
{
    let built = copies(alloc, sources)?;
    match build(rt, alloc, built, asked.options.workers, &Open) {
        Ok(finished) => {
            let counts = finished.counts.as_slice();
            let answer = place_answer(alloc, &finished.store, counts, sources, &asked.question)?;
            let_go(rt, alloc, finished, asked.options, nesting);
            Ok(answer)
        }
        Err(BuildFault::Refused(refused)) => Ok(refused_answer(
            alloc,
            &refused.fault,
            asked.question.format,
        )?),
        Err(BuildFault::Exhausted(_)) => Err(RunFault::Memory),
        Err(BuildFault::Workers) => unreachable!(),
        Err(BuildFault::NoWorker) => Err(RunFault::NoWorker),
        Err(BuildFault::Memory) => Err(RunFault::Memory),
        Err(BuildFault::Mixed) => Err(RunFault::Mixed),
    }
}
