//! What the name at a place means.
ghost use Rattle.std.specs.Prelude.{◌≡◌, ◌<◌, Contains, IfNone, IfOk, IfSome, length, slice_index_or, string_bytes};
ghost use Rattle.hm_service_places.specs.Places.{HasNoName, IsAnsweredAt, IsAskedAt, IsNameAt};

use crate::checked::Checked;
use crate::faults::ServiceFault;
use crate::names::names_of;
use core::thread::Stack;
use hm_build_places::{PlaceFormat, PlaceQuestion, place_answer};
use hm_run_sources::{Answer, Nesting, Status};
use hm_service_messages::{Bound, bound_in};
use hm_store::Store;
use std::alloc::{AllocError, Global};
use std::sync::Wait;
use std::thread;
use std::thread::{Promise, Scope, Threads};

/// What the name at a place means.
#[derive(Debug, Drop)]
pub struct AtPlace {
    /// The text that a run prints for the place, with the numbers of sources in place of files.
    pub text: String,
    /// Where the first name there is bound, if it is in a source.
    pub bound: Option<Bound>,
}

/// Returns the index of a source in the checked part, which has the numbers of its sources.
pub fn index_of(part: &[usize], source: usize) -> Option<usize>
    ensures some { IfSome result (λ index. (index < length part.now) × (slice_index_or part.now index 0 ≡ source)) }
    ensures none { IfNone result (¬ (Contains part.now source)) }
{
    'part: for index in 0..part.len() {
        if part[index] == source {
            return Some(index);
        }
    }
    None
}

/// What a question is about: a build with its sources, and the place.
#[derive(Clone, Copy)]
struct Asked<'a> {
    store: &'a Store,
    counts: &'a [usize],
    texts: &'a [Vec<u8>],
    question: &'a PlaceQuestion,
}

impl Promise<Result<Answer, AllocError>> for Asked<'_> {
    ghost use Rattle.std.specs.Prelude.{IfOk};
    ghost use Rattle.hm_service_places.specs.Places.{IsAnsweredAt};

    ghost kept_by = { λ p r. IfOk r (IsAnsweredAt p.store.now p.counts.now p.texts.now p.question.now) };
}

/// Returns what `place_answer` returns.
fn answered(alloc: Global, asked: Asked<'_>) -> Result<Answer, AllocError>
    ensures { IfOk result (IsAnsweredAt asked.entry.store.now asked.entry.counts.now asked.entry.texts.now asked.entry.question.now) }
{
    let Asked {
        store,
        counts,
        texts,
        question,
    } = asked;
    place_answer(alloc, store, counts, texts, question)
}

/// Starts a thread with a large stack for a question, and returns its answer.
fn answered_by_thread<'s, E, T: Threads + Wait + Sync>(
    rt: &T,
    scope: &Scope<'s, E>,
    alloc: Global,
    asked: Asked<'s>,
) -> Result<Answer, ServiceFault>
    ensures { IfOk result (IsAnsweredAt asked.entry.store.now asked.entry.counts.now asked.entry.texts.now asked.entry.question.now) }
{
    let stack = Nesting::of(asked.texts).stack_size();
    let thread = Stack::new().stack_size(stack);
    let work = move || { answered(alloc, asked) };
    match thread.spawn_scoped_with(scope, asked, work) {
        Ok(reader) => match reader.join(rt) {
            Ok(answer) => Ok(answer),
            Err(AllocError) => Err(ServiceFault::Memory),
        },
        Err(_) => Err(ServiceFault::NoWorker),
    }
}

/// Returns what `place_answer` returns, from a new thread with a large stack.
fn answer_on_thread<T: Threads + Wait + Sync>(
    rt: &T,
    alloc: Global,
    store: &Store,
    counts: &[usize],
    texts: &[Vec<u8>],
    question: &PlaceQuestion,
) -> Result<Answer, ServiceFault>
    ensures { IfOk result (IsAnsweredAt store.now counts.now texts.now question.now) }
{
    thread::scope(
        thread::scope_env(),
        rt,
        |scope| -> Result<Answer, ServiceFault>
            ensures { IfOk result (IsAnsweredAt store.entry.now counts.entry.now texts.entry.now question.entry.now) }
        {
            let asked = Asked {
                store,
                counts,
                texts,
                question,
            };
            answered_by_thread(rt, scope, alloc, asked)
        },
    )
}

/// Returns what is at a place of the source with this index in the checked part.
fn answer_at<T: Threads + Wait + Sync>(
    rt: &T,
    alloc: Global,
    checked: &Checked,
    index: usize,
    line: u32,
    column: usize,
) -> Result<Answer, ServiceFault>
    ensures { IfOk result (λ a. IsAskedAt checked.now index line column a.status (string_bytes a.text)) }
{
    let names = names_of(alloc, checked.part.as_slice())?;
    let question = PlaceQuestion {
        names,
        source: index,
        line,
        column,
        format: PlaceFormat::Prose,
    };
    let build = &checked.build;
    let counts = build.counts.as_slice();
    let texts = checked.texts.as_slice();
    let answer = answer_on_thread(rt, alloc, &build.store, counts, texts, &question)?;
    Ok(answer)
}

// Why: docs/DECISIONS.md, "Places of a held set".
/// Returns what the name at a place of a source means, by the line and the column in characters, both from 1. There is none if no name is at the
/// place, or the source can't be checked.
///
/// # Errors
///
/// `Memory` if memory ran out, and `NoWorker` if no thread could start.
pub fn place_of<T: Threads + Wait + Sync>(
    rt: &T,
    alloc: Global,
    checked: &Checked,
    source: usize,
    line: u32,
    column: usize,
) -> Result<Option<AtPlace>, ServiceFault>
    ensures some { IfOk result (λ found. IfSome found (λ a. IsNameAt checked.now source line column a)) }
    ensures none { IfOk result (λ found. IfNone found (HasNoName checked.now source line column)) }
{
    let Some(index) = index_of(checked.part.as_slice(), source) else {
        return Ok(None);
    };
    let answer = answer_at(rt, alloc, checked, index, line, column)?;
    match answer.status {
        Status::Good => {
            let bound = bound_in(alloc, answer.text.as_str())?;
            let text = answer.text;
            Ok(Some(AtPlace { text, bound }))
        }
        Status::Faulty => Ok(None),
        Status::Refused => Err(ServiceFault::Mixed),
    }
}
