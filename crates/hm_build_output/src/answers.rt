//! The text and the status of a run of the checker with a finished build.
ghost use Rattle.std.specs.Prelude.{◌≡◌, ◌⊎◌, ℕ, List, IfOk, string_bytes};
ghost use Rattle.hm_store.specs.declared.record.Record.{Record};
ghost use Rattle.hm_build_reports.specs.FinishedBuilds.{IsFinished};
ghost use Rattle.hm_build_output.specs.JournalledRuns.{IsRun};
ghost use Rattle.hm_build_output.specs.BuildTexts.{HasReport};
ghost use Rattle.hm_run_sources.specs.declared.status.Status.{Status};

use hm_build_reports::{journal_text, report, settled_in, status_of};
use hm_run_sources::Answer;
use hm_store::Store;
use std::alloc::{AllocError, Global};

/// Returns the report of a build, followed by its journal if `journal` holds.
fn build_text(alloc: Global, store: &Store, journal: bool) -> Result<String, AllocError>
    ensures { IfOk result (λ t. HasReport store.now journal (string_bytes t)) }
{
    let mut text = report(alloc, store)?;
    if journal {
        text.push_str(journal_text(alloc, store)?.as_str())?;
    }
    Ok(text)
}

/// Returns the text and the status for a build.
pub(crate) fn finished_answer(
    alloc: Global,
    store: &Store,
    journal: bool,
) -> Result<Answer, AllocError>
    ensures run { IfOk result (λ a. (sources : List (List ℕ)) (records : List Record) (workers : ℕ) → IsFinished sources workers store.now records
        → IsRun workers journal sources a.status (string_bytes a.text)) }
    ensures report { IfOk result (λ a. HasReport store.now journal (string_bytes a.text)) }
    ensures status { IfOk result (λ a. (a.status ≡ Status.Good) ⊎ (a.status ≡ Status.Faulty)) }
{
    let text = build_text(alloc, store, journal)?;
    let settled = settled_in(alloc, store)?;
    let status = status_of(settled.as_slice());
    Ok(Answer { status, text })
}
