//! The messages of a faulty module: those of its faults, and notes of expected types and of the faults that the report leaves out because names aren't in scope.
ghost use Rattle.std.specs.Prelude.{◌≡◌, ◌⊎◌, ◌<◌, IfOk, IfSome, [], length, map, slice_index_or};
ghost use Rattle.std.specs.Arc.{arc_value};
ghost use Rattle.hm_messages.specs.Messages.{AreEach};
ghost use Rattle.hm_messages.specs.Pages.{files_in, texts_in};
ghost use Rattle.hm_build_reports.specs.Settling.{module_set, statuses_of};
ghost use Rattle.hm_store.specs.Settlements.{settlement};
ghost use Rattle.hm_messages_hidden.specs.Hidden.{IsVerdictBeyond};
ghost use Rattle.hm_build_messages.specs.Explanations.{AreHiddenNotes, AreHiddenStated, AreHiddenStatedIn, IsFaultyStated, IsHiddenNote};
ghost use Rattle.hm_build_messages.specs.Searching.{IsComplete};
ghost use Rattle.hm_verdicts.specs.Outcomes.{verdict_of};
ghost use Rattle.hm_verdicts.specs.Sets.{IsLawfulSet};

use crate::detailing::{faulty_messages, published};
use crate::expected::expected_notes;
use crate::faulty::Allowance;
use crate::view::{BuildView, Faulty, FaultyModule};
use hm_messages::{MessageFormat, Page, Topic, message};
use hm_messages_hidden::hidden_of;
use hm_messages_trials::{Effort, Question};
use hm_names::Fault;
use hm_verdicts::{Outcome, Verdict};
use std::alloc::{AllocError, Global};

/// Returns the note of a fault that the report leaves out.
fn note_of(
    alloc: Global,
    format: MessageFormat,
    page: &Page<'_>,
    fault: &Fault,
) -> Result<Vec<u8>, AllocError>
    ensures { IfOk result (λ text. IsHiddenNote format page.now.file.now page.now.lines fault.now text.items) }
{
    let topic = Topic::Hidden(fault.kind, fault.name.as_str());
    Ok(message(alloc, format, page, fault.place, &topic)?)
}

/// Returns the notes of faults that the report leaves out, in order.
fn notes_of(
    alloc: Global,
    format: MessageFormat,
    page: &Page<'_>,
    faults: &[Fault],
) -> Result<Vec<u8>, AllocError>
    ensures { IfOk result (λ text. AreEach (IsHiddenNote format page.now.file.now page.now.lines) faults.now text.items) }
{
    let mut text = Vec::new(alloc);
    for fault in faults {
        let note = note_of(alloc, format, page, fault)?;
        text.extend_from_slice(note.as_slice())?;
    }
    Ok(text)
}

/// Returns the notes of all faults of a verdict.
fn verdict_notes(
    alloc: Global,
    format: MessageFormat,
    page: &Page<'_>,
    verdict: &Verdict,
) -> Result<Vec<u8>, AllocError>
    ensures { IfOk result (λ text. AreHiddenNotes format page.now.file.now page.now.lines (verdict_of verdict.now) text.items) }
{
    match verdict {
        Verdict::Good(_) => Ok(Vec::new(alloc)),
        Verdict::Faulty(found) => Ok(notes_of(alloc, format, page, found.as_slice())?),
    }
}

/// Returns the outcome of a module with a definition of each name that isn't in scope. Returns `None` if memory or the effort doesn't suffice
/// for it.
fn outcome_of(alloc: Global, module: &FaultyModule<'_, '_>, effort: &mut Effort) -> Option<Outcome>
    ensures { IfSome result (λ o. IsVerdictBeyond «module».now.question.now.source.now «module».now.question.now.name.now
        (map arc_value «module».now.question.now.imports.now) «module».now.faults.now o.verdict) }
{
    match hidden_of(alloc, module.question, module.faults, effort) {
        Ok(outcome) => outcome,
        Err(AllocError) => None,
    }
}

// Why: docs/DECISIONS.md, "Hidden faults".
/// Returns the notes of the faults that the report leaves out of a module, or no text.
fn module_notes(
    alloc: Global,
    module: &FaultyModule<'_, '_>,
    effort: &mut Effort,
) -> Result<Vec<u8>, AllocError>
    requires { «module».now.question.now.source.now ≡ «module».now.page.now.lines }
    ensures { IfOk result (λ text. (text.items ≡ []) ⊎ AreHiddenStated «module».now.format «module».now.page.now.file.now «module».now.page.now.lines
        «module».now.question.now.name.now (map arc_value «module».now.question.now.imports.now) «module».now.faults.now text.items) }
{
    let Some(outcome) = outcome_of(alloc, module, effort) else {
        return Ok(Vec::new(alloc));
    };
    Ok(verdict_notes(alloc, module.format, module.page, outcome.verdict())?)
}

/// Returns the notes of the faults that the report leaves out of a module with this number, or no text.
fn hidden_notes(
    alloc: Global,
    view: &BuildView<'_, '_, '_>,
    faulty: Faulty<'_>,
    effort: &mut Effort,
) -> Result<Vec<u8>, AllocError>
    requires lawful { IsLawfulSet (module_set view.now.modules.now view.now.plan.now) }
    requires number { faulty.number < length view.now.modules.now }
    requires source { faulty.source < length view.now.pages.now.items.items }
    requires settled { statuses_of view.now.settled.now ≡ settlement view.now.store.now }
    ensures { IfOk result (λ text. (text.items ≡ []) ⊎ AreHiddenStatedIn view.now.pages.now.format
        (slice_index_or (files_in view.now.pages.now.items.items) faulty.entry.source []) (slice_index_or (texts_in view.now.pages.now.items.items) faulty.entry.source [])
        (module_set view.now.modules.now view.now.plan.now) (statuses_of view.now.settled.now) faulty.entry.number faulty.entry.faults.now text.items) }
{
    let page = &view.pages.items[faulty.source];
    let module = &view.modules[faulty.number];
    let Some(imports) = published(alloc, view.store, view.plan.imports(faulty.number))? else {
        return Ok(Vec::new(alloc));
    };
    let question = Question {
        source: page.lines.source(),
        name: module.header.name.as_str(),
        imports: imports.as_slice(),
        prelude: view.prelude,
    };
    let module = FaultyModule {
        format: view.pages.format,
        page,
        question: &question,
        faults: faulty.faults,
    };
    Ok(module_notes(alloc, &module, effort)?)
}

/// Returns the messages of a faulty module: those of its faults, and after them the notes of expected types and of the faults that the report leaves out.
/// There are no such notes if one said that the limit on trials is reached.
pub(crate) fn all_messages(
    alloc: Global,
    view: &BuildView<'_, '_, '_>,
    faulty: Faulty<'_>,
    allowance: &mut Allowance,
) -> Result<Vec<u8>, AllocError>
    requires lawful { IsLawfulSet (module_set view.now.modules.now view.now.plan.now) }
    requires number { faulty.number < length view.now.modules.now }
    requires source { faulty.source < length view.now.pages.now.items.items }
    requires complete { IsComplete view.now faulty.number }
    requires settled { statuses_of view.now.settled.now ≡ settlement view.now.store.now }
    ensures { IfOk result (λ text. IsFaultyStated view.now.pages.now.format (files_in view.now.pages.now.items.items) (texts_in view.now.pages.now.items.items)
        faulty.entry.source (module_set view.now.modules.now view.now.plan.now) (statuses_of view.now.settled.now) faulty.entry.number faulty.entry.faults.now
        allowance.old.is_limit_stated allowance.new.is_limit_stated text.items) }
{
    let mut text = faulty_messages(alloc, view, faulty, allowance)?;
    if allowance.is_limit_stated {
        return Ok(text);
    }
    let types = expected_notes(alloc, view, faulty, &mut allowance.effort)?;
    let notes = hidden_notes(alloc, view, faulty, &mut allowance.effort)?;
    text.extend_from_slice(types.as_slice())?;
    text.extend_from_slice(notes.as_slice())?;
    Ok(text)
}
