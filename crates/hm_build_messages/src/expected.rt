//! The notes of the types that are expected of names which aren't in scope.
ghost use Rattle.std.specs.Prelude.{◌≡◌, ◌⊎◌, ◌<◌, IfOk, IfSome, [], length, map, slice_index_or, string_bytes};
ghost use Rattle.std.specs.Arc.{arc_value};
ghost use Rattle.hm_messages.specs.Messages.{AreEach};
ghost use Rattle.hm_messages.specs.Pages.{files_in, texts_in};
ghost use Rattle.hm_messages_expected.specs.Expected.{IsExpected};
ghost use Rattle.hm_build_reports.specs.Settling.{module_set, statuses_of};
ghost use Rattle.hm_store.specs.Settlements.{settlement};
ghost use Rattle.hm_build_messages.specs.Expected.{AreExpectedNotes, AreExpectedStatedIn, IsExpectedNote};
ghost use Rattle.hm_verdicts.specs.Sets.{IsLawfulSet};

use crate::detailing::published;
use crate::view::{BuildView, Faulty, FaultyModule};
use hm_messages::{Topic, message};
use hm_messages_expected::{UnboundName, expected_of};
use hm_messages_trials::{Effort, Question, Reading, reading_of};
use hm_names::{Fault, Kind};
use std::alloc::{AllocError, Global};

/// For how many faults of a module an expected type is searched.
const MOST_SEARCHES: usize = 16;

/// Returns the type that is expected of a name. Returns `None` if memory or the effort doesn't suffice for it.
fn type_for(
    alloc: Global,
    module: &FaultyModule<'_, '_>,
    reading: &Reading,
    fault: &Fault,
    effort: &mut Effort,
) -> Option<String>
    ensures { IfSome result (λ t. IsExpected «module».now.question.now.source.now «module».now.question.now.name.now
        (map arc_value «module».now.question.now.imports.now) «module».now.faults.now fault.now (string_bytes t)) }
{
    let found = UnboundName {
        fault,
        faults: module.faults,
        reading,
    };
    match expected_of(alloc, module.question, &found, effort) {
        Ok(text) => text,
        Err(AllocError) => None,
    }
}

/// Returns the note of the type that is expected of a name, or no text.
fn expected_note(
    alloc: Global,
    module: &FaultyModule<'_, '_>,
    reading: &Reading,
    fault: &Fault,
    effort: &mut Effort,
) -> Result<Vec<u8>, AllocError>
    requires { «module».now.question.now.source.now ≡ «module».now.page.now.lines }
    ensures { IfOk result (λ text. (text.items ≡ []) ⊎ IsExpectedNote «module».now.format «module».now.page.now.file.now «module».now.page.now.lines
        «module».now.question.now.name.now (map arc_value «module».now.question.now.imports.now) «module».now.faults.now fault.now text.items) }
{
    let Some(expected) = type_for(alloc, module, reading, fault, effort) else {
        return Ok(Vec::new(alloc));
    };
    let topic = Topic::UnboundType(fault.name.as_str(), expected.as_str());
    Ok(message(alloc, module.format, module.page, fault.place, &topic)?)
}

/// Returns the notes of the types that are expected of these names, in order.
fn notes_of(
    alloc: Global,
    module: &FaultyModule<'_, '_>,
    reading: &Reading,
    faults: &[Fault],
    effort: &mut Effort,
) -> Result<Vec<u8>, AllocError>
    requires { «module».now.question.now.source.now ≡ «module».now.page.now.lines }
    ensures { IfOk result (λ text. AreEach (λ f t. (t ≡ []) ⊎ IsExpectedNote «module».now.format «module».now.page.now.file.now «module».now.page.now.lines
        «module».now.question.now.name.now (map arc_value «module».now.question.now.imports.now) «module».now.faults.now f t) faults.now text.items) }
{
    let mut text = Vec::new(alloc);
    for fault in faults {
        let note = expected_note(alloc, module, reading, fault, effort)?;
        text.extend_from_slice(note.as_slice())?;
    }
    Ok(text)
}

/// Returns the reading of a module's source, if all of its faults are names that aren't in scope, and if memory and the effort suffice for it.
fn reading_for(
    alloc: Global,
    module: &FaultyModule<'_, '_>,
    effort: &mut Effort,
) -> Option<Reading> {
    if module
        .faults
        .iter()
        .any(|fault| fault.kind != Kind::Unbound)
    {
        return None;
    }
    match reading_of(alloc, module.question.source, effort) {
        Ok(reading) => reading,
        Err(AllocError) => None,
    }
}

// Why: docs/DECISIONS.md, "Expected types".
/// Returns the notes of the types that are expected of a module's names, or no text.
fn module_notes(
    alloc: Global,
    module: &FaultyModule<'_, '_>,
    effort: &mut Effort,
) -> Result<Vec<u8>, AllocError>
    requires { «module».now.question.now.source.now ≡ «module».now.page.now.lines }
    ensures { IfOk result (λ text. (text.items ≡ []) ⊎ AreExpectedNotes «module».now.format «module».now.page.now.file.now «module».now.page.now.lines
        «module».now.question.now.name.now (map arc_value «module».now.question.now.imports.now) «module».now.faults.now text.items) }
{
    let Some(reading) = reading_for(alloc, module, effort) else {
        return Ok(Vec::new(alloc));
    };
    let count = module.faults.len().min(MOST_SEARCHES);
    let first = &module.faults[..count];
    Ok(notes_of(alloc, module, &reading, first, effort)?)
}

/// Returns the notes of the types that are expected of the names of a module with this number, or no text.
pub(crate) fn expected_notes(
    alloc: Global,
    view: &BuildView<'_, '_, '_>,
    faulty: Faulty<'_>,
    effort: &mut Effort,
) -> Result<Vec<u8>, AllocError>
    requires lawful { IsLawfulSet (module_set view.now.modules.now view.now.plan.now) }
    requires number { faulty.number < length view.now.modules.now }
    requires source { faulty.source < length view.now.pages.now.items.items }
    requires settled { statuses_of view.now.settled.now ≡ settlement view.now.store.now }
    ensures { IfOk result (λ text. (text.items ≡ []) ⊎ AreExpectedStatedIn view.now.pages.now.format
        (slice_index_or (files_in view.now.pages.now.items.items) faulty.entry.source []) (slice_index_or (texts_in view.now.pages.now.items.items) faulty.entry.source [])
        (module_set view.now.modules.now view.now.plan.now) (statuses_of view.now.settled.now) faulty.entry.number faulty.entry.faults.now text.items) }
{
    let page = &view.pages.items[faulty.source];
    let module = &view.modules[faulty.number];
    let Some(imports) = published(alloc, view.store, view.plan.imports(faulty.number))? else {
        return Ok(Vec::new(alloc));
    };
    let question = Question {
        source: page.lines.source(),
        name: module.header.name.as_str(),
        imports: imports.as_slice(),
        prelude: view.prelude,
    };
    let module = FaultyModule {
        format: view.pages.format,
        page,
        question: &question,
        faults: faulty.faults,
    };
    Ok(module_notes(alloc, &module, effort)?)
}
