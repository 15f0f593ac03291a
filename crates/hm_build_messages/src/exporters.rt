//! The notes about modules that have a name which isn't in scope.
ghost use Rattle.std.specs.Prelude.{◌≡◌, ◌⊎◌, ◌<◌, ℕ, All, IfOk, IfSome, List, [], length, true};
ghost use Rattle.hm_verdicts.specs.Sets.{module_at};
ghost use Rattle.hm_messages.specs.Messages.{AreEach};
ghost use Rattle.hm_messages_exporters.specs.Changes.{IsBrace};
ghost use Rattle.hm_build_exporters.specs.Having.{IsExporter};
ghost use Rattle.hm_build_messages.specs.Exporters.{AreExporterNotes, AreNotesOf, IsImportableNote, IsLeftOutNote, IsPrivateNote};
ghost use Rattle.hm_build_messages.specs.Searching.{IsComplete, IsSearched, all_files, all_texts, file_of, format_of, interfaces_of, number_of, program_of, set_of, source_of, status_in, view_of};

use crate::sources::source_of;
use crate::view::Searched;
use hm_build_exporters::{Exporter, SettledSet, exporters_of, private_in};
use hm_lex::Place;
use hm_messages::{Suggestion, Topic, message, message_with};
use hm_messages_exporters::{
    Looks, Missing, body_start, import_changes, import_item, left_out_by, missing_at,
};
use hm_names::{Fault, Kind};
use std::alloc::{AllocError, Global};

/// Returns the note of an import whose module exports a name that isn't in scope, or no text.
fn left_out_note(
    alloc: Global,
    here: &Searched<'_, '_, '_, '_, '_, '_, '_>,
    missing: Missing<'_>,
    looks: &mut Looks,
) -> Result<Vec<u8>, AllocError>
    ensures { IfOk result (λ text. (text.items ≡ []) ⊎ IsLeftOutNote (format_of here.now) (file_of here.now) (source_of here.now) (program_of here.now) (interfaces_of here.now)
        missing.entry.space missing.entry.name.now text.items) }
{
    let site = here.site;
    match left_out_by(site.program, site.interfaces, missing, looks) {
        Some(import) => {
            let name = &import.name;
            let topic = Topic::LeftOut(name.as_str(), missing.name);
            Ok(message(
                alloc,
                here.named.view.pages.format,
                here.named.page,
                name.place,
                &topic,
            )?)
        }
        None => Ok(Vec::new(alloc)),
    }
}

/// Returns the note of an imported module that declares a name which isn't in scope, and doesn't export it, or no text.
fn private_note(
    alloc: Global,
    here: &Searched<'_, '_, '_, '_, '_, '_, '_>,
    missing: Missing<'_>,
    looks: &mut Looks,
) -> Result<Vec<u8>, AllocError>
    requires { IsComplete (view_of here.now) (number_of here.now) }
    ensures { IfOk result (λ text. (text.items ≡ []) ⊎ IsPrivateNote (format_of here.now) (all_files (view_of here.now)) (all_texts (view_of here.now))
        (set_of (view_of here.now)) (status_in (view_of here.now)) (number_of here.now) missing.entry.space missing.entry.name.now text.items) }
{
    let view = here.named.view;
    let set = SettledSet {
        modules: view.modules,
        plan: view.plan,
        settled: view.settled,
    };
    let importer = here.named.faulty.number;
    let Some(found) = private_in(alloc, &set, importer, missing, looks)? else {
        return Ok(Vec::new(alloc));
    };
    let source = source_of(view, found.number);
    let name = view.modules[found.number].header.name.as_str();
    let topic = Topic::Private(name, missing.name);
    Ok(message(
        alloc,
        view.pages.format,
        &view.pages.items[source],
        found.place,
        &topic,
    )?)
}

/// Returns the note of a module that exports a name which isn't in scope, and isn't imported. The brace begins the body of the faulty module.
fn exporter_note(
    alloc: Global,
    here: &Searched<'_, '_, '_, '_, '_, '_, '_>,
    body: Option<Place>,
    missing: Missing<'_>,
    exporter: Exporter<'_>,
) -> Result<Vec<u8>, AllocError>
    requires complete { IsComplete (view_of here.now) (number_of here.now) }
    requires body { IfSome body (IsBrace (source_of here.now)) }
    requires modules { exporter.number < length (view_of here.now).modules.now }
    requires exporter { IsExporter (set_of (view_of here.now)) (status_in (view_of here.now)) (number_of here.now) missing.space missing.name.now exporter }
    ensures { IfOk result (λ text. IsImportableNote (format_of here.now) (file_of here.now) (source_of here.now) (set_of (view_of here.now)) (status_in (view_of here.now)) (number_of here.now) missing.entry.space missing.entry.name.now
        missing.entry.place exporter.entry.number text.items) }
{
    let view = here.named.view;
    let modules = view.modules;
    let name = modules[exporter.number].header.name.as_str();
    let item = import_item(alloc, exporter.interface, missing.space, missing.name)?;
    let changes = import_changes(alloc, body, name, item.as_str())?;
    let suggestion = Suggestion {
        place: missing.place,
        topic: Topic::Importable(name, missing.name),
        changes: changes.as_slice(),
        part: None,
        second: None,
    };
    Ok(message_with(alloc, view.pages.format, here.named.page, &suggestion)?)
}

/// Returns the notes of modules that export a name which isn't in scope, and aren't imported. The brace begins the body of the faulty module.
fn all_notes_for(
    alloc: Global,
    here: &Searched<'_, '_, '_, '_, '_, '_, '_>,
    body: Option<Place>,
    missing: Missing<'_>,
    exporters: &[Exporter<'_>],
) -> Result<Vec<u8>, AllocError>
    requires complete { IsComplete (view_of here.now) (number_of here.now) }
    requires body { IfSome body (IsBrace (source_of here.now)) }
    requires exporters { All (IsExporter (set_of (view_of here.now)) (status_in (view_of here.now)) (number_of here.now) missing.space missing.name.now) exporters.now }
    ensures { IfOk result (λ text. AreEach (λ e t. IsImportableNote (format_of here.now) (file_of here.now) (source_of here.now) (set_of (view_of here.now)) (status_in (view_of here.now)) (number_of here.now) missing.entry.space
        missing.entry.name.now missing.entry.place e.number t) exporters.now text.items) }
{
    let mut text = Vec::new(alloc);
    for exporter in exporters {
        let note = exporter_note(alloc, here, body, missing, *exporter)?;
        text.extend_from_slice(note.as_slice())?;
    }
    Ok(text)
}

/// Returns the notes of modules that export a name which isn't in scope, and aren't imported.
fn exporter_notes(
    alloc: Global,
    here: &Searched<'_, '_, '_, '_, '_, '_, '_>,
    missing: Missing<'_>,
    looks: &mut Looks,
) -> Result<Vec<u8>, AllocError>
    requires { IsComplete (view_of here.now) (number_of here.now) }
    ensures { IfOk result (λ text. (found : List ℕ) × AreEach (IsImportableNote (format_of here.now) (file_of here.now) (source_of here.now) (set_of (view_of here.now)) (status_in (view_of here.now)) (number_of here.now) missing.entry.space
        missing.entry.name.now missing.entry.place) found text.items) }
{
    let view = here.named.view;
    let set = SettledSet {
        modules: view.modules,
        plan: view.plan,
        settled: view.settled,
    };
    let importer = here.named.faulty.number;
    let found = exporters_of(alloc, &set, importer, missing, looks)?;
    let body = body_start(&here.named.page.lines, &here.site.program.header.name);
    Ok(all_notes_for(alloc, here, body, missing, found.as_slice())?)
}

/// Returns the notes of an import and of an imported module that have a name which isn't in scope, or no text.
fn import_notes(
    alloc: Global,
    here: &Searched<'_, '_, '_, '_, '_, '_, '_>,
    missing: Missing<'_>,
    looks: &mut Looks,
) -> Result<Vec<u8>, AllocError>
    requires complete { IsComplete (view_of here.now) (number_of here.now) }
    requires program { program_of here.now ≡ module_at (set_of (view_of here.now)) (number_of here.now) }
    ensures { IfOk result (λ text. AreNotesOf (format_of here.now) (file_of here.now) (source_of here.now) (all_files (view_of here.now)) (all_texts (view_of here.now))
        (set_of (view_of here.now)) (status_in (view_of here.now)) (number_of here.now) (interfaces_of here.now) missing.entry.space missing.entry.name.now missing.entry.place text.items) }
{
    let mut text = left_out_note(alloc, here, missing, looks)?;
    let other = private_note(alloc, here, missing, looks)?;
    text.extend_from_slice(other.as_slice())?;
    Ok(text)
}

/// Returns the notes of modules that have a name which isn't in scope, or no text.
fn notes_of(
    alloc: Global,
    here: &Searched<'_, '_, '_, '_, '_, '_, '_>,
    missing: Missing<'_>,
    looks: &mut Looks,
) -> Result<Vec<u8>, AllocError>
    requires complete { IsComplete (view_of here.now) (number_of here.now) }
    requires program { program_of here.now ≡ module_at (set_of (view_of here.now)) (number_of here.now) }
    ensures { IfOk result (λ text. AreNotesOf (format_of here.now) (file_of here.now) (source_of here.now) (all_files (view_of here.now)) (all_texts (view_of here.now))
        (set_of (view_of here.now)) (status_in (view_of here.now)) (number_of here.now) (interfaces_of here.now) missing.entry.space missing.entry.name.now missing.entry.place text.items) }
{
    let notes = import_notes(alloc, here, missing, looks)?;
    if !notes.is_empty() {
        return Ok(notes);
    }
    Ok(exporter_notes(alloc, here, missing, looks)?)
}

// Why: docs/DECISIONS.md, "Where else a name is".
/// Returns the notes of modules that have the name of a fault, or no text.
pub(crate) fn name_notes(
    alloc: Global,
    here: &Searched<'_, '_, '_, '_, '_, '_, '_>,
    fault: &Fault,
    looks: &mut Looks,
) -> Result<Vec<u8>, AllocError>
    requires { IsSearched here.now }
    ensures noted { IfOk result (λ text. (text.items ≡ []) ⊎ AreExporterNotes (format_of here.now) (file_of here.now) (source_of here.now) (all_files (view_of here.now))
        (all_texts (view_of here.now)) (set_of (view_of here.now)) (status_in (view_of here.now)) (number_of here.now) (interfaces_of here.now) fault.now text.items) }
    ensures silent { IfOk result (λ text. here.now.named.now.is_quiet ≡ true → text.items ≡ []) }
{
    if here.named.is_quiet {
        return Ok(Vec::new(alloc));
    }
    if fault.kind != Kind::Unbound {
        return Ok(Vec::new(alloc));
    }
    match missing_at(here.uses, here.site.scope, fault.place) {
        Some(missing) => Ok(notes_of(alloc, here, missing, looks)?),
        None => Ok(Vec::new(alloc)),
    }
}
