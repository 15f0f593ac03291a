//! Writes diagnostics as the lines of a run.
ghost use Rattle.std.specs.Prelude.{◌≡◌, IfOk, map, option_map, string_bytes};
ghost use Rattle.hm_service_messages.specs.Lines.{AreLines, AreTold, IsLineOf, lent_of, edit_of};

use crate::diagnostic::{Diagnostic, Edit, Told};
use hm_messages_json::{Edit as LentEdit, Message, counts_line, message_line};
use std::alloc::{AllocError, Global};

/// Returns edits whose texts are borrowed.
fn lent_edits<'a>(alloc: Global, edits: &'a [Edit]) -> Result<Vec<LentEdit<'a>>, AllocError>
    ensures { IfOk result (λ lent. map lent_of lent.items ≡ map edit_of edits.now) }
{
    let mut lent = Vec::new(alloc);
    for edit in edits {
        lent.push(LentEdit {
            start: edit.start,
            end: edit.end,
            text: edit.text.as_str(),
            is_checked: edit.is_checked,
        })?;
    }
    Ok(lent)
}

/// Returns a text that may be missing, borrowed.
fn lent(text: &Option<String>) -> Option<&str>
    ensures { option_map (λ t. t.now) result ≡ option_map string_bytes text.now }
{
    match text {
        Some(text) => Some(text.as_str()),
        None => None,
    }
}

/// Returns the line of a diagnostic.
fn line_of(alloc: Global, diagnostic: &Diagnostic) -> Result<String, AllocError>
    ensures { IfOk result (λ line. IsLineOf diagnostic.now (string_bytes line)) }
{
    let source = diagnostic.source;
    let file = format!(in alloc; "{source}")?;
    let edits = lent_edits(alloc, diagnostic.edits.as_slice())?;
    let message = Message {
        file: file.as_str(),
        start: diagnostic.start,
        end: diagnostic.end,
        level: diagnostic.level,
        kind: diagnostic.kind.as_str(),
        module: lent(&diagnostic.module),
        name: lent(&diagnostic.name),
        other: diagnostic.other,
        text: diagnostic.text.as_str(),
        hint: lent(&diagnostic.hint),
        expected: lent(&diagnostic.expected),
        actual: lent(&diagnostic.actual),
        part: diagnostic.part,
        second: diagnostic.second,
        edits: edits.as_slice(),
    };
    let line = message_line(alloc, &message)?;
    Ok(line)
}

/// Returns the lines of diagnostics, in order.
fn lines_of(alloc: Global, diagnostics: &[Diagnostic]) -> Result<String, AllocError>
    ensures { IfOk result (λ text. AreLines diagnostics.now (string_bytes text)) }
{
    let mut text = String::new(alloc);
    for diagnostic in diagnostics {
        let line = line_of(alloc, diagnostic)?;
        text.push_str(line.as_str())?;
    }
    Ok(text)
}

/// Returns the lines of the diagnostics and the counts of a run.
pub(crate) fn written(alloc: Global, told: &Told) -> Result<String, AllocError>
    ensures { IfOk result (λ text. AreTold told.now (string_bytes text)) }
{
    let mut text = lines_of(alloc, told.diagnostics.as_slice())?;
    let counts = counts_line(alloc, told.errors, told.skipped)?;
    text.push_str(counts.as_str())?;
    Ok(text)
}
