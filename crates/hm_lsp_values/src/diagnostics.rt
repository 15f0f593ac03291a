//! Diagnostics, and the actions that make their edits.
ghost use Rattle.std.specs.Prelude.{◌≡◌, IfOk, map, option_map, string_bytes};
ghost use Rattle.serde_json.specs.View.{items_view, view};
ghost use Rattle.hm_lsp_values.specs.Diagnostics.{action_data, action_of, diagnostic_data, edit_data, edits_data, severity_of, text_title, text_with, title_of};

use crate::positions::range_value;
use hm_lsp_positions::Encoding;
use hm_service_messages::{Diagnostic, Edit, Level};
use serde_json::{Value, json};
use std::alloc::{AllocError, Global};

/// Returns the number of a level (`DiagnosticSeverity`).
fn severity_of(level: Level) -> u64
    ensures { result ≡ severity_of level }
{
    match level {
        Level::Error => 1,
        Level::Note => 3,
    }
}

/// Returns the text of a diagnostic with its hint, if it has one.
fn text_of(alloc: Global, diagnostic: &Diagnostic) -> Result<String, AllocError>
    ensures { IfOk result (λ text. string_bytes text ≡ text_with (string_bytes diagnostic.now.text) (option_map string_bytes diagnostic.now.hint)) }
{
    let mut text = String::from_str(alloc, diagnostic.text.as_str())?;
    if let Some(hint) = &diagnostic.hint {
        text.push_str("\n")?;
        text.push_str(hint.as_str())?;
    }
    Ok(text)
}

/// Returns a diagnostic (`Diagnostic`). A hint is a line of its message.
pub fn diagnostic_value(
    alloc: Global,
    encoding: Encoding,
    diagnostic: &Diagnostic,
) -> Result<Value, AllocError>
    ensures { IfOk result (λ value. view value ≡ diagnostic_data encoding diagnostic.now) }
{
    let range = range_value(alloc, encoding, &diagnostic.start, &diagnostic.end)?;
    let severity = severity_of(diagnostic.level);
    let text = text_of(alloc, diagnostic)?;
    let (code, message, range) = (diagnostic.kind.as_str(), text.as_str(), &range);
    json!(in alloc; {"code": code, "message": message, "range": range, "severity": severity, "source": "hmc"})
}

/// Returns an edit (`TextEdit`).
fn edit_value(alloc: Global, encoding: Encoding, edit: &Edit) -> Result<Value, AllocError>
    ensures { IfOk result (λ value. view value ≡ edit_data encoding edit.now) }
{
    let range = range_value(alloc, encoding, &edit.start, &edit.end)?;
    let (text, range) = (edit.text.as_str(), &range);
    json!(in alloc; {"newText": text, "range": range})
}

/// Returns edits, in order.
fn edits_value(alloc: Global, encoding: Encoding, edits: &[Edit]) -> Result<Value, AllocError>
    ensures { IfOk result (λ value. view value ≡ edits_data encoding edits.now) }
{
    let mut values = Vec::new(alloc);
    for edit in edits {
        values.push(edit_value(alloc, encoding, edit)?)?;
    }
    Ok(Value::Array(values))
}

/// Returns the title of an action that writes a text.
fn text_title(alloc: Global, text: &str) -> Result<String, AllocError>
    ensures { IfOk result (λ title. string_bytes title ≡ text_title text.now) }
{
    if text.is_empty() {
        return String::from_str(alloc, "remove this");
    }
    format!(in alloc; "write '{text}'")
}

/// Returns the title of the action for a message: what its edit writes, if it has one edit.
fn title_of(alloc: Global, change: &Diagnostic) -> Result<String, AllocError>
    ensures { IfOk result (λ title. string_bytes title ≡ title_of (string_bytes change.now.text) change.now.edits.items) }
{
    let edits = change.edits.as_slice();
    if edits.len() == 1 {
        return text_title(alloc, edits[0].text.as_str());
    }
    String::from_str(alloc, change.text.as_str())
}

/// Returns the action that makes edits in the document with this URI.
fn titled(
    alloc: Global,
    uri: &str,
    title: &str,
    solved: &Value,
    edits: &Value,
) -> Result<Value, AllocError>
    ensures { IfOk result (λ value. view value ≡ action_of uri.now title.now (view solved.now) (view edits.now)) }
{
    json!(in alloc; {"diagnostics": [solved], "edit": {"changes": {(uri): edits}}, "kind": "quickfix", "title": title})
}

/// Returns the action that makes the edits of a message in the document with this URI (`CodeAction`). The fault is what it solves.
pub fn action_value(
    alloc: Global,
    encoding: Encoding,
    uri: &str,
    fault: &Diagnostic,
    change: &Diagnostic,
) -> Result<Value, AllocError>
    ensures { IfOk result (λ value. view value ≡ action_data encoding uri.now fault.now change.now) }
{
    let edits = edits_value(alloc, encoding, change.edits.as_slice())?;
    let solved = diagnostic_value(alloc, encoding, fault)?;
    let title = title_of(alloc, change)?;
    titled(alloc, uri, title.as_str(), &solved, &edits)
}
