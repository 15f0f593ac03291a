//! The edits of a rename.
ghost use Rattle.std.specs.Prelude.{◌≡◌, IfOk, map};
ghost use Rattle.serde_json.specs.View.{view};
ghost use Rattle.hm_lsp_values.specs.Renames.{IsReplacement, IsTargetValue, document_edit_data, workspace_edit_data};

use crate::references::reference_span;
use crate::spans::span_value;
use hm_lsp_positions::Cursor;
use hm_uses_references::Reference;
use serde_json::{Value, json};
use std::alloc::{AllocError, Global};

/// Returns the edit that puts a new name in place of a name that is written in the text of a cursor (`TextEdit`).
pub fn replacement_value(
    alloc: Global,
    cursor: &mut Cursor<'_>,
    name: &str,
    reference: &Reference,
) -> Result<Value, AllocError>
    ensures same { cursor.new ≡ cursor.old }
    ensures value { IfOk result (λ value. IsReplacement cursor.old.encoding cursor.old.text name.now reference.now (view value)) }
{
    let span = reference_span(cursor, reference);
    let range = span_value(alloc, span)?;
    let range = &range;
    json!(in alloc; {"newText": name, "range": range})
}

/// Returns the edits of the document with this URI (`TextDocumentEdit`). They are for any version of it.
pub fn document_edit_value(alloc: Global, uri: &str, edits: Vec<Value>) -> Result<Value, AllocError>
    ensures { IfOk result (λ value. view value ≡ document_edit_data uri.now (map view edits.items)) }
{
    let edits = Value::Array(edits);
    let edits = &edits;
    json!(in alloc; {"edits": edits, "textDocument": {"uri": uri, "version": null}})
}

/// Returns the edits of documents (`WorkspaceEdit`).
pub fn workspace_edit_value(alloc: Global, documents: Vec<Value>) -> Result<Value, AllocError>
    ensures { IfOk result (λ value. view value ≡ workspace_edit_data (map view documents.items)) }
{
    let documents = Value::Array(documents);
    let documents = &documents;
    json!(in alloc; {"documentChanges": documents})
}

/// Returns the name that a rename is of, with where it is written in the text of a cursor.
pub fn target_value(
    alloc: Global,
    cursor: &mut Cursor<'_>,
    name: &str,
    reference: &Reference,
) -> Result<Value, AllocError>
    ensures same { cursor.new ≡ cursor.old }
    ensures value { IfOk result (λ value. IsTargetValue cursor.old.encoding cursor.old.text name.now reference.now (view value)) }
{
    let span = reference_span(cursor, reference);
    let range = span_value(alloc, span)?;
    let range = &range;
    json!(in alloc; {"placeholder": name, "range": range})
}
