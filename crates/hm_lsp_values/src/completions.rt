//! The names that may be written at a place.
ghost use Rattle.std.specs.Prelude.{◌≡◌, IfOk, map};
ghost use Rattle.serde_json.specs.View.{view};
ghost use Rattle.hm_lsp_values.specs.Completions.{completion_data, completion_kind, completions_data, written_data};
ghost use Rattle.hm_lsp_values.specs.Spans.{span_data};

use crate::spans::{NameSpan, span_value};
use hm_lsp_positions::Position;
use hm_names::Namespace;
use hm_scope_typed_names::TypedName;
use serde_json::{Value, json};
use std::alloc::{AllocError, Global};

/// Returns the number of a kind of names (`CompletionItemKind`).
fn completion_kind(space: Namespace) -> u64
    ensures { result ≡ completion_kind space }
{
    match space {
        Namespace::Values => 3,
        Namespace::Constructors => 4,
        Namespace::Types => 22,
    }
}

/// Returns the edit that writes a name in place of what is between two positions (`TextEdit`).
fn written_value(alloc: Global, span: NameSpan, name: &TypedName) -> Result<Value, AllocError>
    ensures { IfOk result (λ value. view value ≡ written_data span.start span.end name.now) }
{
    let range = span_value(alloc, span)?;
    let (text, range) = (name.text.as_str(), &range);
    json!(in alloc; {"newText": text, "range": range})
}

/// Returns a name with its type, in place of what is written between two positions (`CompletionItem`).
fn completion_value(alloc: Global, span: NameSpan, name: &TypedName) -> Result<Value, AllocError>
    ensures { IfOk result (λ value. view value ≡ completion_data span.start span.end name.now) }
{
    let edit = written_value(alloc, span, name)?;
    let (kind, label, edit) = (completion_kind(name.space), name.text.as_str(), &edit);
    match &name.scheme {
        None => json!(in alloc; {"kind": kind, "label": label, "textEdit": edit}),
        Some(scheme) => {
            let detail = scheme.as_str();
            json!(in alloc; {"detail": detail, "kind": kind, "label": label, "textEdit": edit})
        }
    }
}

/// Returns names with their types, in order, each in place of what is written between two positions (`CompletionList`).
pub fn completions_value(
    alloc: Global,
    start: Position,
    end: Position,
    names: &[TypedName],
) -> Result<Value, AllocError>
    ensures { IfOk result (λ value. view value ≡ completions_data start end names.now) }
{
    let span = NameSpan { start, end };
    let mut items = Vec::new(alloc);
    'names: for name in names {
        items.push(completion_value(alloc, span, name)?)?;
    }
    let items = Value::Array(items);
    let items = &items;
    json!(in alloc; {"isIncomplete": false, "items": items})
}
