//! Where names are written.
ghost use Rattle.std.specs.Prelude.{◌≡◌, IfOk};
ghost use Rattle.serde_json.specs.View.{view};
ghost use Rattle.hm_lsp_values.specs.References.{IsHighlight, IsReference, kind_of};
ghost use Rattle.hm_lsp_values.specs.Spans.{IsSpan};

use crate::spans::{NameSpan, span_of, span_value};
use hm_lsp_positions::Cursor;
use hm_uses_references::Reference;
use serde_json::{Value, json};
use std::alloc::{AllocError, Global};

/// Returns the positions between which a name is written in the text of its source, which a cursor is in.
pub(crate) fn reference_span(cursor: &mut Cursor<'_>, reference: &Reference) -> NameSpan
    ensures same { cursor.new ≡ cursor.old }
    ensures span { IsSpan cursor.old.encoding cursor.old.text reference.now.line reference.now.column reference.now.length result.start result.end }
{
    let Reference {
        line,
        column,
        length,
        ..
    } = *reference;
    span_of(cursor, line, column, length)
}

/// Returns where a name is written, in the text of its source, which a cursor is in (`Location`).
pub fn reference_value(
    alloc: Global,
    uri: &str,
    cursor: &mut Cursor<'_>,
    reference: &Reference,
) -> Result<Value, AllocError>
    ensures same { cursor.new ≡ cursor.old }
    ensures value { IfOk result (λ value. IsReference cursor.old.encoding uri.now cursor.old.text reference.now (view value)) }
{
    let span = reference_span(cursor, reference);
    let range = span_value(alloc, span)?;
    let range = &range;
    json!(in alloc; {"range": range, "uri": uri})
}

/// Returns the number of the kind of a highlight (`DocumentHighlightKind`).
fn kind_of(reference: &Reference) -> u64
    ensures { result ≡ kind_of reference.now }
{
    if reference.binds { 3 } else { 2 }
}

/// Returns where a name is written, in the text of its source, which a cursor is in, and whether it is bound there (`DocumentHighlight`).
pub fn highlight_value(
    alloc: Global,
    cursor: &mut Cursor<'_>,
    reference: &Reference,
) -> Result<Value, AllocError>
    ensures same { cursor.new ≡ cursor.old }
    ensures value { IfOk result (λ value. IsHighlight cursor.old.encoding cursor.old.text reference.now (view value)) }
{
    let span = reference_span(cursor, reference);
    let range = span_value(alloc, span)?;
    let (range, kind) = (&range, kind_of(reference));
    json!(in alloc; {"kind": kind, "range": range})
}
