//! Where names are written in texts.
ghost use Rattle.std.specs.Prelude.{◌≡◌, ◌≤◌, ◌+◌, ◌-◌, IfOk, length, min};
ghost use Rattle.serde_json.specs.View.{view};
ghost use Rattle.hm_lsp_values.specs.Spans.{IsSpan, span_data};

use crate::positions::position_value;
use hm_lsp_positions::{Cursor, Position};
use serde_json::{Value, json};
use std::alloc::{AllocError, Global};

/// The positions between which a name is written.
#[derive(Clone, Copy)]
pub(crate) struct NameSpan {
    pub start: Position,
    pub end: Position,
}

/// Returns the end of what begins at an offset of a text.
fn end_of(text: &[u8], start: usize, size: usize) -> usize
    requires { start ≤ length text.now }
    ensures { result ≡ min (start + size) (length text.now) }
{
    if size <= text.len() - start {
        start + size
    } else {
        text.len()
    }
}

/// Returns the position of a place of the checker, whose line and column are from 1.
fn position_at(line: u32, column: usize) -> Position
    ensures { result ≡ record { line = line - 1; column = column - 1 } }
{
    Position {
        line: (line as usize).saturating_sub(1),
        column: column.saturating_sub(1),
    }
}

/// Returns the positions between which a name of so many bytes is written in the text of a cursor. Its line and its column are from 1, and the column
/// counts bytes.
pub(crate) fn span_of(cursor: &mut Cursor<'_>, line: u32, column: usize, size: usize) -> NameSpan
    ensures same { cursor.new ≡ cursor.old }
    ensures span { IsSpan cursor.old.encoding cursor.old.text line column size result.start result.end }
{
    let start = cursor.offset_of(position_at(line, column));
    let end = end_of(cursor.text(), start, size);
    let first = cursor.position_of(start);
    let last = cursor.position_of(end);
    NameSpan {
        start: first,
        end: last,
    }
}

/// Returns the range of a span (`Range`).
pub(crate) fn span_value(alloc: Global, span: NameSpan) -> Result<Value, AllocError>
    ensures { IfOk result (λ value. view value ≡ span_data span.start span.end) }
{
    let start = position_value(alloc, span.start)?;
    let end = position_value(alloc, span.end)?;
    let (start, end) = (&start, &end);
    json!(in alloc; {"end": end, "start": start})
}
