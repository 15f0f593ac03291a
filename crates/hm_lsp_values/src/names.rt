//! What is shown of a name, and where it is bound.
ghost use Rattle.std.specs.Prelude.{◌≡◌, IfOk, string_bytes};
ghost use Rattle.serde_json.specs.View.{view};
ghost use Rattle.hm_lsp_values.specs.Names.{IsHover, IsLocation, IsShown, is_bound, location_data};

use crate::positions::position_value;
use hm_lsp_positions::{Encoding, Position, offset_of, position_of};
use hm_service_messages::Bound;
use serde_json::{Value, json};
use std::alloc::{AllocError, Global};

/// Returns an empty range at a position of a document (`Location`).
fn location_at(alloc: Global, uri: &str, position: Position) -> Result<Value, AllocError>
    ensures { IfOk result (λ value. view value ≡ location_data uri.now position) }
{
    let place = position_value(alloc, position)?;
    let (start, end) = (&place, &place);
    json!(in alloc; {"range": {"end": end, "start": start}, "uri": uri})
}

/// Returns the place where a name is bound, in the text of its source (`Location`).
pub fn location_value(
    alloc: Global,
    encoding: Encoding,
    uri: &str,
    text: &[u8],
    bound: &Bound,
) -> Result<Value, AllocError>
    ensures { IfOk result (λ value. IsLocation encoding uri.now text.now bound.now (view value)) }
{
    let place = Position {
        line: bound.line.saturating_sub(1),
        column: bound.column.saturating_sub(1),
    };
    let offset = offset_of(Encoding::Utf32, text, place);
    location_at(alloc, uri, position_of(encoding, text, offset))
}

/// Returns whether a line says where a name is bound.
fn is_bound(line: &str) -> bool
    ensures { result ≡ is_bound line.now }
{
    line.as_bytes().starts_with(b"  bound at ")
}

/// Returns a text for a place without the lines that say where a name is bound.
fn shown(alloc: Global, text: &str) -> Result<String, AllocError>
    ensures { IfOk result (λ shown. IsShown text.now (string_bytes shown)) }
{
    let mut shown = String::new(alloc);
    let mut rest = text;
    'lines: while let Some((line, later)) = rest.split_once('\n') {
        if !is_bound(line) {
            shown.push_str(line)?;
            shown.push_str("\n")?;
        }
        rest = later;
    }
    if !is_bound(rest) {
        shown.push_str(rest)?;
    }
    Ok(shown)
}

/// Returns what is shown of a name (`Hover`), from the text of a run for its place.
pub fn hover_value(alloc: Global, text: &str) -> Result<Value, AllocError>
    ensures { IfOk result (λ value. IsHover text.now (view value)) }
{
    let shown = shown(alloc, text)?;
    let value = shown.as_str();
    json!(in alloc; {"contents": {"kind": "plaintext", "value": value}})
}
