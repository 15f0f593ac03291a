//! Positions and ranges.
ghost use Rattle.std.specs.Prelude.{◌≡◌, IfOk};
ghost use Rattle.serde_json.specs.View.{view};
ghost use Rattle.hm_lsp_values.specs.Places.{IsPlaceAt, position_data, position_of_place, range_data};

use hm_lsp_positions::{Encoding, Position, offset_of, position_of};
use hm_service_messages::{Columns, Position as Place};
use serde_json::{Value, json};
use std::alloc::{AllocError, Global};

/// Returns a position (`Position`).
pub(crate) fn position_value(alloc: Global, position: Position) -> Result<Value, AllocError>
    ensures { IfOk result (λ value. view value ≡ position_data position) }
{
    let line = position.line as u64;
    let character = position.column as u64;
    json!(in alloc; {"character": character, "line": line})
}

/// Returns the position of a place of the checker.
fn position_of_place(encoding: Encoding, place: &Place) -> Position
    ensures { result ≡ position_of_place encoding place.now }
{
    let Columns {
        bytes,
        characters,
        utf16,
    } = place.columns;
    let column = match encoding {
        Encoding::Utf8 => bytes,
        Encoding::Utf16 => utf16,
        Encoding::Utf32 => characters,
    };
    Position {
        line: place.line.saturating_sub(1),
        column: column.saturating_sub(1),
    }
}

/// Returns the range between two places of the checker (`Range`).
pub(crate) fn range_value(
    alloc: Global,
    encoding: Encoding,
    start: &Place,
    end: &Place,
) -> Result<Value, AllocError>
    ensures { IfOk result (λ value. view value ≡ range_data encoding start.now end.now) }
{
    let start = position_value(alloc, position_of_place(encoding, start))?;
    let end = position_value(alloc, position_of_place(encoding, end))?;
    let (start, end) = (&start, &end);
    json!(in alloc; {"end": end, "start": start})
}

/// Returns the place of the checker that has this position in a text.
pub fn place_at(encoding: Encoding, text: &[u8], position: Position) -> Place
    ensures { IsPlaceAt encoding text.now position result }
{
    let offset = offset_of(encoding, text, position);
    let bytes = position_of(Encoding::Utf8, text, offset);
    let characters = position_of(Encoding::Utf32, text, offset);
    let utf16 = position_of(Encoding::Utf16, text, offset);
    Place {
        line: bytes.line + 1,
        columns: Columns {
            bytes: bytes.column + 1,
            characters: characters.column + 1,
            utf16: utf16.column + 1,
        },
    }
}
