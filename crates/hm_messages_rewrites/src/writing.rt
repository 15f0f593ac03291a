//! Texts in place of others.
ghost use Rattle.std.specs.Prelude.{◌≡◌, ◌≤◌, ◌++◌, ◌+◌, ℕ, List, IfNone, IfOk, IfSome, length, map};
ghost use Rattle.hm_messages_json.specs.Edits.{changed_of};
ghost use Rattle.hm_messages_rewrites.specs.Rewrites.{IsRewritten, IsWritten, place_after};

use hm_lex::Place;
use hm_messages_excerpts::SourceLines;
use hm_messages_json::Change;
use std::alloc::{AllocError, Global};

/// Returns the place after so many bytes on the line, if its column has 32 bits.
fn place_after(place: Place, count: usize) -> Option<Place>
    ensures some { IfSome result (λ end. end ≡ place_after place count) }
    ensures none { IfNone result (4294967296 ≤ place.column + count) }
{
    let count = u32::try_from(count).ok()?;
    let column = place.column.checked_add(count)?;
    Some(Place {
        line: place.line,
        column,
    })
}

/// Returns the bytes after a text, if bytes begin with it.
pub fn after_text<'a>(bytes: &'a [u8], text: &[u8]) -> Option<&'a [u8]>
    ensures some { IfSome result (λ after. bytes.entry.now ≡ text.now ++ after.now) }
    ensures none { IfNone result ((after : List ℕ) → ¬ (bytes.entry.now ≡ text.now ++ after)) }
{
    bytes.strip_prefix(text)
}

/// Returns the change that writes a text in place of so many bytes, as the only one. There is none if the column of its end has more than 32 bits.
pub(crate) fn written(
    alloc: Global,
    place: Place,
    count: usize,
    text: &str,
) -> Result<Vec<Change>, AllocError>
    ensures { IfOk result (λ changes. IsWritten place count text.now (map changed_of changes.items)) }
{
    let Some(end) = place_after(place, count) else {
        return Ok(Vec::new(alloc));
    };
    let mut changes = Vec::new(alloc);
    changes.push(Change {
        start: place,
        end,
        text: String::from_str(alloc, text)?,
        is_checked: false,
    })?;
    Ok(changes)
}

/// Returns the change that writes a text in place of another one, if that is at the place.
pub(crate) fn rewritten(
    alloc: Global,
    lines: &SourceLines<'_>,
    place: Place,
    old: &str,
    new: &str,
) -> Result<Vec<Change>, AllocError>
    ensures { IfOk result (λ changes. IsRewritten lines.now place old.now new.now (map changed_of changes.items)) }
{
    let Some(rest) = lines.rest_of_line(place) else {
        return Ok(Vec::new(alloc));
    };
    let Some(_) = after_text(rest, old.as_bytes()) else {
        return Ok(Vec::new(alloc));
    };
    Ok(written(alloc, place, old.len(), new)?)
}
