//! Texts with a new name.
ghost use Rattle.std.specs.Prelude.{◌≡◌, ◌+◌, ◌<◌, ◌≤◌, ◌^◌, IfOk, IfSome, IsTrue, length};
ghost use Rattle.hm_lex.specs.Cut.{place_after};
ghost use Rattle.hm_lex.specs.Scan.{place_step};
ghost use Rattle.hm_uses_renames.specs.Cursors.{IsCursor};
ghost use Rattle.hm_uses_renames.specs.Texts.{IsAt, IsReplaced};

use hm_lex::Place;
use hm_uses_references::Reference;
use std::alloc::{AllocError, Global};

/// The bytes of the longest text. A place has 32 bits.
const MOST_BYTES: usize = 1_048_576;

/// How far a text is gone through: the number of its bytes, and the place after them.
#[derive(Clone, Copy)]
struct Cursor {
    at: usize,
    place: Place,
}

/// Returns the place after a byte at a place.
fn past(place: Place, byte: u8) -> Place
    requires line { place.line + 1 < 2 ^ 32 }
    requires column { place.column + 1 < 2 ^ 32 }
    ensures { result ≡ place_step place byte }
{
    if byte == b'\n' {
        Place {
            line: place.line + 1,
            column: 1,
        }
    } else {
        Place {
            line: place.line,
            column: place.column + 1,
        }
    }
}

/// Returns where the next byte ends.
fn next(text: &[u8], cursor: Cursor) -> Cursor
    requires inside { cursor.at < length text.now }
    requires short { length text.now + 1 < 2 ^ 32 }
    requires cursor { IsCursor text.now cursor }
    ensures at { result.at ≡ cursor.at + 1 }
    ensures cursor { IsCursor text.now result }
{
    Cursor {
        at: cursor.at + 1,
        place: past(cursor.place, text[cursor.at]),
    }
}

/// Returns whether a reference begins at a place.
fn is_start(place: Place, reference: &Reference) -> bool
    ensures { IsTrue result → place ≡ record { line = reference.now.line; column = reference.now.column } }
{
    place.line == reference.line && place.column as usize == reference.column
}

/// Returns where a reference begins, if it begins at the cursor or after it.
fn start_of(text: &[u8], cursor: Cursor, reference: &Reference) -> Option<Cursor>
    requires short { length text.now + 1 < 2 ^ 32 }
    requires cursor { IsCursor text.now cursor }
    ensures cursor { IfSome result (IsCursor text.now) }
    ensures later { IfSome result (λ c. cursor.at ≤ c.at) }
    ensures starts { IfSome result (λ c. c.place ≡ record { line = reference.now.line; column = reference.now.column }) }
{
    let mut here = cursor;
    'bytes: for at in cursor.at..text.len() {
        if is_start(here.place, reference) {
            return Some(here);
        }
        here = next(text, here);
    }
    None
}

/// Returns where a reference ends that begins at a cursor, if the text is long enough.
fn end_of(text: &[u8], start: Cursor, size: usize) -> Option<Cursor>
    requires short { length text.now + 1 < 2 ^ 32 }
    requires cursor { IsCursor text.now start }
    ensures cursor { IfSome result (IsCursor text.now) }
    ensures ends { IfSome result (λ c. c.at ≡ start.at + size) }
{
    if size > text.len() - start.at {
        return None;
    }
    let mut here = start;
    'bytes: for i in 0..size {
        here = next(text, here);
    }
    Some(here)
}

/// Returns a text with a new name in place of these references, or `None` if they aren't in order in it, or if it has more than 1,048,576 bytes.
///
/// # Errors
///
/// If memory runs out.
pub fn renamed_text(
    alloc: Global,
    text: &[u8],
    references: &[Reference],
    name: &str,
) -> Result<Option<Vec<u8>>, AllocError>
    ensures { IfOk result (λ made. IfSome made (λ v. IsReplaced text.now name.now references.now v.items)) }
{
    if text.len() > MOST_BYTES {
        return Ok(None);
    }
    let mut made = Vec::new(alloc);
    let mut cursor = Cursor {
        at: 0,
        place: Place { line: 1, column: 1 },
    };
    'references: for reference in references {
        let Some(start) = start_of(text, cursor, reference) else {
            return Ok(None);
        };
        let Some(end) = end_of(text, start, reference.length) else {
            return Ok(None);
        };
        made.extend_from_slice(&text[cursor.at..start.at])?;
        made.extend_from_slice(name.as_bytes())?;
        cursor = end;
    }
    made.extend_from_slice(&text[cursor.at..])?;
    Ok(Some(made))
}
