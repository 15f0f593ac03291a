//! Where positions are in a text.
ghost use Rattle.std.specs.Prelude.{◌≡◌, ◌+◌, ◌<◌, ◌≤◌, ◌^◌, IfNone, IfSome, IsTrue, ℕ, false, length};
ghost use Rattle.hm_lex.specs.Cut.{place_after};
ghost use Rattle.hm_lex.specs.Scan.{place_step};
ghost use Rattle.hm_service_candidates.specs.Cursors.{IsCursor};
ghost use Rattle.hm_service_candidates.specs.Edited.{IsByteAt, place_of};

use hm_lex::Place;
use hm_service_messages::Position;

/// How far a text is gone through: the number of its bytes, and the place after them.
#[derive(Clone, Copy)]
pub(crate) struct Cursor {
    pub at: usize,
    pub place: Place,
}

/// Returns the beginning of a text.
pub(crate) fn beginning(text: &[u8]) -> Cursor
    ensures at { result.at ≡ 0 }
    ensures cursor { IsCursor text.now result }
{
    let _ = text;
    Cursor {
        at: 0,
        place: Place { line: 1, column: 1 },
    }
}

/// Returns the place after a byte at a place.
fn past(place: Place, byte: u8) -> Place
    requires line { place.line + 1 < 2 ^ 32 }
    requires column { place.column + 1 < 2 ^ 32 }
    ensures { result ≡ place_step place byte }
{
    if byte == b'\n' {
        Place {
            line: place.line + 1,
            column: 1,
        }
    } else {
        Place {
            line: place.line,
            column: place.column + 1,
        }
    }
}

/// Returns where the next byte ends.
fn next(text: &[u8], cursor: Cursor) -> Cursor
    requires inside { cursor.at < length text.now }
    requires short { length text.now + 1 < 2 ^ 32 }
    requires cursor { IsCursor text.now cursor }
    ensures at { result.at ≡ cursor.at + 1 }
    ensures cursor { IsCursor text.now result }
{
    Cursor {
        at: cursor.at + 1,
        place: past(cursor.place, text[cursor.at]),
    }
}

/// Returns whether a place is that of a position.
fn is_at(place: Place, position: Position) -> bool
    ensures yes { IsTrue result → place ≡ place_of position }
    ensures no { result ≡ false → ¬ (place ≡ place_of position) }
{
    if place.line as usize != position.line {
        return false;
    }
    place.column as usize == position.columns.bytes
}

/// Returns where a position is, if it is at the cursor or after it.
pub(crate) fn found_from(text: &[u8], cursor: Cursor, position: Position) -> Option<Cursor>
    requires short { length text.now + 1 < 2 ^ 32 }
    requires cursor { IsCursor text.now cursor }
    ensures cursor { IfSome result (IsCursor text.now) }
    ensures later { IfSome result (λ c. cursor.at ≤ c.at) }
    ensures found { IfSome result (λ c. IsByteAt text.now position c.at) }
    ensures none { IfNone result ((n : ℕ) → cursor.at ≤ n → ¬ (IsByteAt text.now position n)) }
{
    let mut here = cursor;
    'bytes: for at in cursor.at..text.len() {
        if is_at(here.place, position) {
            return Some(here);
        }
        here = next(text, here);
    }
    if is_at(here.place, position) {
        return Some(here);
    }
    None
}

/// Returns the place after a text.
pub(crate) fn place_after_all(text: &[u8]) -> Place
    requires short { length text.now + 1 < 2 ^ 32 }
    ensures { result ≡ place_after text.now }
{
    let mut here = beginning(text);
    'bytes: for i in 0..text.len() {
        here = next(text, here);
    }
    here.place
}
