//! The lexical faults after the first one of a source.
ghost use Rattle.std.specs.Prelude.{◌≡◌, ◌+◌, ◌<◌, ◌≤◌, ◌^◌, IfOk, IfSome, length, map, take, true};
ghost use Rattle.hm_lex.specs.Cut.{place_after};
ghost use Rattle.hm_lex.specs.Scan.{place_step};
ghost use Rattle.hm_messages_lexemes.specs.Lexemes.{AreLaterLexemes, IsBlankedAt};

use crate::foreign::foreign_len;
use hm_lex::{LexFault, Place, lex};
use std::alloc::{AllocError, Global};

/// The most bytes of a source.
const MOST_BYTES: usize = 1_048_576;

/// Returns the place after one more byte.
fn past(place: Place, byte: u8) -> Place
    requires line { place.line + 1 < 2 ^ 32 }
    requires column { place.column + 1 < 2 ^ 32 }
    ensures { result ≡ place_step place byte }
{
    if byte == b'\n' {
        Place {
            line: place.line + 1,
            column: 1,
        }
    } else {
        Place {
            line: place.line,
            column: place.column + 1,
        }
    }
}

/// Returns whether two places are the same.
fn is_same(place: Place, other: Place) -> bool
    ensures { result ≡ true → place ≡ other }
{
    if place.line != other.line {
        return false;
    }
    place.column == other.column
}

/// Returns how many bytes are before a place, if it is that of a byte of the text. Says nothing about a text of more than 1,048,576 bytes.
fn offset_of(text: &[u8], place: Place) -> Option<usize>
    ensures { IfSome result (λ at. (at ≤ length text.now) × (place ≡ place_after (take at text.now))) }
{
    if text.len() > MOST_BYTES {
        return None;
    }
    let mut here = Place { line: 1, column: 1 };
    'bytes: for at in 0..text.len() {
        if is_same(here, place) {
            return Some(at);
        }
        here = past(here, text[at]);
    }
    None
}

/// Returns blanks in place of bytes.
fn blanks(alloc: Global, bytes: &[u8]) -> Result<Vec<u8>, AllocError>
    ensures { IfOk result (λ made. made.items ≡ map (λ b. 32) bytes.now) }
{
    let mut made = Vec::new(alloc);
    'bytes: for _ in bytes {
        made.push(b' ')?;
    }
    Ok(made)
}

/// Returns the source with blanks in place of the lexeme at a place, if that is an operator, a name between backquotes or a number with a fraction.
fn blanked(alloc: Global, source: &[u8], place: Place) -> Result<Option<Vec<u8>>, AllocError>
    ensures { IfOk result (λ o. IfSome o (λ other. IsBlankedAt source.now place other.items)) }
{
    let Some(at) = offset_of(source, place) else {
        return Ok(None);
    };
    let rest = &source[at..];
    let Some(len) = foreign_len(rest) else {
        return Ok(None);
    };
    let spaces = blanks(alloc, &rest[..len])?;
    let mut other = Vec::from_slice(alloc, &source[..at])?;
    other.extend_from_slice(spaces.as_slice())?;
    other.extend_from_slice(&rest[len..])?;
    Ok(Some(other))
}

/// Returns the places of lexical faults after the one at a place, in order: at most `most`. Each is the first fault of the source with blanks in place
/// of the lexemes at all places before it.
///
/// The faults end before a place at which there is no operator, name between backquotes or number with a fraction, and before a fault of another kind.
/// The source is lexed anew for each.
///
/// # Errors
///
/// If memory runs out.
pub fn later_lexemes(
    alloc: Global,
    source: &[u8],
    place: Place,
    most: usize,
) -> Result<Vec<Place>, AllocError>
    ensures faults { IfOk result (λ places. AreLaterLexemes source.now place places.items) }
    ensures most { IfOk result (λ places. length places.items ≤ most) }
{
    let mut places = Vec::new(alloc);
    let mut text = Vec::from_slice(alloc, source)?;
    let mut last = place;
    'faults: for _ in 0..most {
        let Some(other) = blanked(alloc, text.as_slice(), last)? else {
            return Ok(places);
        };
        let next = match lex(alloc, other.as_slice()) {
            Err(LexFault::Lexeme(next)) => next,
            Err(LexFault::Memory) => return Err(AllocError),
            _ => return Ok(places),
        };
        places.push(next)?;
        text = other;
        last = next;
    }
    Ok(places)
}
