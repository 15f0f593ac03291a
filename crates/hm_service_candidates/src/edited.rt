//! The text that edits make.
ghost use Rattle.std.specs.Prelude.{◌≡◌, ◌+◌, ◌++◌, ◌<◌, ◌^◌, IfNone, IfOk, IfSome, ℕ, List, length, map};
ghost use Rattle.hm_service_candidates.specs.Cursors.{IsCursor};
ghost use Rattle.hm_service_candidates.specs.EditSteps.{HasSpan, IsFront, IsSpan};
ghost use Rattle.hm_service_candidates.specs.Edited.{HasNoEdited, IsByteAt, IsEdited, IsEditedText, place_of};
ghost use Rattle.hm_service_messages.specs.Lines.{edit_of};

use crate::cursors::{Cursor, beginning, found_from, place_after_all};
use hm_lex::Place;
use hm_service_messages::Edit;
use std::alloc::{AllocError, Global};

/// The bytes of the longest text. A place has 32 bits.
const MOST_BYTES: usize = 4_294_967_293;

/// The text that edits make, and the part that they replace.
#[derive(Debug, Drop)]
pub struct EditedText {
    pub text: Vec<u8>,
    /// Where the first edit begins.
    pub start: Place,
    /// The place after the last edit.
    pub end: Place,
    /// The place after what comes in its place.
    pub new_end: Place,
}

/// Where an edit begins and ends in a text.
#[derive(Clone, Copy)]
struct EditSpan {
    start: Cursor,
    end: Cursor,
}

/// Returns where an edit begins and ends, if it begins at the cursor or after it.
fn span_of(text: &[u8], cursor: Cursor, edit: &Edit) -> Option<EditSpan>
    requires short { length text.now + 1 < 2 ^ 32 }
    requires cursor { IsCursor text.now cursor }
    ensures some { IfSome result (λ s. IsSpan text.now cursor.at (edit_of edit.now) s) }
    ensures none { IfNone result (¬ (HasSpan text.now cursor.at (edit_of edit.now))) }
{
    let start = found_from(text, cursor, edit.start)?;
    let end = found_from(text, start, edit.end)?;
    Some(EditSpan { start, end })
}

/// A text up to the end of the last edit, with the edits made, and where that end is in the text before.
#[derive(Drop)]
struct Front {
    bytes: Vec<u8>,
    end: Cursor,
}

/// Returns a text with its edits made up to the end of the last one. Returns `None` if they aren't in order in the text.
fn front_of(alloc: Global, text: &[u8], edits: &[Edit]) -> Result<Option<Front>, AllocError>
    requires short { length text.now + 1 < 2 ^ 32 }
    ensures some { IfOk result (λ made. IfSome made (λ f. IsFront text.now (map edit_of edits.now) f.bytes.items f.end)) }
    ensures none { IfOk result (λ made. IfNone made ((t : List ℕ) → ¬ (IsEdited text.now edits.now t))) }
{
    let mut bytes = Vec::new(alloc);
    let mut end = beginning(text);
    'edits: for edit in edits {
        let Some(span) = span_of(text, end, edit) else {
            return Ok(None);
        };
        bytes.extend_from_slice(&text[end.at..span.start.at])?;
        bytes.extend_from_slice(edit.text.as_bytes())?;
        end = span.end;
    }
    Ok(Some(Front { bytes, end }))
}

/// Returns where the first edit begins, if it is in the text.
fn start_of(text: &[u8], first: &Edit) -> Option<Place>
    requires short { length text.now + 1 < 2 ^ 32 }
    ensures some { IfSome result (λ p. p ≡ place_of first.now.start) }
    ensures none { IfNone result ((n : ℕ) → ¬ (IsByteAt text.now first.now.start n)) }
{
    let found = found_from(text, beginning(text), first.start)?;
    Some(found.place)
}

/// Returns bytes and then others.
fn with_rest(mut bytes: Vec<u8>, rest: &[u8]) -> Result<Vec<u8>, AllocError>
    ensures { IfOk result (λ all. all.items ≡ bytes.items ++ rest.now) }
{
    bytes.extend_from_slice(rest)?;
    Ok(bytes)
}

/// Returns the text that edits make, if there are some, they are in order in the text, and a place of both texts has 32 bits.
///
/// # Errors
///
/// If memory runs out.
pub fn edited_text(
    alloc: Global,
    text: &[u8],
    edits: &[Edit],
) -> Result<Option<EditedText>, AllocError>
    ensures some { IfOk result (λ made. IfSome made (IsEditedText text.now edits.now)) }
    ensures none { IfOk result (λ made. IfNone made (HasNoEdited text.now edits.now)) }
{
    if text.len() > MOST_BYTES {
        return Ok(None);
    }
    if edits.is_empty() {
        return Ok(None);
    }
    let Some(start) = start_of(text, &edits[0]) else {
        return Ok(None);
    };
    let Some(front) = front_of(alloc, text, edits)? else {
        return Ok(None);
    };
    let Front { bytes, end } = front;
    if bytes.len() > MOST_BYTES {
        return Ok(None);
    }
    let new_end = place_after_all(bytes.as_slice());
    let made = with_rest(bytes, &text[end.at..])?;
    Ok(Some(EditedText {
        text: made,
        start,
        end: end.place,
        new_end,
    }))
}
