//! The changes of a source that a message speaks of, as edits of its object.
ghost use Rattle.std.specs.Prelude.{IfNone, IfOk, IfSome, map};
ghost use Rattle.hm_messages_json.specs.Edits.{AreBothIn, HasEdits, IsEditOf, changed_of};

use crate::message::Edit;
use crate::positions::position_at;
use hm_lex::Place;
use hm_messages_excerpts::SourceLines;
use std::alloc::{AllocError, Global};

/// A change of a source: a text in place of the bytes from one place up to another.
#[derive(Drop)]
pub struct Change {
    pub start: Place,
    /// The place after the last byte that goes.
    pub end: Place,
    /// The text that comes in their place.
    pub text: String,
    /// Whether the checker accepted the source with all changes of the message.
    pub is_checked: bool,
}

/// Returns the edit of a change, if its places are in the source.
fn edit_of<'a>(lines: &SourceLines<'_>, change: &'a Change) -> Option<Edit<'a>>
    ensures some { IfSome result (λ edit. IsEditOf lines.now (changed_of change.now) edit) }
    ensures none { IfNone result (¬ AreBothIn lines.now (changed_of change.now)) }
{
    let start = position_at(lines, change.start)?;
    let end = position_at(lines, change.end)?;
    Some(Edit {
        start,
        end,
        text: change.text.as_str(),
        is_checked: change.is_checked,
    })
}

/// Returns the edits of changes, in order. There are none if a place isn't in the source.
pub fn edits_of<'a>(
    alloc: Global,
    lines: &SourceLines<'_>,
    changes: &'a [Change],
) -> Result<Vec<Edit<'a>>, AllocError>
    ensures { IfOk result (λ edits. HasEdits lines.now (map changed_of changes.now) edits.items) }
{
    let mut edits = Vec::new(alloc);
    for change in changes {
        match edit_of(lines, change) {
            Some(edit) => edits.push(edit)?,
            None => return Ok(Vec::new(alloc)),
        }
    }
    Ok(edits)
}
