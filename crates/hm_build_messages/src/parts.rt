//! The notes about parts of a definition.
ghost use Rattle.std.specs.Prelude.{IfOk, map};
ghost use Rattle.hm_messages.specs.Subjects.{subject_of};
ghost use Rattle.hm_messages_json.specs.Edits.{changed_of};
ghost use Rattle.hm_messages_edits.specs.Spans.{IsSpanOfAny};
ghost use Rattle.hm_build_messages.specs.PartMessages.{IsPartMessage};

use crate::view::FaultyModule;
use hm_messages::{Suggestion, Topic, message_with};
use hm_messages_changes::SourceRange;
use hm_messages_edits::span_of;
use hm_messages_json::{Change, Span};
use std::alloc::{AllocError, Global};

/// A part of a definition that a note is about, the other part if there are two, and the changes that the note speaks of.
#[derive(Clone, Copy)]
pub(crate) struct NotedPart<'a> {
    pub part: SourceRange,
    pub second: Option<SourceRange>,
    pub topic: Topic<'a>,
    pub changes: &'a [Change],
}

/// Returns the places of a part, if there is one.
fn span_of_any(part: Option<SourceRange>) -> Option<Span>
    ensures { IsSpanOfAny part result }
{
    match part {
        Some(part) => span_of(part),
        None => None,
    }
}

/// Returns the note about a part, at its first byte.
pub(crate) fn part_message(
    alloc: Global,
    module: &FaultyModule<'_, '_>,
    noted: &NotedPart<'_>,
) -> Result<Vec<u8>, AllocError>
    ensures { IfOk result (λ text. IsPartMessage «module».now.format «module».now.page.now.file.now «module».now.page.now.lines noted.now.part noted.now.second
        (subject_of noted.now.topic) (map changed_of noted.now.changes.now) text.items) }
{
    let NotedPart {
        part,
        second,
        topic,
        changes,
    } = *noted;
    let suggestion = Suggestion {
        place: part.start,
        topic,
        changes,
        part: span_of(part),
        second: span_of_any(second),
    };
    Ok(message_with(alloc, module.format, module.page, &suggestion)?)
}
