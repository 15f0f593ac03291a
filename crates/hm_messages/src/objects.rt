//! Messages for programs, as JSON.
ghost use Rattle.std.specs.Prelude.{◌≡◌, ◌⊎◌, [], IfOk, map, option_map, string_bytes};
ghost use Rattle.hm_messages_excerpts.specs.Excerpts.{IsPlaceIn};
ghost use Rattle.hm_messages_json.specs.Edits.{changed_of};
ghost use Rattle.hm_messages.specs.Extras.{extras_of};
ghost use Rattle.hm_messages.specs.Messages.{IsHint, IsObject, IsObjectWith, NamesModule};
ghost use Rattle.hm_messages.specs.Subjects.{subject_of};

use crate::changes::said_changes;
use crate::heading::title;
use crate::notices::notice_of;
use crate::pages::Page;
use crate::topic::Topic;
use hm_lex::Place;
use hm_messages_json::{Change, Message, Range, Span, edits_of, message_line, range_at, range_of};
use std::alloc::{AllocError, Global};

/// Returns a sentence without its line end, or `None` if it is empty.
fn hint_in(alloc: Global, sentence: &str) -> Result<Option<String>, AllocError>
    ensures { IfOk result (λ hint. IsHint sentence.now (option_map string_bytes hint)) }
{
    let mut hint = String::from_str(alloc, sentence)?;
    match hint.pop() {
        Some(_) => Ok(Some(hint)),
        None => Ok(None),
    }
}

/// What a message is about, and what only programs get: the changes of the source that it speaks of, and parts of the source.
#[derive(Clone, Copy)]
pub struct Suggestion<'a> {
    pub place: Place,
    pub topic: Topic<'a>,
    pub changes: &'a [Change],
    /// The part that it is about, if it is about one.
    pub part: Option<Span>,
    /// The other part that it is about, if there are two.
    pub second: Option<Span>,
}

/// Returns a message with changes, as an object, or no text if its place isn't in the source.
pub(crate) fn object_with(
    alloc: Global,
    page: &Page<'_>,
    suggestion: &Suggestion<'_>,
) -> Result<Vec<u8>, AllocError>
    ensures stated { IfOk result (λ text. IsObjectWith page.now.file.now page.now.lines suggestion.now.place (subject_of suggestion.now.topic)
        (extras_of suggestion.now) text.items
        ⊎ ((text.items ≡ []) × (¬ IsPlaceIn page.now.lines suggestion.now.place))) }
    ensures among { IfOk result (λ text. NamesModule page.now.modules.starts suggestion.now.place text.items ⊎ (text.items ≡ [])) }
{
    let Suggestion {
        place,
        topic,
        changes,
        part,
        second,
    } = *suggestion;
    let Some(Range { start, end }) = range_at(&page.lines, place) else {
        return Ok(Vec::new(alloc));
    };
    let file = String::from_utf8_lossy(alloc, page.file)?;
    let text = title(alloc, &topic)?;
    let notice = notice_of(&topic);
    let hint = hint_in(alloc, notice.sentence)?;
    let hint = match &hint {
        Some(hint) => Some(hint.as_str()),
        None => None,
    };
    let edits = edits_of(alloc, &page.lines, changes)?;
    let message = Message {
        file: file.as_str(),
        start,
        end,
        level: notice.level,
        kind: notice.kind,
        module: page.modules.module_at(place),
        name: notice.name,
        other: notice.other,
        part: range_of(&page.lines, part),
        second: range_of(&page.lines, second),
        text: text.as_str(),
        hint,
        expected: notice.expected,
        actual: notice.actual,
        edits: edits.as_slice(),
    };
    let line = message_line(alloc, &message)?;
    Ok(Vec::from_slice(alloc, line.as_bytes())?)
}

/// Returns the message of a topic at a place of a source, as an object, or no text if the place isn't in the source.
pub(crate) fn object(
    alloc: Global,
    page: &Page<'_>,
    place: Place,
    topic: &Topic<'_>,
) -> Result<Vec<u8>, AllocError>
    ensures stated { IfOk result (λ text. IsObject page.now.file.now page.now.lines place (subject_of topic.now) text.items
        ⊎ ((text.items ≡ []) × (¬ IsPlaceIn page.now.lines place))) }
    ensures among { IfOk result (λ text. NamesModule page.now.modules.starts place text.items ⊎ (text.items ≡ [])) }
{
    let changes = said_changes(alloc, &page.lines, place, topic)?;
    let topic = *topic;
    let suggestion = Suggestion {
        place,
        topic,
        changes: changes.as_slice(),
        part: None,
        second: None,
    };
    Ok(object_with(alloc, page, &suggestion)?)
}
