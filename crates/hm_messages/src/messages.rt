//! One message: a file, a place, what is wrong there, a sentence, and the line with a mark.
ghost use Rattle.std.specs.Prelude.{◌≡◌, ◌⊎◌, ◌++◌, [], IfNone, IfOk, IfSome, map};
ghost use Rattle.hm_messages_excerpts.specs.Columns.{AreColumnsAt};
ghost use Rattle.hm_messages_excerpts.specs.declared.columns.Columns.{Columns};
ghost use Rattle.hm_messages_excerpts.specs.Escapes.{shown as shown_bytes};
ghost use Rattle.hm_messages.specs.Headings.{heading as heading_bytes};
ghost use Rattle.hm_messages.specs.Messages.{HasNoReaderPlace, IsHeadingAt, IsMessage, IsMessageWith, IsProse, IsProseHeading, reader_place};
ghost use Rattle.hm_messages.specs.Extras.{extras_of};
ghost use Rattle.hm_messages.specs.Subjects.{subject_of};

use crate::heading::{MessageFormat, heading};
use crate::notices::notice_of;
use crate::objects::{Suggestion, object, object_with};
use crate::pages::Page;
use crate::topic::Topic;
use hm_lex::Place;
use hm_messages_excerpts::{add_excerpt, shown};
use std::alloc::{AllocError, Global};

// Why: docs/DECISIONS.md, "Foreign faults".
/// Why there are no messages of a refused set.
#[derive(Clone, Copy, Debug, PartialEq, Eq, Drop)]
pub enum MessageFault {
    Memory,
    /// The fault isn't one of these sources.
    Foreign,
}

impl From<AllocError> for MessageFault {
    ghost use Rattle.std.specs.Prelude.{◌≡◌};
    ghost use Rattle.hm_messages.specs.declared.messages.MessageFault.TheVariants.{Memory};

    ghost from_gives = { λ _ fault. fault ≡ Memory };

    fn from(_error: AllocError) -> MessageFault {
        MessageFault::Memory
    }
}

/// Returns the place as readers count it: its column in characters. Returns `None` if the place isn't in the source, or if its column is 2^32 or more.
pub fn reader_place(page: &Page<'_>, place: Place) -> Option<Place>
    ensures some { IfSome result (λ p. (columns : Columns) × AreColumnsAt page.now.lines place columns × (p ≡ reader_place place columns)) }
    ensures none { IfNone result (HasNoReaderPlace page.now.lines place) }
{
    let columns = page.lines.columns(place)?;
    let column = u32::try_from(columns.characters).ok()?;
    Some(Place {
        line: place.line,
        column,
    })
}

/// Returns the first line of a message at a place as readers count it.
fn first_line(
    alloc: Global,
    format: MessageFormat,
    page: &Page<'_>,
    place: Place,
    topic: &Topic<'_>,
) -> Result<Vec<u8>, AllocError>
    ensures { IfOk result (λ text. text.items ≡ shown_bytes page.now.file.now ++ heading_bytes format place (subject_of topic.now)) }
{
    let heading = heading(alloc, format, place, topic)?;
    let file = shown(alloc, page.file)?;
    let mut text = Vec::from_slice(alloc, file.as_bytes())?;
    text.extend_from_slice(heading.as_bytes())?;
    Ok(text)
}

/// Returns the first line of a message for a reader, or no text if no message for a reader can name the place.
fn prose_heading(
    alloc: Global,
    format: MessageFormat,
    page: &Page<'_>,
    place: Place,
    topic: &Topic<'_>,
) -> Result<Vec<u8>, AllocError>
    ensures { IfOk result (λ text. IsProseHeading format page.now.file.now page.now.lines place (subject_of topic.now) text.items
        ⊎ ((text.items ≡ []) × HasNoReaderPlace page.now.lines place)) }
{
    let Some(at) = reader_place(page, place) else {
        return Ok(Vec::new(alloc));
    };
    Ok(first_line(alloc, format, page, at, topic)?)
}

/// Returns the message of a topic for a reader, or no text if no message for a reader can name the place.
fn prose(
    alloc: Global,
    format: MessageFormat,
    page: &Page<'_>,
    place: Place,
    topic: &Topic<'_>,
) -> Result<Vec<u8>, AllocError>
    ensures { IfOk result (λ text. IsProse format page.now.file.now page.now.lines place (subject_of topic.now) text.items
        ⊎ ((text.items ≡ []) × HasNoReaderPlace page.now.lines place)) }
{
    let Some(at) = reader_place(page, place) else {
        return Ok(Vec::new(alloc));
    };
    let Some(excerpt) = page.lines.excerpt(place) else {
        return Ok(Vec::new(alloc));
    };
    let mut text = first_line(alloc, format, page, at, topic)?;
    text.extend_from_slice(notice_of(topic).sentence.as_bytes())?;
    add_excerpt(alloc, &mut text, &excerpt)?;
    Ok(text)
}

/// Returns the first line of a message at a place of a source, or its object if messages are JSON. The text is empty if no message can name
/// the place.
pub(crate) fn heading_at(
    alloc: Global,
    format: MessageFormat,
    page: &Page<'_>,
    place: Place,
    topic: &Topic<'_>,
) -> Result<Vec<u8>, AllocError>
    ensures { IfOk result (λ text. IsHeadingAt format page.now.file.now page.now.lines place (subject_of topic.now) text.items) }
{
    match format {
        MessageFormat::Plain => Ok(prose_heading(alloc, MessageFormat::Plain, page, place, topic)?),
        MessageFormat::Coloured => Ok(prose_heading(
            alloc,
            MessageFormat::Coloured,
            page,
            place,
            topic,
        )?),
        MessageFormat::Json => Ok(object(alloc, page, place, topic)?),
    }
}

// Why: docs/DECISIONS.md, "Messages without a place".
/// Returns the message of a topic at a place of a source. The text is empty if no message can name the place.
pub fn message(
    alloc: Global,
    format: MessageFormat,
    page: &Page<'_>,
    place: Place,
    topic: &Topic<'_>,
) -> Result<Vec<u8>, AllocError>
    ensures { IfOk result (λ text. IsMessage format page.now.file.now page.now.lines place (subject_of topic.now) text.items) }
{
    match format {
        MessageFormat::Plain => Ok(prose(alloc, MessageFormat::Plain, page, place, topic)?),
        MessageFormat::Coloured => Ok(prose(alloc, MessageFormat::Coloured, page, place, topic)?),
        MessageFormat::Json => Ok(object(alloc, page, place, topic)?),
    }
}

/// Returns a message with the changes and the parts of the source that it speaks of. A reader gets neither. The text is empty if no message can name the
/// place.
pub fn message_with(
    alloc: Global,
    format: MessageFormat,
    page: &Page<'_>,
    suggestion: &Suggestion<'_>,
) -> Result<Vec<u8>, AllocError>
    ensures { IfOk result (λ text. IsMessageWith format page.now.file.now page.now.lines suggestion.now.place (subject_of suggestion.now.topic)
        (extras_of suggestion.now) text.items) }
{
    let Suggestion { place, topic, .. } = *suggestion;
    match format {
        MessageFormat::Plain => Ok(prose(alloc, MessageFormat::Plain, page, place, &topic)?),
        MessageFormat::Coloured => Ok(prose(alloc, MessageFormat::Coloured, page, place, &topic)?),
        MessageFormat::Json => Ok(object_with(alloc, page, suggestion)?),
    }
}
