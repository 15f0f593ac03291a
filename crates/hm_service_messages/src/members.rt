//! Members of JSON objects.
use hm_messages_excerpts::Columns;
use hm_messages_json::{Level, Position, Range};
use serde_json::Value;
use std::alloc::{AllocError, Global};

/// Returns a copy of the text of a member. There is none if the member is missing, or isn't a text.
pub(crate) fn text_of(
    alloc: Global,
    object: &Value,
    member: &str,
) -> Result<Option<String>, AllocError> {
    match object.get(member).and_then(Value::as_str) {
        Some(text) => Ok(Some(String::from_str(alloc, text)?)),
        None => Ok(None),
    }
}

/// Returns the number of a member.
pub(crate) fn count_of(object: &Value, member: &str) -> Option<usize> {
    let count = object.get(member).and_then(Value::as_u64)?;
    Some(count as usize)
}

/// Returns the position of a member.
pub(crate) fn position_of(object: &Value, member: &str) -> Option<Position> {
    let position = object.get(member)?;
    let line = count_of(position, "line")?;
    let columns = Columns {
        bytes: count_of(position, "byte")?,
        characters: count_of(position, "character")?,
        utf16: count_of(position, "utf16")?,
    };
    Some(Position { line, columns })
}

/// Returns the level of an object.
pub(crate) fn level_of(object: &Value) -> Option<Level> {
    match object.get("level").and_then(Value::as_str)? {
        "error" => Some(Level::Error),
        "note" => Some(Level::Note),
        _ => None,
    }
}

/// Returns the number in the name of an object's file.
pub(crate) fn source_of(object: &Value) -> Option<usize> {
    let file = object.get("file").and_then(Value::as_str)?;
    file.parse::<usize>().ok()
}

/// Returns the range of a member.
pub(crate) fn range_of(object: &Value, member: &str) -> Option<Range> {
    let range = object.get(member)?;
    Some(Range {
        start: position_of(range, "start")?,
        end: position_of(range, "end")?,
    })
}
