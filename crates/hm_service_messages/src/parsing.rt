//! Parses lines as diagnostics. Nothing is promised of the result: it is written again and compared.
use crate::diagnostic::{Diagnostic, Edit, Told};
use crate::members::{count_of, level_of, position_of, range_of, source_of, text_of};
use hm_messages_json::{Level, Position};
use serde_json::Value;
use std::alloc::{AllocError, Global};

/// The members of a message that aren't texts of its own or edits.
#[derive(Clone, Copy)]
struct Place {
    source: usize,
    start: Position,
    end: Position,
    level: Level,
}

/// Returns the place of an object.
fn place_of(object: &Value) -> Option<Place> {
    Some(Place {
        source: source_of(object)?,
        start: position_of(object, "start")?,
        end: position_of(object, "end")?,
        level: level_of(object)?,
    })
}

/// Returns the edit of an object.
fn edit_of(alloc: Global, object: &Value) -> Result<Option<Edit>, AllocError> {
    let Some(start) = position_of(object, "start") else {
        return Ok(None);
    };
    let Some(end) = position_of(object, "end") else {
        return Ok(None);
    };
    let Some(is_checked) = object.get("checked").and_then(Value::as_bool) else {
        return Ok(None);
    };
    let Some(text) = text_of(alloc, object, "text")? else {
        return Ok(None);
    };
    Ok(Some(Edit {
        start,
        end,
        text,
        is_checked,
    }))
}

/// Returns the edits of an object, without those that can't be read.
fn edits_of(alloc: Global, object: &Value) -> Result<Vec<Edit>, AllocError> {
    let mut edits = Vec::new(alloc);
    if let Some(items) = object.get("edits").and_then(Value::as_array) {
        for item in items {
            if let Some(edit) = edit_of(alloc, item)? {
                edits.push(edit)?;
            }
        }
    }
    Ok(edits)
}

/// Returns a member that each object has, or an empty text.
fn needed_of(alloc: Global, object: &Value, member: &str) -> Result<String, AllocError> {
    match text_of(alloc, object, member)? {
        Some(text) => Ok(text),
        None => Ok(String::new(alloc)),
    }
}

/// Returns the diagnostic of an object at a place.
fn diagnostic_at(alloc: Global, object: &Value, place: Place) -> Result<Diagnostic, AllocError> {
    let Place {
        source,
        start,
        end,
        level,
    } = place;
    Ok(Diagnostic {
        source,
        start,
        end,
        level,
        kind: needed_of(alloc, object, "kind")?,
        text: needed_of(alloc, object, "text")?,
        hint: text_of(alloc, object, "hint")?,
        module: text_of(alloc, object, "module")?,
        name: text_of(alloc, object, "name")?,
        other: position_of(object, "other"),
        expected: text_of(alloc, object, "expected")?,
        actual: text_of(alloc, object, "type")?,
        part: range_of(object, "part"),
        second: range_of(object, "second"),
        edits: edits_of(alloc, object)?,
    })
}

/// Adds an object to what was read: a diagnostic, or the counts.
fn add(alloc: Global, told: &mut Told, object: &Value) -> Result<(), AllocError> {
    if let Some(place) = place_of(object) {
        let diagnostic = diagnostic_at(alloc, object, place)?;
        told.diagnostics.push(diagnostic)?;
        return Ok(());
    }
    if let Some(errors) = count_of(object, "errors") {
        told.errors = errors;
    }
    if let Some(skipped) = count_of(object, "skipped") {
        told.skipped = skipped;
    }
    Ok(())
}

/// Adds the object of a line. A line that is none is passed over.
fn add_line(alloc: Global, told: &mut Told, line: &[u8]) -> Result<(), AllocError> {
    match Value::from_slice(alloc, line) {
        Ok(object) => Ok(add(alloc, told, &object)?),
        Err(error) if error.is_memory() => Err(AllocError),
        Err(_) => Ok(()),
    }
}

/// Returns what the lines of a text tell, as far as they can be read.
pub(crate) fn parsed(alloc: Global, messages: &[u8]) -> Result<Told, AllocError> {
    let mut told = Told {
        diagnostics: Vec::new(alloc),
        errors: 0,
        skipped: 0,
    };
    'lines: for line in messages.split(|byte| *byte == b'\n') {
        if !line.is_empty() {
            add_line(alloc, &mut told, line)?;
        }
    }
    Ok(told)
}
