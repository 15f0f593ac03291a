//! Messages as JSON objects.
ghost use Rattle.std.specs.Prelude.{◌≡◌, ◌++◌, IfOk, OnOk, codes, false, map, option_map, string_bytes};
ghost use Rattle.serde_json.specs.Data.{array, put};
ghost use Rattle.serde_json.specs.View.{items_of, members_view, view};
ghost use Rattle.serde_json.specs.Written.{compact_text, has_float};
ghost use Rattle.hm_messages_json.specs.Objects.{counts_data, counts_text, edit_data, edits_data, joined_data, level_word, message_data, message_text, optional_data, optional_range, position_data, range_data, ranged, text_data};

use crate::message::{Edit, Level, Message, Position, Range};
use serde_json::{Map, Value, json, put};
use std::alloc::{AllocError, Global};

/// The number of the format of the objects.
const FORMAT: u64 = 1;

/// Returns the word of a level.
fn level_word(level: Level) -> &'static str
    ensures { result.now ≡ level_word level }
{
    match level {
        Level::Error => "error",
        Level::Note => "note",
    }
}

/// Returns a text as a JSON value, or null if there is none.
fn text_value(alloc: Global, text: Option<&str>) -> Result<Value, AllocError>
    ensures { IfOk result (λ value. view value ≡ text_data (option_map (λ t. t.now) text.entry)) }
{
    match text {
        Some(text) => Ok(Value::String(String::from_str(alloc, text)?)),
        None => Ok(Value::Null),
    }
}

/// Returns a position as an object.
fn position_value(alloc: Global, position: Position) -> Result<Value, AllocError>
    ensures { IfOk result (λ value. view value ≡ position_data position) }
{
    let line = position.line as u64;
    let byte = position.columns.bytes as u64;
    let character = position.columns.characters as u64;
    let utf16 = position.columns.utf16 as u64;
    json!(in alloc; {"byte": byte, "character": character, "line": line, "utf16": utf16})
}

/// Returns a position as an object, or null if there is none.
fn optional_value(alloc: Global, position: Option<Position>) -> Result<Value, AllocError>
    ensures { IfOk result (λ value. view value ≡ optional_data position) }
{
    match position {
        Some(position) => Ok(position_value(alloc, position)?),
        None => Ok(Value::Null),
    }
}

/// Returns a range as an object.
fn range_value(alloc: Global, range: &Range) -> Result<Value, AllocError>
    ensures { IfOk result (λ value. view value ≡ range_data range.now) }
{
    let start = position_value(alloc, range.start)?;
    let end = position_value(alloc, range.end)?;
    let (start, end) = (&start, &end);
    json!(in alloc; {"end": end, "start": start})
}

/// Returns a range as an object, or null if there is none.
fn optional_range(alloc: Global, range: &Option<Range>) -> Result<Value, AllocError>
    ensures { IfOk result (λ value. view value ≡ optional_range range.now) }
{
    match range {
        Some(range) => Ok(range_value(alloc, range)?),
        None => Ok(Value::Null),
    }
}

/// Returns an edit as an object.
fn edit_value(alloc: Global, edit: &Edit<'_>) -> Result<Value, AllocError>
    ensures { IfOk result (λ value. view value ≡ edit_data edit.now) }
{
    let start = position_value(alloc, edit.start)?;
    let end = position_value(alloc, edit.end)?;
    let (start, end) = (&start, &end);
    let checked = edit.is_checked;
    let text = edit.text;
    json!(in alloc; {"checked": checked, "end": end, "start": start, "text": text})
}

/// Returns edits as an array, in order.
fn edits_value(alloc: Global, edits: &[Edit<'_>]) -> Result<Value, AllocError>
    ensures { IfOk result (λ value. view value ≡ edits_data edits.now) }
{
    let mut items = Vec::new(alloc);
    for edit in edits {
        items.push(edit_value(alloc, edit)?)?;
    }
    Ok(Value::Array(items))
}

/// The members of a message that aren't texts, or may be missing.
#[derive(Clone, Copy)]
struct Parts<'a> {
    edits: &'a Value,
    end: &'a Value,
    expected: &'a Value,
    hint: &'a Value,
    owner: &'a Value,
    name: &'a Value,
    other: &'a Value,
    start: &'a Value,
    actual: &'a Value,
}

/// Returns the object of a message with these members.
fn joined(alloc: Global, message: &Message<'_>, parts: Parts<'_>) -> Result<Value, AllocError>
    ensures { IfOk result (λ value. view value ≡ joined_data message.now (view parts.entry.edits.now) (view parts.entry.end.now) (view parts.entry.expected.now) (view parts.entry.hint.now)
        (view parts.entry.owner.now) (view parts.entry.name.now) (view parts.entry.other.now) (view parts.entry.start.now) (view parts.entry.actual.now)) }
{
    let level = level_word(message.level);
    let Message {
        file,
        kind,
        text,
        ..
    } = *message;
    let Parts {
        edits,
        end,
        expected,
        hint,
        owner,
        name,
        other,
        start,
        actual,
    } = parts;
    json!(in alloc; {
        "edits": edits,
        "end": end,
        "expected": expected,
        "file": file,
        "hint": hint,
        "kind": kind,
        "level": level,
        "module": owner,
        "name": name,
        "other": other,
        "start": start,
        "text": text,
        "type": actual,
    })
}

/// Adds two ranges to members.
fn add_ranges(
    alloc: Global,
    members: &mut Map<String, Value>,
    part: Value,
    second: Value,
) -> Result<(), AllocError>
    ensures { OnOk result (members_view members.new.entries ≡ put (codes "second") (view second) (put (codes "part") (view part) (members_view members.old.entries))) }
{
    put(members, alloc, "part", part)?;
    Ok(put(members, alloc, "second", second)?)
}

/// Returns an object with two ranges.
fn with_ranges(
    alloc: Global,
    object: Value,
    part: Value,
    second: Value,
) -> Result<Value, AllocError>
    ensures { IfOk result (λ value. view value ≡ ranged (view object) (view part) (view second)) }
{
    match object {
        Value::Object(mut members) => {
            add_ranges(alloc, &mut members, part, second)?;
            Ok(Value::Object(members))
        }
        Value::Null => Ok(Value::Null),
        Value::Bool(boolean) => Ok(Value::Bool(boolean)),
        Value::Number(number) => Ok(Value::Number(number)),
        Value::String(text) => Ok(Value::String(text)),
        Value::Array(items) => Ok(Value::Array(items)),
    }
}

/// Returns a message as an object.
fn message_value(alloc: Global, message: &Message<'_>) -> Result<Value, AllocError>
    ensures { IfOk result (λ value. view value ≡ message_data message.now) }
{
    let edits = edits_value(alloc, message.edits)?;
    let start = position_value(alloc, message.start)?;
    let end = position_value(alloc, message.end)?;
    let expected = text_value(alloc, message.expected)?;
    let actual = text_value(alloc, message.actual)?;
    let hint = text_value(alloc, message.hint)?;
    let owner = text_value(alloc, message.module)?;
    let name = text_value(alloc, message.name)?;
    let other = optional_value(alloc, message.other)?;
    let parts = Parts {
        edits: &edits,
        end: &end,
        expected: &expected,
        hint: &hint,
        owner: &owner,
        name: &name,
        other: &other,
        start: &start,
        actual: &actual,
    };
    let object = joined(alloc, message, parts)?;
    let part = optional_range(alloc, &message.part)?;
    let second = optional_range(alloc, &message.second)?;
    with_ranges(alloc, object, part, second)
}

/// Returns the counts as an object.
fn counts_value(alloc: Global, errors: usize, skipped: usize) -> Result<Value, AllocError>
    ensures { IfOk result (λ value. view value ≡ counts_data errors skipped) }
{
    let errors = errors as u64;
    let skipped = skipped as u64;
    json!(in alloc; {"errors": errors, "format": FORMAT, "level": "end", "skipped": skipped})
}

// Why: docs/DECISIONS.md, "Objects by serde_json".
/// Returns a value as a line.
fn line_of(alloc: Global, value: &Value) -> Result<String, AllocError>
    requires { has_float (view value.now) ≡ false }
    ensures { IfOk result (λ text. string_bytes text ≡ compact_text (view value.now) ++ codes "\n") }
{
    let mut line = value.to_string(alloc)?;
    line.push_str("\n")?;
    Ok(line)
}

/// Returns a message as a JSON object and a line end.
pub fn message_line(alloc: Global, message: &Message<'_>) -> Result<String, AllocError>
    ensures { IfOk result (λ text. string_bytes text ≡ message_text message.now) }
{
    let value = message_value(alloc, message)?;
    line_of(alloc, &value)
}

/// Returns the numbers of reported errors and of skipped modules as a JSON object and a line end.
pub fn counts_line(alloc: Global, errors: usize, skipped: usize) -> Result<String, AllocError>
    ensures { IfOk result (λ text. string_bytes text ≡ counts_text errors skipped) }
{
    let value = counts_value(alloc, errors, skipped)?;
    line_of(alloc, &value)
}
