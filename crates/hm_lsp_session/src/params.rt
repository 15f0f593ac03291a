//! Parameters of messages.
ghost use Rattle.std.specs.Prelude.{◌≡◌, ◌↔◌, ◌++◌, IfNone, IfOk, IfSome, IsTrue, List, OnOk, Some, codes, map, string_bytes, ℕ, option_map, option_to_list};
ghost use Rattle.serde_json.specs.Data.{Items};
ghost use Rattle.serde_json.specs.Find.{as_array, as_str};
ghost use Rattle.serde_json.specs.View.{items_view, view};
ghost use Rattle.hm_lsp_positions.specs.declared.changes.Change.{Change};
ghost use Rattle.hm_lsp_positions.specs.declared.changes.Range.{Range};
ghost use Rattle.hm_lsp_positions.specs.declared.positions.Position.{Position};
ghost use Rattle.hm_lsp_session.specs.Params.{AreChangesIn, changed_files, IsChangeIn, IsNumberUnder, IsPositionIn, IsRangeIn, string_at, uris_in};

use hm_lsp_positions::{Change, Position, Range};
use serde_json::Value;
use std::alloc::{AllocError, Global};

/// The largest line or column of a position (`uinteger`).
const MOST: u64 = 2_147_483_647;

/// Returns the text at a path of a value.
pub fn text_at<'v>(value: &'v Value, path: &str) -> Option<&'v str>
    ensures { option_map (λ text. text.now) result ≡ string_at path.now (view value.now) }
{
    match value.pointer(path) {
        Some(found) => found.as_str(),
        None => None,
    }
}

/// Returns whether a value is this text.
pub(crate) fn is_text(value: &Value, text: &str) -> bool
    ensures { IsTrue result ↔ (as_str (view value.now) ≡ Some text.now) }
{
    match value.as_str() {
        Some(own) => own == text,
        None => false,
    }
}

/// Returns the line or column under a key.
fn number_in(value: &Value, key: &str) -> Option<usize>
    ensures some { IfSome result (λ n. IsNumberUnder key.now (view value.now) n) }
    ensures none { IfNone result ((n : ℕ) → ¬ (IsNumberUnder key.now (view value.now) n)) }
{
    let number = value.get(key)?.as_u64()?;
    Some(number.min(MOST) as usize)
}

/// Returns a position (`Position`).
pub fn position_in(value: &Value) -> Option<Position>
    ensures some { IfSome result (λ p. IsPositionIn (view value.now) p) }
    ensures none { IfNone result ((p : Position) → ¬ (IsPositionIn (view value.now) p)) }
{
    let Some(line) = number_in(value, "line") else {
        return None;
    };
    let Some(column) = number_in(value, "character") else {
        return None;
    };
    Some(Position { line, column })
}

/// Returns a range (`Range`).
pub fn range_in(value: &Value) -> Option<Range>
    ensures some { IfSome result (λ r. IsRangeIn (view value.now) r) }
    ensures none { IfNone result ((r : Range) → ¬ (IsRangeIn (view value.now) r)) }
{
    let Some(start) = position_in(value.get("start")?) else {
        return None;
    };
    let Some(end) = position_in(value.get("end")?) else {
        return None;
    };
    Some(Range { start, end })
}

/// Returns a change (`TextDocumentContentChangeEvent`), or `None` if the value isn't one.
fn change_in(alloc: Global, value: &Value) -> Result<Option<Change>, AllocError>
    ensures some { IfOk result (λ found. IfSome found (λ change. IsChangeIn (view value.now) change)) }
    ensures none { IfOk result (λ found. IfNone found ((change : Change) → ¬ (IsChangeIn (view value.now) change))) }
{
    let Some(text) = text_at(value, "/text") else {
        return Ok(None);
    };
    let range = match value.get("range") {
        None => None,
        Some(range) => match range_in(range) {
            None => return Ok(None),
            Some(range) => Some(range),
        },
    };
    Ok(Some(Change {
        range,
        text: Vec::from_slice(alloc, text.as_bytes())?,
    }))
}

/// Returns changes, or `None` if the value isn't a list of changes.
pub fn changes_in(alloc: Global, value: &Value) -> Result<Option<Vec<Change>>, AllocError>
    ensures none { IfOk result (λ found. IfNone found ((items : Items) (changes : List Change) → as_array (view value.now) ≡ Some items → ¬ (AreChangesIn items changes))) }
    ensures some { IfOk result (λ found. IfSome found (λ changes. (items : Items) × (as_array (view value.now) ≡ Some items) × AreChangesIn items changes.items)) }
{
    let Some(values) = value.as_array() else {
        return Ok(None);
    };
    let mut changes = Vec::new(alloc);
    'changes: for value in values {
        match change_in(alloc, value)? {
            None => return Ok(None),
            Some(change) => changes.push(change)?,
        }
    }
    Ok(Some(changes))
}

/// Returns the URI of a file that is named (`FileEvent`).
fn uri_in(alloc: Global, value: &Value) -> Result<Option<String>, AllocError>
    ensures { IfOk result (λ found. option_map string_bytes found ≡ string_at (codes "/uri") (view value.now)) }
{
    match text_at(value, "/uri") {
        None => Ok(None),
        Some(uri) => Ok(Some(String::from_str(alloc, uri)?)),
    }
}

/// Appends a text, if there is one.
pub(crate) fn add(texts: &mut Vec<String>, text: Option<String>) -> Result<(), AllocError>
    ensures { OnOk result (map string_bytes texts.new.items ≡ map string_bytes texts.old.items ++ option_to_list (option_map string_bytes text)) }
{
    match text {
        None => Ok(()),
        Some(text) => {
            texts.push(text)?;
            Ok(())
        }
    }
}

/// Returns the URIs of these, in order. One without a URI is left out.
pub(crate) fn uris_of(alloc: Global, values: &[Value]) -> Result<Vec<String>, AllocError>
    ensures { IfOk result (λ uris. map string_bytes uris.items ≡ uris_in (items_view values.now)) }
{
    let mut uris = Vec::new(alloc);
    'listed: for value in values {
        let uri = uri_in(alloc, value)?;
        add(&mut uris, uri)?;
    }
    Ok(uris)
}

/// Returns the URIs of the files that a `didChangeWatchedFiles` names, or `None` if its parameters have no list of them.
pub fn files_in(alloc: Global, params: &Value) -> Result<Option<Vec<String>>, AllocError>
    ensures { IfOk result (λ found. option_map (λ uris. map string_bytes uris.items) found ≡ changed_files (view params.now)) }
{
    let Some(changes) = params.get("changes") else {
        return Ok(None);
    };
    let Some(changes) = changes.as_array() else {
        return Ok(None);
    };
    Ok(Some(uris_of(alloc, changes.as_slice())?))
}

/// Returns the URI of the root that the parameters of `initialize` name, if they name one.
pub(crate) fn root_in(alloc: Global, params: &Value) -> Result<Vec<String>, AllocError>
    ensures { IfOk result (λ uris. map string_bytes uris.items ≡ option_to_list (string_at (codes "/rootUri") (view params.now))) }
{
    let mut uris = Vec::new(alloc);
    if let Some(uri) = text_at(params, "/rootUri") {
        uris.push(String::from_str(alloc, uri)?)?;
    }
    Ok(uris)
}
