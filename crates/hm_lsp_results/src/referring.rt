//! Results of requests about where names are written.
ghost use Rattle.std.specs.Prelude.{◌≡◌, ◌<◌, IfNone, IfOk, IfSome, length};
ghost use Rattle.std.specs.List.{filter};
ghost use Rattle.serde_json.specs.View.{view};
ghost use Rattle.hm_lsp_results.specs.Asked.{subject_of};
ghost use Rattle.hm_lsp_results.specs.References.{AreReferencesOf, AreValues, HasNoPlace, HasNoReferences, IsHighlightsResult, IsLocated, IsPlaceIn, IsReferencesResult, is_in, is_located};
ghost use Rattle.hm_lsp_results.specs.Walks.{walks_of};
ghost use Rattle.hm_lsp_values.specs.References.{IsHighlight};

use crate::asking::{Asked, read_text};
use crate::faults::ServerFault;
use crate::walking::cursors_of;
use hm_lsp_positions::{Cursor, Position};
use hm_lsp_values::{highlight_value, place_at, reference_value};
use hm_service::Position as Place;
use hm_service_references::{Reference, references_of};
use serde_json::Value;
use std::alloc::AllocError;
use std::sync::Wait;
use std::thread::Threads;

/// Returns the place of a position in a source that can be read. Its line is a number of 32 bits.
pub(crate) fn place_in(asked: &Asked<'_>, source: usize, position: Position) -> Option<Place>
    ensures some { IfSome result (λ place. IsPlaceIn (subject_of asked.now) source position place) }
    ensures none { IfNone result (HasNoPlace (subject_of asked.now) source position) }
{
    let text = read_text(asked.held, source)?;
    let place = place_at(asked.encoding, text, position);
    if place.line > 4_294_967_295 {
        return None;
    }
    Some(place)
}

/// Returns where the names are written that mean the same as the one at a position, or `None` if no name is there.
pub(crate) fn references_at<T: Threads + Wait + Sync>(
    rt: &T,
    asked: &Asked<'_>,
    source: usize,
    position: Position,
) -> Result<Option<Vec<Reference>>, ServerFault>
    ensures some { IfOk result (λ found. IfSome found (λ references. AreReferencesOf (subject_of asked.now) source position references.items)) }
    ensures none { IfOk result (λ found. IfNone found (HasNoReferences (subject_of asked.now) source position)) }
{
    let Some(place) = place_in(asked, source, position) else {
        return Ok(None);
    };
    let line = place.line as u32;
    let column = place.columns.bytes;
    match references_of(rt, asked.alloc, asked.checked, source, line, column) {
        Ok(found) => Ok(found),
        Err(_) => Err(ServerFault),
    }
}

/// Returns whether a reference is sent: whether its source is there, and it is no declaration if these are left out.
fn is_located(asked: &Asked<'_>, declarations: bool, reference: &Reference) -> bool
    ensures { result ≡ is_located (subject_of asked.now) declarations reference.now }
{
    if reference.binds && !declarations {
        return false;
    }
    reference.source < asked.sources.len() && reference.source < asked.held.len()
}

/// Returns where a name is written, in the text that stands for its source, by the cursors of all sources.
fn located_value(
    asked: &Asked<'_>,
    cursors: &mut Vec<Cursor<'_>>,
    reference: &Reference,
) -> Result<Value, AllocError>
    requires sources { reference.now.source < length asked.now.sources.now }
    requires held { reference.now.source < length asked.now.held.now }
    requires walks { cursors.old.items ≡ walks_of (subject_of asked.now) }
    ensures walks { cursors.new.items ≡ cursors.old.items }
    ensures value { IfOk result (λ value. IsLocated (subject_of asked.now) reference.now (view value)) }
{
    let named = &asked.sources[reference.source];
    let cursor = &mut cursors[reference.source];
    reference_value(asked.alloc, named.uri.as_str(), cursor, reference)
}

/// Returns the references that are sent, in order.
fn located_values(
    asked: &Asked<'_>,
    declarations: bool,
    references: &[Reference],
) -> Result<Value, AllocError>
    ensures { IfOk result (λ value. AreValues (IsLocated (subject_of asked.now)) (filter (is_located (subject_of asked.now) declarations) references.now) (view value)) }
{
    let mut cursors = cursors_of(asked)?;
    let mut values = Vec::new(asked.alloc);
    'references: for reference in references {
        if is_located(asked, declarations, reference) {
            values.push(located_value(asked, &mut cursors, reference)?)?;
        }
    }
    Ok(Value::Array(values))
}

/// Returns where the names are written that mean the same as the one at a position, or null.
pub(crate) fn references<T: Threads + Wait + Sync>(
    rt: &T,
    asked: &Asked<'_>,
    source: usize,
    position: Position,
    declarations: bool,
) -> Result<Value, ServerFault>
    ensures { IfOk result (λ value. IsReferencesResult (subject_of asked.now) declarations source position (view value)) }
{
    match references_at(rt, asked, source, position)? {
        None => Ok(Value::Null),
        Some(found) => Ok(located_values(asked, declarations, found.as_slice())?),
    }
}

/// Returns whether a reference is in a source.
fn is_in(source: usize, reference: &Reference) -> bool
    ensures { result ≡ is_in source reference.now }
{
    reference.source == source
}

/// Returns the highlights of the references in a source, in order.
fn highlight_values(
    asked: &Asked<'_>,
    source: usize,
    text: &[u8],
    references: &[Reference],
) -> Result<Value, AllocError>
    ensures { IfOk result (λ value. AreValues (IsHighlight asked.now.encoding text.now) (filter (is_in source) references.now) (view value)) }
{
    let mut cursor = Cursor::new(asked.encoding, text);
    let mut values = Vec::new(asked.alloc);
    'references: for reference in references {
        if is_in(source, reference) {
            values.push(highlight_value(asked.alloc, &mut cursor, reference)?)?;
        }
    }
    Ok(Value::Array(values))
}

/// Returns where the names of a source are written that mean the same as the one at a position, or null.
pub(crate) fn highlights<T: Threads + Wait + Sync>(
    rt: &T,
    asked: &Asked<'_>,
    source: usize,
    position: Position,
) -> Result<Value, ServerFault>
    ensures { IfOk result (λ value. IsHighlightsResult (subject_of asked.now) source position (view value)) }
{
    let Some(found) = references_at(rt, asked, source, position)? else {
        return Ok(Value::Null);
    };
    match read_text(asked.held, source) {
        None => Ok(Value::Null),
        Some(text) => Ok(highlight_values(asked, source, text, found.as_slice())?),
    }
}
