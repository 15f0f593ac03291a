//! Results of requests about the texts.
ghost use Rattle.std.specs.Prelude.{IfNone, IfOk, IfSome, List, ℕ};
ghost use Rattle.serde_json.specs.View.{view};
ghost use Rattle.hm_lsp_results.specs.Asked.{IsFoundAt, IsReadText, IsSourceIn, IsSpotOf};
ghost use Rattle.hm_lsp_results.specs.Results.{IsBoundResult, IsDefinitionResult, IsHoverResult};

use crate::faults::ServerFault;
use hm_lsp_positions::{Encoding, Position, offset_of, position_of};
use hm_lsp_session::text_at;
use hm_lsp_sources::{Source, name_of, number_of};
use hm_lsp_values::{hover_value, location_value};
use hm_service::{AtPlace, Bound, Checked, HeldSource, place_of};
use serde_json::Value;
use std::alloc::{AllocError, Global};
use std::sync::Wait;
use std::thread::Threads;

/// What requests are about: the sources of a client with the texts that are held for them, a check of these, and what columns count.
#[derive(Clone, Copy)]
pub struct Asked<'a> {
    pub alloc: Global,
    pub encoding: Encoding,
    pub sources: &'a [Source],
    pub held: &'a [HeldSource],
    pub checked: &'a Checked,
}

/// Returns the number of the source that a request names.
pub(crate) fn source_in(asked: &Asked<'_>, request: &Value) -> Result<Option<usize>, AllocError>
    ensures { IfOk result (IsSourceIn asked.now.sources.now (view request.now)) }
{
    match text_at(request, "/params/textDocument/uri") {
        None => Ok(None),
        Some(uri) => {
            let name = name_of(asked.alloc, uri)?;
            Ok(number_of(asked.sources, name.as_slice()))
        }
    }
}

/// Returns the text of a source, if it can be read.
pub(crate) fn read_text<'a>(held: &'a [HeldSource], number: usize) -> Option<&'a [u8]>
    ensures some { IfSome result (λ text. IsReadText held.now number text.now) }
    ensures none { IfNone result ((text : List ℕ) → ¬ (IsReadText held.now number text)) }
{
    match held.get(number) {
        None => None,
        Some(source) => {
            if source.is_read {
                return Some(source.text.as_slice());
            }
            None
        }
    }
}

/// A place of a text, as the checker counts it: from 1, and in characters.
#[derive(Clone, Copy)]
struct Spot {
    line: usize,
    column: usize,
}

/// Returns the place of a position.
fn spot_of(encoding: Encoding, text: &[u8], position: Position) -> Spot
    ensures { IsSpotOf encoding text.now position result.line result.column }
{
    let offset = offset_of(encoding, text, position);
    let place = position_of(Encoding::Utf32, text, offset);
    Spot {
        line: place.line + 1,
        column: place.column + 1,
    }
}

/// Returns what the name at a position means.
fn name_at<T: Threads + Wait + Sync>(
    rt: &T,
    asked: &Asked<'_>,
    source: usize,
    position: Position,
) -> Result<Option<AtPlace>, ServerFault>
    ensures { IfOk result (IsFoundAt asked.now.encoding asked.now.held.now asked.now.checked.now source position) }
{
    let Some(text) = read_text(asked.held, source) else {
        return Ok(None);
    };
    let spot = spot_of(asked.encoding, text, position);
    if spot.line > 4_294_967_295 {
        return Ok(None);
    }
    let line = spot.line as u32;
    match place_of(rt, asked.alloc, asked.checked, source, line, spot.column) {
        Ok(found) => Ok(found),
        Err(_) => Err(ServerFault),
    }
}

/// Returns what is shown of the name at a position, or null.
pub(crate) fn hover<T: Threads + Wait + Sync>(
    rt: &T,
    asked: &Asked<'_>,
    source: usize,
    position: Position,
) -> Result<Value, ServerFault>
    ensures { IfOk result (λ value. IsHoverResult asked.now.encoding asked.now.held.now asked.now.checked.now source position (view value)) }
{
    match name_at(rt, asked, source, position)? {
        Some(found) => Ok(hover_value(asked.alloc, found.text.as_str())?),
        None => Ok(Value::Null),
    }
}

/// Returns the place where a name is bound, or null if its source isn't there.
fn bound_value(asked: &Asked<'_>, bound: &Bound) -> Result<Value, AllocError>
    ensures { IfOk result (λ value. IsBoundResult asked.now.encoding asked.now.sources.now asked.now.held.now bound.now (view value)) }
{
    let Some(held) = asked.held.get(bound.source) else {
        return Ok(Value::Null);
    };
    let Some(named) = asked.sources.get(bound.source) else {
        return Ok(Value::Null);
    };
    let (uri, text) = (named.uri.as_str(), held.standing.as_slice());
    location_value(asked.alloc, asked.encoding, uri, text, bound)
}

/// Returns the place where the name at a position is bound, or null.
pub(crate) fn definition<T: Threads + Wait + Sync>(
    rt: &T,
    asked: &Asked<'_>,
    source: usize,
    position: Position,
) -> Result<Value, ServerFault>
    ensures { IfOk result (λ value. IsDefinitionResult asked.now.encoding asked.now.sources.now asked.now.held.now asked.now.checked.now source position (view value)) }
{
    match name_at(rt, asked, source, position)? {
        None => Ok(Value::Null),
        Some(found) => match &found.bound {
            None => Ok(Value::Null),
            Some(bound) => Ok(bound_value(asked, bound)?),
        },
    }
}
