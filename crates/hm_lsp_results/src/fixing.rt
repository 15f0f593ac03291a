//! Results of requests for fixes.
ghost use Rattle.std.specs.Prelude.{◌≡◌, IfOk, map};
ghost use Rattle.serde_json.specs.View.{view};
ghost use Rattle.hm_lsp_results.specs.Actions.{AreOffered, IsActionsResult, actions_data};
ghost use Rattle.hm_lsp_results.specs.Asked.{subject_of};
ghost use Rattle.hm_service_candidates.specs.Ranges.{tried_of};

use crate::asking::Asked;
use crate::faults::ServerFault;
use crate::renames::WORKERS;
use hm_lsp_positions::Range;
use hm_lsp_values::{action_value, place_at};
use hm_service_offers::{Candidate, SourceRange, fixes_of};
use hm_service_rename::CheckedSet;
use serde_json::Value;
use std::alloc::AllocError;
use std::sync::Wait;
use std::thread::Threads;

/// Returns the actions that make changes in the document with this URI, in order.
fn action_values(asked: &Asked<'_>, uri: &str, fixes: &[Candidate<'_>]) -> Result<Value, AllocError>
    ensures { IfOk result (λ value. view value ≡ actions_data asked.now.encoding uri.now (map tried_of fixes.now)) }
{
    let (alloc, encoding) = (asked.alloc, asked.encoding);
    let mut values = Vec::new(alloc);
    'actions: for fix in fixes {
        values.push(action_value(alloc, encoding, uri, fix.fault, fix.change)?)?;
    }
    Ok(Value::Array(values))
}

/// Returns the fixes for a range of a source whose text is this one.
fn fixes_in<'a, T: Threads + Wait + Sync>(
    rt: &T,
    asked: &Asked<'a>,
    source: usize,
    text: &[u8],
    range: Range,
) -> Result<Vec<Candidate<'a>>, ServerFault>
    ensures { IfOk result (λ found. AreOffered (subject_of asked.now) source text.now range (map tried_of found.items)) }
{
    let set = CheckedSet {
        held: asked.held,
        checked: asked.checked,
        workers: WORKERS,
    };
    let range = SourceRange {
        source,
        start: place_at(asked.encoding, text, range.start),
        end: place_at(asked.encoding, text, range.end),
    };
    match fixes_of(rt, asked.alloc, &set, &range) {
        Ok(found) => Ok(found),
        Err(_) => Err(ServerFault),
    }
}

/// Returns the actions for a range of a source.
pub(crate) fn actions<T: Threads + Wait + Sync>(
    rt: &T,
    asked: &Asked<'_>,
    source: usize,
    range: Range,
) -> Result<Value, ServerFault>
    ensures { IfOk result (λ value. IsActionsResult (subject_of asked.now) source range (view value)) }
{
    let Some(held) = asked.held.get(source) else {
        return Ok(Value::Array(Vec::new(asked.alloc)));
    };
    let Some(named) = asked.sources.get(source) else {
        return Ok(Value::Array(Vec::new(asked.alloc)));
    };
    let fixes = fixes_in(rt, asked, source, held.text.as_slice(), range)?;
    Ok(action_values(asked, named.uri.as_str(), fixes.as_slice())?)
}
