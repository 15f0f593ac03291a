//! Results of requests about what all sources declare.
ghost use Rattle.std.specs.Prelude.{◌≡◌, ◌<◌, IfOk, length};
ghost use Rattle.std.specs.List.{filter};
ghost use Rattle.serde_json.specs.View.{view};
ghost use Rattle.hm_lsp_results.specs.Asked.{subject_of};
ghost use Rattle.hm_lsp_results.specs.References.{AreValues};
ghost use Rattle.hm_lsp_results.specs.Symbols.{AreFound, IsFound, is_found};
ghost use Rattle.hm_lsp_results.specs.Walks.{walks_of};

use crate::asking::Asked;
use crate::queries::is_match;
use crate::walking::cursors_of;
use hm_lsp_positions::Cursor;
use hm_lsp_values::located_symbol_value;
use hm_service_symbols::{SetSymbol, all_symbols};
use serde_json::Value;
use std::alloc::AllocError;

/// Returns whether a query finds a symbol, whose source is there.
fn is_found(asked: &Asked<'_>, query: &str, one: &SetSymbol<'_>) -> bool
    ensures { result ≡ is_found (subject_of asked.now) query.now one.now }
{
    if !is_match(query, one.symbol().name().as_str()) {
        return false;
    }
    one.source() < asked.sources.len() && one.source() < asked.held.len()
}

/// Returns a symbol with its range in the text that stands for its source, by the cursors of all sources.
fn found_value(
    asked: &Asked<'_>,
    cursors: &mut Vec<Cursor<'_>>,
    one: &SetSymbol<'_>,
) -> Result<Value, AllocError>
    requires sources { one.now.source < length asked.now.sources.now }
    requires held { one.now.source < length asked.now.held.now }
    requires walks { cursors.old.items ≡ walks_of (subject_of asked.now) }
    ensures walks { cursors.new.items ≡ cursors.old.items }
    ensures value { IfOk result (λ value. IsFound (subject_of asked.now) one.now (view value)) }
{
    let number = one.source();
    let named = &asked.sources[number];
    let cursor = &mut cursors[number];
    located_symbol_value(asked.alloc, named.uri.as_str(), cursor, one.symbol())
}

/// Returns those of these symbols that a query finds, in order.
fn found_values(
    asked: &Asked<'_>,
    query: &str,
    symbols: &[SetSymbol<'_>],
) -> Result<Value, AllocError>
    ensures { IfOk result (λ value. AreValues (IsFound (subject_of asked.now)) (filter (is_found (subject_of asked.now) query.now) symbols.now) (view value)) }
{
    let mut cursors = cursors_of(asked)?;
    let mut values = Vec::new(asked.alloc);
    'symbols: for one in symbols {
        if is_found(asked, query, one) {
            values.push(found_value(asked, &mut cursors, one)?)?;
        }
    }
    Ok(Value::Array(values))
}

/// Returns the symbols of all sources that a query finds, in the order of sources and of their texts.
pub(crate) fn found_symbols(asked: &Asked<'_>, query: &str) -> Result<Value, AllocError>
    ensures { IfOk result (λ value. AreFound (subject_of asked.now) query.now (view value)) }
{
    let symbols = all_symbols(asked.alloc, asked.checked)?;
    Ok(found_values(asked, query, symbols.as_slice())?)
}
