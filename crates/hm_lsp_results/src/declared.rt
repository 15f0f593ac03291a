//! Results of requests about what sources declare.
ghost use Rattle.std.specs.Prelude.{IfOk};
ghost use Rattle.serde_json.specs.View.{view};
ghost use Rattle.hm_lsp_results.specs.Asked.{subject_of};
ghost use Rattle.hm_lsp_results.specs.References.{AreValues};
ghost use Rattle.hm_lsp_results.specs.Symbols.{IsSymbolsResult};
ghost use Rattle.hm_lsp_values.specs.Symbols.{IsSymbol};

use crate::asking::Asked;
use hm_lsp_positions::Cursor;
use hm_lsp_values::symbol_value;
use hm_service_symbols::{Symbol, symbols_of};
use serde_json::Value;
use std::alloc::AllocError;

/// Returns symbols with their ranges in this text, in order.
fn symbol_values(
    asked: &Asked<'_>,
    text: &[u8],
    symbols: &[Symbol<'_>],
) -> Result<Value, AllocError>
    ensures { IfOk result (λ value. AreValues (IsSymbol asked.now.encoding text.now) symbols.now (view value)) }
{
    let mut values = Vec::new(asked.alloc);
    let mut cursor = Cursor::new(asked.encoding, text);
    'symbols: for symbol in symbols {
        values.push(symbol_value(asked.alloc, &mut cursor, symbol)?)?;
    }
    Ok(Value::Array(values))
}

/// Returns the symbols of a source, with their ranges in the text that stands for it.
pub(crate) fn symbols(asked: &Asked<'_>, source: usize) -> Result<Value, AllocError>
    ensures { IfOk result (λ value. IsSymbolsResult (subject_of asked.now) source (view value)) }
{
    let Some(held) = asked.held.get(source) else {
        return Ok(Value::Array(Vec::new(asked.alloc)));
    };
    let found = symbols_of(asked.alloc, asked.checked, source)?;
    let text = held.standing.as_slice();
    Ok(symbol_values(asked, text, found.as_slice())?)
}
