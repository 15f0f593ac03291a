//! Symbols of sources.
ghost use Rattle.std.specs.Prelude.{◌≡◌, IfOk, length};
ghost use Rattle.serde_json.specs.View.{view};
ghost use Rattle.hm_lsp_values.specs.Spans.{IsSpan};
ghost use Rattle.hm_lsp_values.specs.Symbols.{IsLocatedSymbol, IsSymbol, symbol_kind};

use crate::spans::{NameSpan, span_of, span_value};
use hm_lsp_positions::Cursor;
use hm_syntax::Name;
use hm_uses_symbols::{Symbol, SymbolKind};
use serde_json::{Value, json};
use std::alloc::{AllocError, Global};

/// Returns the number of a kind of symbols (`SymbolKind`).
fn symbol_kind(kind: SymbolKind) -> u64
    ensures { result ≡ symbol_kind kind }
{
    match kind {
        SymbolKind::Module => 2,
        SymbolKind::DataType => 10,
        SymbolKind::Synonym => 26,
        SymbolKind::Constructor => 22,
        SymbolKind::Variable => 12,
    }
}

/// Returns the positions between which a name without a qualifier is written in the text of its source, which a cursor is in.
fn name_span(cursor: &mut Cursor<'_>, name: &Name) -> NameSpan
    ensures same { cursor.new ≡ cursor.old }
    ensures span { IsSpan cursor.old.encoding cursor.old.text name.now.line name.now.column (length name.now.text) result.start result.end }
{
    let column = name.place.column as usize;
    span_of(cursor, name.place.line, column, name.as_str().len())
}

/// Returns a symbol of a source, which a cursor is in (`DocumentSymbol`). Its range is that of its name.
pub fn symbol_value(
    alloc: Global,
    cursor: &mut Cursor<'_>,
    symbol: &Symbol<'_>,
) -> Result<Value, AllocError>
    ensures same { cursor.new ≡ cursor.old }
    ensures value { IfOk result (λ value. IsSymbol cursor.old.encoding cursor.old.text symbol.now (view value)) }
{
    let name = symbol.name();
    let span = name_span(cursor, name);
    let range = span_value(alloc, span)?;
    let (kind, name) = (symbol_kind(symbol.kind()), name.as_str());
    let (range, selection) = (&range, &range);
    json!(in alloc; {"kind": kind, "name": name, "range": range, "selectionRange": selection})
}

/// Returns a symbol of a source with this URI, which a cursor is in (`WorkspaceSymbol`). Its range is that of its name.
pub fn located_symbol_value(
    alloc: Global,
    uri: &str,
    cursor: &mut Cursor<'_>,
    symbol: &Symbol<'_>,
) -> Result<Value, AllocError>
    ensures same { cursor.new ≡ cursor.old }
    ensures value { IfOk result (λ value. IsLocatedSymbol cursor.old.encoding uri.now cursor.old.text symbol.now (view value)) }
{
    let name = symbol.name();
    let span = name_span(cursor, name);
    let range = span_value(alloc, span)?;
    let (kind, name, range) = (symbol_kind(symbol.kind()), name.as_str(), &range);
    json!(in alloc; {"kind": kind, "location": {"range": range, "uri": uri}, "name": name})
}
