//! Finds where a module declares a name.
ghost use Rattle.std.specs.Prelude.{◌≡◌, IfOk, IfSome, Some};
ghost use Rattle.hm_messages_exporters.specs.Declarations.{IsDeclaredAt, space_of_symbol};

use crate::looks::Looks;
use crate::missing::Missing;
use hm_lex::Place;
use hm_names::Namespace;
use hm_syntax::Module;
use hm_uses_symbols::{SymbolKind, add_symbols};
use std::alloc::{AllocError, Global};

/// Returns the namespace of a symbol. The name of a module is in none.
fn space_of_symbol(kind: SymbolKind) -> Option<Namespace>
    ensures { result ≡ space_of_symbol kind }
{
    match kind {
        SymbolKind::Module => None,
        SymbolKind::DataType => Some(Namespace::Types),
        SymbolKind::Synonym => Some(Namespace::Types),
        SymbolKind::Constructor => Some(Namespace::Constructors),
        SymbolKind::Variable => Some(Namespace::Values),
    }
}

/// Returns the place where a module declares a name at its top level, if it declares it.
///
/// # Errors
///
/// If memory runs out.
pub fn declared_at(
    alloc: Global,
    program: &Module,
    missing: Missing<'_>,
    looks: &mut Looks,
) -> Result<Option<Place>, AllocError>
    ensures { IfOk result (λ found. IfSome found (IsDeclaredAt program.now missing.entry.space missing.entry.name.now)) }
{
    let mut symbols = Vec::new(alloc);
    add_symbols(alloc, &mut symbols, program)?;
    looks.take(symbols.len());
    let row = symbols.as_slice();
    'row: for symbol in row {
        if space_of_symbol(symbol.kind()) != Some(missing.space) {
            continue;
        }
        if symbol.name().as_str() == missing.name {
            return Ok(Some(symbol.name().place));
        }
    }
    Ok(None)
}
