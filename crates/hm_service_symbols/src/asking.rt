//! The symbols of a checked set.
ghost use Rattle.std.specs.Prelude.{IfOk};
ghost use Rattle.hm_service_symbols.specs.SetSymbols.{AreSymbolsIn};
ghost use Rattle.hm_service_symbols.specs.SourceSymbols.{AreSymbolsOf};

use crate::set_symbols::{SetSymbol, set_symbols};
use crate::sources::{modules_of, symbols_in};
use hm_service_places::Checked;
use hm_uses_symbols::Symbol;
use std::alloc::{AllocError, Global};

/// Returns the symbols of the modules of a source of a checked set, in the order of its text. A source that can't be checked has none. A module that is
/// skipped, because an import isn't good, has its symbols all the same.
///
/// # Errors
///
/// If memory runs out.
pub fn symbols_of<'a>(
    alloc: Global,
    checked: &'a Checked,
    source: usize,
) -> Result<Vec<Symbol<'a>>, AllocError>
    ensures { IfOk result (λ symbols. AreSymbolsOf checked.now source symbols.items) }
{
    let build = &checked.build;
    let part = checked.part.as_slice();
    let counts = build.counts.as_slice();
    let modules = modules_of(part, counts, build.store.modules(), source);
    Ok(symbols_in(alloc, modules)?)
}

/// Returns the symbols of all sources of a checked set that can be checked, in the order of sources and of their texts.
///
/// # Errors
///
/// If memory runs out.
pub fn all_symbols<'a>(
    alloc: Global,
    checked: &'a Checked,
) -> Result<Vec<SetSymbol<'a>>, AllocError>
    ensures { IfOk result (λ symbols. AreSymbolsIn checked.now symbols.items) }
{
    let build = &checked.build;
    let part = checked.part.as_slice();
    let counts = build.counts.as_slice();
    Ok(set_symbols(alloc, part, counts, build.store.modules())?)
}
