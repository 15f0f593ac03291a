//! The symbols of all sources of a checked set.
ghost use Rattle.std.specs.Prelude.{◌≡◌, ◌++◌, IfOk, OnOk, map};
ghost use Rattle.std.specs.Arc.{arc_value};
ghost use Rattle.hm_service_symbols.specs.SetSymbols.{set_symbols, symbol_in};

use crate::sources::{split_modules, symbols_in};
use hm_syntax::Module;
use hm_uses_symbols::Symbol;
use std::alloc::{AllocError, Global};
use std::marker::Model;
use std::sync::Arc;

/// A symbol of a source of a held set.
#[derive(Drop)]
pub struct SetSymbol<'a> {
    source: usize,
    symbol: Symbol<'a>,
}

impl<'a> Model for SetSymbol<'a> {
    ghost use Rattle.hm_service_symbols.specs.SetSymbols.{SymbolIn, symbol_in};

    ghost Value = { SymbolIn };

    ghost view = { λ s. symbol_in s.source s.symbol };
}

impl<'a> SetSymbol<'a> {
    /// Returns the symbol of the source with this number.
    pub fn new(source: usize, symbol: Symbol<'a>) -> SetSymbol<'a>
        ensures { result ≡ symbol_in source symbol.entry }
    {
        SetSymbol { source, symbol }
    }

    /// Returns the number of its source.
    pub fn source(&self) -> usize
        ensures { result ≡ self.now.source }
    {
        self.source
    }

    /// Returns the symbol.
    pub fn symbol(&self) -> &Symbol<'a>
        ensures { result.now ≡ self.now.symbol }
    {
        &self.symbol
    }
}

/// Appends the symbols of the source with this number.
fn add_source<'a>(
    found: &mut Vec<SetSymbol<'a>>,
    source: usize,
    symbols: Vec<Symbol<'a>>,
) -> Result<(), AllocError>
    ensures { OnOk result (found.new.items ≡ found.old.items ++ map (symbol_in source) symbols.entry.items) }
{
    'symbols: for symbol in symbols {
        found.push(SetSymbol::new(source, symbol))?;
    }
    Ok(())
}

/// Returns the symbols of all modules. `part` has the numbers of the sources that are checked, and `counts` the number of modules of each.
pub(crate) fn set_symbols<'a>(
    alloc: Global,
    part: &[usize],
    counts: &[usize],
    modules: &'a [Arc<Module>],
) -> Result<Vec<SetSymbol<'a>>, AllocError>
    ensures { IfOk result (λ found. found.items ≡ set_symbols part.now counts.now (map arc_value modules.now)) }
{
    let mut found = Vec::new(alloc);
    let mut rest = modules;
    'part: for index in 0..part.len() {
        if index >= counts.len() {
            return Ok(found);
        }
        let (own, later) = split_modules(rest, counts[index]);
        add_source(&mut found, part[index], symbols_in(alloc, own)?)?;
        rest = later;
    }
    Ok(found)
}
