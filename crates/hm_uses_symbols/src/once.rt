//! The symbols of a module, each once.
ghost use Rattle.std.specs.Prelude.{◌≡◌, ◌++◌, ◌∷◌, ◌||◌, [], IfOk, OnOk, not};
ghost use Rattle.hm_uses_symbols.specs.Seen.{HasSeen, is_seen};
ghost use Rattle.hm_uses_symbols.specs.Symbols.{SymbolOf, each_once, is_same, symbols_of};

use crate::declared::add_all_declared;
use crate::symbol::{Symbol, SymbolKind};
use hm_scope_tables::TextSet;
use hm_syntax::Module;
use std::alloc::{AllocError, Global};

/// The texts of names that were seen, in each namespace.
#[derive(Drop)]
struct Seen<'a> {
    modules: TextSet<'a>,
    types: TextSet<'a>,
    constructors: TextSet<'a>,
    variables: TextSet<'a>,
}

/// Returns no names.
fn no_names<'a>(alloc: Global) -> Seen<'a>
    ensures { HasSeen [] result }
{
    Seen {
        modules: TextSet::new(alloc),
        types: TextSet::new(alloc),
        constructors: TextSet::new(alloc),
        variables: TextSet::new(alloc),
    }
}

/// Notes a name. Returns whether it is new in its namespace.
fn note<'a>(seen: &mut Seen<'a>, symbol: &Symbol<'a>) -> Result<bool, AllocError>
    ensures added { IfOk result (λ added. added ≡ not (is_seen symbol.now seen.old)) }
    ensures seen { OnOk result ((s : SymbolOf) → is_seen s seen.new ≡ (is_seen s seen.old || is_same s symbol.now)) }
{
    let text = symbol.name().as_str();
    match symbol.kind() {
        SymbolKind::Module => Ok(seen.modules.insert(text)?),
        SymbolKind::DataType => Ok(seen.types.insert(text)?),
        SymbolKind::Synonym => Ok(seen.types.insert(text)?),
        SymbolKind::Constructor => Ok(seen.constructors.insert(text)?),
        SymbolKind::Variable => Ok(seen.variables.insert(text)?),
    }
}

/// Adds each of these symbols that none before it is the same as.
fn add_each_once<'a>(
    alloc: Global,
    found: &mut Vec<Symbol<'a>>,
    all: Vec<Symbol<'a>>,
) -> Result<(), AllocError>
    ensures { OnOk result (found.new.items ≡ found.old.items ++ each_once all.entry.items) }
{
    let mut seen = no_names(alloc);
    'symbols: for symbol in all {
        if note(&mut seen, &symbol)? {
            found.push(symbol)?;
        }
    }
    Ok(())
}

/// Adds the symbols of a module: its own name, and the names that it declares at its top level, in order, each once. A function of several clauses has
/// the place of its first one.
///
/// # Errors
///
/// If memory runs out.
pub fn add_symbols<'a>(
    alloc: Global,
    found: &mut Vec<Symbol<'a>>,
    program: &'a Module,
) -> Result<(), AllocError>
    ensures { OnOk result (found.new.items ≡ found.old.items ++ symbols_of program.now) }
{
    let mut declared = Vec::new(alloc);
    add_all_declared(alloc, &mut declared, program.decls.as_slice())?;
    found.push(Symbol::new(SymbolKind::Module, &program.header.name))?;
    Ok(add_each_once(alloc, found, declared)?)
}
