//! The modules of each source of a checked set, and their symbols.
ghost use Rattle.std.specs.Prelude.{◌≡◌, IfOk, drop, map, take};
ghost use Rattle.std.specs.Arc.{arc_value};
ghost use Rattle.std.specs.List.{flat_map};
ghost use Rattle.hm_service_symbols.specs.SourceModules.{modules_of};
ghost use Rattle.hm_uses_symbols.specs.Symbols.{symbols_of};

use hm_syntax::Module;
use hm_uses_symbols::{Symbol, add_symbols};
use std::alloc::{AllocError, Global};
use std::sync::Arc;

/// Returns the first modules, as many as `count` if there are so many, and the others.
pub(crate) fn split_modules(
    modules: &[Arc<Module>],
    count: usize,
) -> (&[Arc<Module>], &[Arc<Module>])
    ensures first { map arc_value result.0.now ≡ take count (map arc_value modules.now) }
    ensures others { map arc_value result.1.now ≡ drop count (map arc_value modules.now) }
{
    if count <= modules.len() {
        modules.split_at(count)
    } else {
        (modules, &[])
    }
}

/// Returns the modules of a source. `part` has the numbers of the sources that are checked, and `counts` the number of modules of each.
pub(crate) fn modules_of<'a>(
    part: &[usize],
    counts: &[usize],
    modules: &'a [Arc<Module>],
    source: usize,
) -> &'a [Arc<Module>]
    ensures { map arc_value result.now ≡ modules_of source part.now counts.now (map arc_value modules.now) }
{
    let mut rest = modules;
    'part: for index in 0..part.len() {
        if index >= counts.len() {
            return &[];
        }
        let (own, later) = split_modules(rest, counts[index]);
        if part[index] == source {
            return own;
        }
        rest = later;
    }
    &[]
}

/// Returns the symbols of modules, in order.
pub(crate) fn symbols_in<'a>(
    alloc: Global,
    modules: &'a [Arc<Module>],
) -> Result<Vec<Symbol<'a>>, AllocError>
    ensures { IfOk result (λ symbols. symbols.items ≡ flat_map symbols_of (map arc_value modules.now)) }
{
    let mut found = Vec::new(alloc);
    'modules: for module in modules {
        add_symbols(alloc, &mut found, module)?;
    }
    Ok(found)
}
