//! The outcomes of earlier builds.

ghost use Rattle.std.specs.Prelude.{◌≡◌, IfOk, IfSome, map};
ghost use Rattle.std.specs.Arc.{arc_value};

use crate::Earlier;
use crate::taking::taken;
use hm_store::Store;
use hm_syntax::Module;
use hm_types::Interface;
use hm_verdicts::Outcome;
use indexmap::IndexMap;
use std::alloc::{AllocError, Global};
use std::sync::Arc;

/// Returns the numbers of modules by their names.
fn numbers_of<'a>(
    alloc: Global,
    modules: &'a [Arc<Module>],
) -> Result<IndexMap<&'a str, usize>, AllocError> {
    let mut numbers = IndexMap::new(alloc);
    'modules: for number in 0..modules.len() {
        numbers.insert(modules[number].header.name.as_str(), number)?;
    }
    Ok(numbers)
}

/// Adds the outcomes that a build has for modules of these names, each to the row of its name.
fn add_outcomes<'a>(
    rows: &mut Vec<Vec<&'a Outcome>>,
    numbers: &IndexMap<&str, usize>,
    store: &'a Store,
) -> Result<(), AllocError> {
    let modules = store.modules();
    'modules: for number in 0..modules.len() {
        let Some(place) = numbers.get(modules[number].header.name.as_str()) else {
            continue 'modules;
        };
        let Some(outcome) = store.outcome(number) else {
            continue 'modules;
        };
        if let Some(row) = rows.get_mut(*place) {
            row.push(outcome)?;
        }
    }
    Ok(())
}

/// Returns for each module the outcomes that earlier builds have for modules of its name. Returns no rows if there is no earlier build.
///
/// # Errors
///
/// If memory runs out.
pub fn named_outcomes<'a>(
    alloc: Global,
    earlier: &[Earlier<'a>],
    modules: &[Arc<Module>],
) -> Result<Vec<Vec<&'a Outcome>>, AllocError> {
    let mut rows = Vec::new(alloc);
    if earlier.is_empty() {
        return Ok(rows);
    }
    'rows: for _ in modules {
        rows.push(Vec::new(alloc))?;
    }
    let numbers = numbers_of(alloc, modules)?;
    'builds: for one in earlier {
        add_outcomes(&mut rows, &numbers, &one.build.store)?;
    }
    Ok(rows)
}

/// Returns the outcome of a module for these interfaces of its imports, if one of these outcomes is good and is of an equal module for equal
/// interfaces.
///
/// # Errors
///
/// If memory runs out.
pub fn outcome_from(
    alloc: Global,
    outcomes: &[&Outcome],
    module: &Arc<Module>,
    imports: &[Arc<Interface>],
) -> Result<Option<Outcome>, AllocError>
    ensures module { IfOk result (λ found. IfSome found (λ o. o.«module» ≡ arc_value «module».now)) }
    ensures imports { IfOk result (λ found. IfSome found (λ o. o.imports ≡ map arc_value imports.now)) }
{
    'outcomes: for outcome in outcomes {
        if let Some(found) = taken(alloc, *outcome, module, imports)? {
            return Ok(Some(found));
        }
    }
    Ok(None)
}
