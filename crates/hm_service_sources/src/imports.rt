//! The modules that each module imports, in a set that may be unlawful.
ghost use Rattle.std.specs.Prelude.{◌≡◌, ◌≢◌, ◌↔◌, ◌<◌, ◌++◌, ℕ, Contains, IfNone, IfOk, IfSome, IsTrue, OnOk, [], codes, length, option_to_list, slice_index_or};
ghost use Rattle.hm_graph.specs.Imports.{IsMissing, IsTaken, name_at};
ghost use Rattle.hm_graph_components.specs.Digraph.{lists};
ghost use Rattle.hm_service_sources.specs.LeftOut.{ImportsFirst, outlines_of};
ghost use Rattle.hm_service_sources.specs.Steps.{AreFirsts, AreImportRows};

use crate::names::is_prelude;
use hm_run_sources::Located;
use indexmap::IndexMap;
use std::alloc::{AllocError, Global};

/// Returns the module that an import of this name means, if it means one.
fn target_of(numbers: &IndexMap<&str, usize>, located: &[Located], name: &str) -> Option<usize>
    requires { AreFirsts (outlines_of located.now) (length located.now) numbers.now }
    ensures some { IfSome result (λ k. (k < length located.now) × ((name_at (outlines_of located.now) k ≡ name.now) × ¬ (IsTaken (outlines_of located.now) k))) }
    ensures none { IfNone result ((k : ℕ) → k < length located.now → name_at (outlines_of located.now) k ≡ name.now → IsTaken (outlines_of located.now) k) }
{
    if is_prelude(name) {
        return None;
    }
    match numbers.get(name) {
        Some(number) => Some(*number),
        None => None,
    }
}

/// Returns whether an import of this name names nothing.
fn is_missing(numbers: &IndexMap<&str, usize>, located: &[Located], name: &str) -> bool
    requires { AreFirsts (outlines_of located.now) (length located.now) numbers.now }
    ensures { IsTrue result ↔ ((name.now ≢ codes "Prelude") × ((k : ℕ) → k < length located.now → name_at (outlines_of located.now) k ≢ name.now)) }
{
    if is_prelude(name) {
        return false;
    }
    match numbers.get(name) {
        Some(_) => false,
        None => true,
    }
}

/// Returns whether an import of a module names nothing.
pub(crate) fn has_missing(
    numbers: &IndexMap<&str, usize>,
    located: &[Located],
    number: usize,
) -> bool
    requires numbers { AreFirsts (outlines_of located.now) (length located.now) numbers.now }
    requires number { number < length located.now }
    ensures yes { IsTrue result → (i : ℕ) × IsMissing (outlines_of located.now) number i }
    ensures none { (i : ℕ) → IsMissing (outlines_of located.now) number i → IsTrue result }
{
    let imports = located[number].header.imports.as_slice();
    'imports: for import in 0..imports.len() {
        let name = imports[import].name.as_str();
        if is_missing(numbers, located, name) {
            return true;
        }
    }
    false
}

/// Appends a module, if there is one.
fn add_target(row: &mut Vec<usize>, target: Option<usize>) -> Result<(), AllocError>
    ensures { OnOk result (row.new.items ≡ row.old.items ++ option_to_list target) }
{
    match target {
        Some(target) => Ok(row.push(target)?),
        None => Ok(()),
    }
}

/// Returns the modules that a module imports.
fn import_row(
    alloc: Global,
    numbers: &IndexMap<&str, usize>,
    located: &[Located],
    number: usize,
) -> Result<Vec<usize>, AllocError>
    requires numbers { AreFirsts (outlines_of located.now) (length located.now) numbers.now }
    requires number { number < length located.now }
    ensures { IfOk result (λ row. (k : ℕ) → Contains row.items k ↔ ImportsFirst (outlines_of located.now) number k) }
{
    let imports = located[number].header.imports.as_slice();
    let mut row = Vec::new(alloc);
    'imports: for import in 0..imports.len() {
        let name = imports[import].name.as_str();
        let target = target_of(numbers, located, name);
        add_target(&mut row, target)?;
    }
    Ok(row)
}

/// Returns the modules that each module imports.
pub(crate) fn import_rows(
    alloc: Global,
    numbers: &IndexMap<&str, usize>,
    located: &[Located],
) -> Result<Vec<Vec<usize>>, AllocError>
    requires { AreFirsts (outlines_of located.now) (length located.now) numbers.now }
    ensures { IfOk result (λ rows. AreImportRows (outlines_of located.now) (length located.now) (lists rows.items)) }
{
    let mut rows = Vec::new(alloc);
    'modules: for number in 0..located.len() {
        let row = import_row(alloc, numbers, located, number)?;
        rows.push(row)?;
    }
    Ok(rows)
}
