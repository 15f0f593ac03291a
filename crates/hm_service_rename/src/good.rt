//! Whether a check finds the same modules good as another one.
ghost use Rattle.std.specs.Prelude.{◌≡◌, ◌++◌, ◌↔◌, ◌<◌, ℕ, IfOk, IsTrue, OnOk};
ghost use Rattle.std.specs.List.{flat_map};
ghost use Rattle.hm_service_rename.specs.Sets.{IsAsGood, IsGood, error_source};

use hm_service_messages::{Diagnostic, Level, Told};
use hm_service_places::Checked;
use hm_store::Store;
use std::alloc::{AllocError, Global};

/// Returns whether a module is good.
fn is_good(store: &Store, number: usize) -> bool
    ensures { IsTrue result ↔ IsGood store.now number }
{
    store.look(number).is_some()
}

/// Returns whether the same of the first modules are good.
fn are_good(store: &Store, other: &Store, count: usize) -> bool
    ensures { IsTrue result → (i : ℕ) → i < count → IsGood store.now i ↔ IsGood other.now i }
{
    'modules: for number in 0..count {
        if is_good(store, number) != is_good(other, number) {
            return false;
        }
    }
    true
}

/// Adds the source of a diagnostic if it is an error.
fn add_source(sources: &mut Vec<usize>, diagnostic: &Diagnostic) -> Result<(), AllocError>
    ensures { OnOk result (sources.new.items ≡ sources.old.items ++ error_source diagnostic.now) }
{
    match diagnostic.level {
        Level::Error => Ok(sources.push(diagnostic.source)?),
        Level::Note => Ok(()),
    }
}

// Why: docs/DECISIONS.md, "Errors of a rename".
/// Returns the source of each error.
#[tactic(auto, using(crate::proofs::Errors::errors_more))]
fn sources_of(alloc: Global, told: &Told) -> Result<Vec<usize>, AllocError>
    ensures { IfOk result (λ sources. sources.items ≡ flat_map error_source told.now.diagnostics.items) }
{
    let mut sources = Vec::new(alloc);
    'diagnostics: for diagnostic in told.diagnostics.as_slice() {
        add_source(&mut sources, diagnostic)?;
    }
    Ok(sources)
}

/// Returns whether two lists of numbers are the same.
fn are_same(numbers: &[usize], others: &[usize]) -> bool
    ensures { IsTrue result → numbers.now ≡ others.now }
{
    numbers == others
}

/// Returns whether a check is of the same sources as another one, finds the same modules good, and has as many errors of each source.
pub(crate) fn is_as_good(
    alloc: Global,
    before: &Checked,
    after: &Checked,
) -> Result<bool, AllocError>
    ensures { IfOk result (λ same. IsTrue same → IsAsGood before.now after.now) }
{
    if !are_same(after.part.as_slice(), before.part.as_slice()) {
        return Ok(false);
    }
    let (store, other) = (&before.build.store, &after.build.store);
    let count = store.modules().len();
    if other.modules().len() != count || !are_good(store, other, count) {
        return Ok(false);
    }
    if after.told.skipped != before.told.skipped {
        return Ok(false);
    }
    let sources = sources_of(alloc, &before.told)?;
    let later = sources_of(alloc, &after.told)?;
    Ok(are_same(later.as_slice(), sources.as_slice()))
}
