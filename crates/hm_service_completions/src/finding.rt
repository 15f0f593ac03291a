//! The completions at a place of a checked set.
ghost use Rattle.std.specs.Prelude.{◌<◌, IfOk, length};
ghost use Rattle.hm_service_completions.specs.Completions.{AreCompletionsAt, AreCompletionsOf, AreNamesOf};
ghost use Rattle.hm_service_references.specs.Imported.{IsImported, interfaces_in};
ghost use Rattle.hm_service_references.specs.Views.{known_of};

use crate::modules::{SourceLine, module_at, own_interface};
use hm_run_sources::origins_of;
use hm_scope_typed_names::{TypedName, Wanted, typed_names};
use hm_service_places::Checked;
use hm_service_references::{Imported, View, imports_at, module_of};
use hm_types::Interface;
use hm_types_prelude::SharedPrelude;
use std::alloc::{AllocError, Global};

/// Returns the names that mean one entity in the scope of a module and begin with a prefix, or none if the module is skipped.
fn names_of(
    alloc: Global,
    view: &View<'_>,
    number: usize,
    imported: &Imported,
    prefix: &[u8],
) -> Result<Vec<TypedName>, AllocError>
    requires inside { number < length view.now.store.now.modules }
    requires imported { IsImported (known_of view.now) number (interfaces_in imported.now) }
    ensures { IfOk result (λ names. AreNamesOf (known_of view.now) number prefix.now names.items) }
{
    let Some(imports) = &imported.interfaces else {
        return Ok(Vec::new(alloc));
    };
    let prelude: &Interface = view.prelude.interface();
    let module = module_of(view, number);
    let own = own_interface(view, number);
    let wanted = Wanted { prefix, own };
    Ok(typed_names(alloc, module, prelude, imports.as_slice(), &wanted)?)
}

/// Returns the completions at a line of a source of a build.
fn completions_at(
    alloc: Global,
    view: &View<'_>,
    spot: &SourceLine<'_>,
    prefix: &[u8],
) -> Result<Vec<TypedName>, AllocError>
    ensures { IfOk result (λ names. AreCompletionsAt (known_of view.now) spot.now.part.now spot.now.source spot.now.line prefix.now names.items) }
{
    let Some(number) = module_at(view, spot) else {
        return Ok(Vec::new(alloc));
    };
    let imported = imports_at(alloc, view, number)?;
    Ok(names_of(alloc, view, number, &imported, prefix)?)
}

// Why: docs/DECISIONS.md, "Completions".
/// Returns the names that mean one entity in the scope of the module at a line of a source, and begin with a prefix. The line is from 1, and is one of
/// the text that stands for the source. There are none if the source can't be checked, or no module begins at or before the line, or the module is
/// skipped.
///
/// # Errors
///
/// If memory runs out.
pub fn completions_of(
    alloc: Global,
    checked: &Checked,
    source: usize,
    line: usize,
    prefix: &[u8],
) -> Result<Vec<TypedName>, AllocError>
    ensures { IfOk result (λ names. AreCompletionsOf checked.now source line prefix.now names.items) }
{
    let build = &checked.build;
    let prelude = SharedPrelude::new(alloc)?;
    let origins = origins_of(alloc, build.counts.as_slice())?;
    let view = View {
        store: &build.store,
        prelude: &prelude,
        origins: origins.as_slice(),
    };
    let part = checked.part.as_slice();
    let spot = SourceLine { part, source, line };
    Ok(completions_at(alloc, &view, &spot, prefix)?)
}
