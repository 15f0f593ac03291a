//! The names of the modules of a build, each with what it means.
ghost use Rattle.std.specs.Prelude.{◌≡◌, ◌<◌, IfOk, length, slice_index_or};
ghost use Rattle.hm_service_references.specs.Imported.{AreAllImported, IsImported, interfaces_in};
ghost use Rattle.hm_service_references.specs.Names.{AreFirstNames, AreUsesAt, source_of};
ghost use Rattle.hm_service_references.specs.Views.{known_of};

use crate::imported::{Imported, View, module_of};
use hm_types::Interface;
use hm_uses_declarations::Use;
use hm_uses_header::uses_of;
use hm_uses_references::{SetUse, add_uses};
use std::alloc::{AllocError, Global};

/// Returns the uses of names in a module, or none if the module is skipped.
fn module_uses<'a>(
    alloc: Global,
    view: &View<'a>,
    number: usize,
    imported: &'a Imported,
) -> Result<Vec<Use<'a>>, AllocError>
    requires inside { number < length view.now.store.now.modules }
    requires imported { IsImported (known_of view.now) number (interfaces_in imported.now) }
    ensures { IfOk result (λ uses. AreUsesAt (known_of view.now) number uses.items) }
{
    let Some(imports) = &imported.interfaces else {
        return Ok(Vec::new(alloc));
    };
    let prelude: &Interface = view.prelude.interface();
    let module = module_of(view, number);
    Ok(uses_of(alloc, module, prelude, imports.as_slice())?)
}

/// Returns the number at an index of a list, or 0 if it has no such index.
fn number_at(numbers: &[usize], index: usize) -> usize
    ensures { result ≡ slice_index_or numbers.now index 0 }
{
    if index < numbers.len() {
        numbers[index]
    } else {
        0
    }
}

/// Returns the number in the held set of a module's source. `part` has the numbers of the sources that are checked.
pub fn source_of(view: &View<'_>, part: &[usize], number: usize) -> usize
    ensures { result ≡ source_of (known_of view.now) part.now number }
{
    let index = number_at(view.origins, number);
    number_at(part, index)
}

/// Returns the names of all modules, in order. `part` has the numbers of the sources that are checked. A module that is skipped has no names.
///
/// # Errors
///
/// If memory runs out.
pub fn all_names<'a>(
    alloc: Global,
    view: &View<'a>,
    part: &[usize],
    imported: &'a [Imported],
) -> Result<Vec<SetUse<'a>>, AllocError>
    requires { AreAllImported (known_of view.now) (length view.now.store.now.modules) imported.now }
    ensures { IfOk result (λ names. AreFirstNames (known_of view.now) part.now (length view.now.store.now.modules) names.items) }
{
    let mut names = Vec::new(alloc);
    'modules: for number in 0..imported.len() {
        let uses = module_uses(alloc, view, number, &imported[number])?;
        let source = source_of(view, part, number);
        add_uses(&mut names, number, source, uses)?;
    }
    Ok(names)
}
