//! The interfaces of the imports of a build's modules.
ghost use Rattle.std.specs.Prelude.{◌≡◌, ◌<◌, List, IfNone, IfOk, IfSome, length, map};
ghost use Rattle.std.specs.Arc.{arc_value};
ghost use Rattle.hm_types.specs.Interfaces.{Exports};
ghost use Rattle.hm_names.specs.Imports.{AreImportsOf};
ghost use Rattle.hm_store.specs.Settlements.{settlement};
ghost use Rattle.hm_verdicts.specs.Sets.{imports_of, module_at};
ghost use Rattle.hm_verdicts.specs.Verdicts.{ArePublished};
ghost use Rattle.hm_build_places.specs.Known.{HasNoUses};
ghost use Rattle.hm_service_references.specs.Imported.{AreAllImported, IsImported, interfaces_in};
ghost use Rattle.hm_service_references.specs.Views.{known_of};

use hm_scope_imports::are_imports_of;
use hm_store::Store;
use hm_syntax::Module;
use hm_types::Interface;
use hm_types_prelude::SharedPrelude;
use std::alloc::{AllocError, Global};
use std::sync::Arc;

/// A finished build with the number of each module's source, which is its index among the sources that are checked.
#[derive(Clone, Copy)]
pub struct View<'a> {
    pub store: &'a Store,
    pub prelude: &'a SharedPrelude,
    pub origins: &'a [usize],
}

/// The interfaces of a module's imports, or `None` if they aren't all published.
#[derive(Drop)]
pub struct Imported {
    pub interfaces: Option<Vec<Arc<Interface>>>,
}

/// Returns a module.
pub fn module_of<'a>(view: &View<'a>, number: usize) -> &'a Module
    requires { number < length view.now.store.now.modules }
    ensures { result.now ≡ module_at (known_of view.now).set number }
{
    &view.store.modules()[number]
}

/// Returns the interfaces of the modules with these numbers, if all are published.
fn published(
    alloc: Global,
    store: &Store,
    numbers: &[usize],
) -> Result<Option<Vec<Arc<Interface>>>, AllocError>
    ensures some { IfOk result (λ found. IfSome found (λ interfaces. ArePublished (settlement store.now) numbers.now (map arc_value interfaces.items))) }
    ensures none { IfOk result (λ found. IfNone found ((fs : List Exports) → ¬ (ArePublished (settlement store.now) numbers.now fs))) }
{
    let mut interfaces = Vec::new(alloc);
    for number in numbers {
        match store.look(*number) {
            Some(interface) => interfaces.push(interface.clone()?)?,
            None => return Ok(None),
        }
    }
    Ok(Some(interfaces))
}

/// Returns the interfaces of a module's imports, if all are published.
fn imported_interfaces(
    alloc: Global,
    view: &View<'_>,
    number: usize,
) -> Result<Option<Vec<Arc<Interface>>>, AllocError>
    requires { number < length view.now.store.now.modules }
    ensures published { IfOk result (λ found. IfSome found (λ interfaces. ArePublished (settlement view.now.store.now) (imports_of (known_of view.now).set number) (map arc_value interfaces.items))) }
    ensures named { IfOk result (λ found. IfSome found (λ interfaces. AreImportsOf (module_at (known_of view.now).set number) (map arc_value interfaces.items))) }
    ensures none { IfOk result (λ found. IfNone found (HasNoUses (known_of view.now) number)) }
{
    // The journal is legal, so the modules are a lawful set.
    view.store.legal();
    let numbers = view.store.plan().imports(number);
    let Some(interfaces) = published(alloc, view.store, numbers)? else {
        return Ok(None);
    };
    if !are_imports_of(alloc, module_of(view, number), interfaces.as_slice())? {
        return Ok(None);
    }
    Ok(Some(interfaces))
}

/// Returns the interfaces of the imports of a module.
///
/// # Errors
///
/// If memory runs out.
pub fn imports_at(alloc: Global, view: &View<'_>, number: usize) -> Result<Imported, AllocError>
    requires { number < length view.now.store.now.modules }
    ensures { IfOk result (λ found. IsImported (known_of view.now) number (interfaces_in found)) }
{
    match imported_interfaces(alloc, view, number)? {
        Some(interfaces) => Ok(Imported {
            interfaces: Some(interfaces),
        }),
        None => Ok(Imported { interfaces: None }),
    }
}

/// Returns the interfaces of the imports of each module, in the order of modules.
///
/// # Errors
///
/// If memory runs out.
pub fn all_imported(alloc: Global, view: &View<'_>) -> Result<Vec<Imported>, AllocError>
    ensures { IfOk result (λ all. AreAllImported (known_of view.now) (length view.now.store.now.modules) all.items) }
{
    let mut all = Vec::new(alloc);
    'modules: for number in 0..view.store.modules().len() {
        all.push(imports_at(alloc, view, number)?)?;
    }
    Ok(all)
}
