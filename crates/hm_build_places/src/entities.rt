//! Where the modules of a build declare entities.
ghost use Rattle.std.specs.Prelude.{◌≡◌, ◌<◌, ℕ, List, IfNone, IfOk, IfSome, length, map};
ghost use Rattle.std.specs.Arc.{arc_value};
ghost use Rattle.hm_types.specs.Interfaces.{Exports};
ghost use Rattle.hm_names.specs.Imports.{AreImportsOf};
ghost use Rattle.hm_store.specs.Settlements.{settlement};
ghost use Rattle.hm_verdicts.specs.Sets.{imports_of, module_at};
ghost use Rattle.hm_verdicts.specs.Verdicts.{ArePublished};
ghost use Rattle.hm_build_places.specs.Answers.{DeclaresAt, DeclaresNowhere};
ghost use Rattle.hm_build_places.specs.Known.{HasNoUses};
ghost use Rattle.hm_build_places.specs.Views.{known_of};

use crate::views::{View, module_of};
use hm_lex::Place;
use hm_scope_imports::are_imports_of;
use hm_scope_tables::EntityRef;
use hm_store::Store;
use hm_types::Interface;
use hm_uses::NameKind;
use hm_uses_header::uses_of;
use hm_uses_places::declared_at;
use std::alloc::{AllocError, Global};
use std::sync::Arc;

/// Returns the interfaces of the modules with these numbers, if all are published.
fn published(
    alloc: Global,
    store: &Store,
    numbers: &[usize],
) -> Result<Option<Vec<Arc<Interface>>>, AllocError>
    ensures some { IfOk result (λ found. IfSome found (λ interfaces. ArePublished (settlement store.now) numbers.now (map arc_value interfaces.items))) }
    ensures none { IfOk result (λ found. IfNone found ((fs : List Exports) → ¬ (ArePublished (settlement store.now) numbers.now fs))) }
{
    let mut interfaces = Vec::new(alloc);
    for number in numbers {
        match store.look(*number) {
            Some(interface) => interfaces.push(interface.clone()?)?,
            None => return Ok(None),
        }
    }
    Ok(Some(interfaces))
}

/// Returns the interfaces of a module's imports, if all are published.
pub(crate) fn imported_interfaces(
    alloc: Global,
    view: &View<'_>,
    number: usize,
) -> Result<Option<Vec<Arc<Interface>>>, AllocError>
    requires { number < length view.now.store.now.modules }
    ensures published { IfOk result (λ found. IfSome found (λ interfaces. ArePublished (settlement view.now.store.now) (imports_of (known_of view.now).set number) (map arc_value interfaces.items))) }
    ensures named { IfOk result (λ found. IfSome found (λ interfaces. AreImportsOf (module_at (known_of view.now).set number) (map arc_value interfaces.items))) }
    ensures none { IfOk result (λ found. IfNone found (HasNoUses (known_of view.now) number)) }
{
    // The journal is legal, so the modules are a lawful set.
    view.store.legal();
    let numbers = view.store.plan().imports(number);
    let Some(interfaces) = published(alloc, view.store, numbers)? else {
        return Ok(None);
    };
    if !are_imports_of(alloc, module_of(view, number), interfaces.as_slice())? {
        return Ok(None);
    }
    Ok(Some(interfaces))
}

/// Returns where a module declares an entity.
pub(crate) fn declared_in(
    alloc: Global,
    view: &View<'_>,
    kind: NameKind,
    entity: &EntityRef<'_>,
    number: usize,
) -> Result<Option<Place>, AllocError>
    requires { number < length view.now.store.now.modules }
    ensures some { IfOk result (λ found. IfSome found (DeclaresAt (known_of view.now) kind entity.now number)) }
    ensures none { IfOk result (λ found. IfNone found (DeclaresNowhere (known_of view.now) kind entity.now number)) }
{
    let Some(imports) = imported_interfaces(alloc, view, number)? else {
        return Ok(None);
    };
    let prelude: &Interface = view.prelude.interface();
    let uses = uses_of(alloc, module_of(view, number), prelude, imports.as_slice())?;
    Ok(declared_at(uses.as_slice(), kind, entity))
}
