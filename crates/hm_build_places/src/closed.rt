//! Names in modules that are skipped.
ghost use Rattle.std.specs.Prelude.{◌≡◌, ◌<◌, ◌∷◌, [], List, IfOk, length, map};
ghost use Rattle.hm_types.specs.StandardPrelude.{prelude_interface};
ghost use Rattle.hm_uses.specs.Uses.{AreUses, UseOf};
ghost use Rattle.hm_verdicts.specs.Reports.{name_of_module};
ghost use Rattle.hm_verdicts.specs.Sets.{module_at};
ghost use Rattle.hm_build_place_texts.specs.Facts.{item_of};
ghost use Rattle.hm_build_places.specs.Answers.{skipped_items, uses_on, with_column};
ghost use Rattle.hm_build_places.specs.Views.{known_of};

use crate::views::{View, module_of};
use hm_build_place_texts::PlaceItem;
use hm_types::Interface;
use hm_uses_declarations::Use;
use hm_uses_header::uses_of;
use hm_uses_places::uses_at;
use std::alloc::{AllocError, Global};

/// Returns what these names of a skipped module are: one item, if there are any.
fn skipped_items(alloc: Global, name: &str, uses: &[&Use<'_>]) -> Result<Vec<PlaceItem>, AllocError>
    ensures { IfOk result (λ items. map item_of items.items ≡ skipped_items name.now (map (λ u. u.now) uses.now)) }
{
    let mut items = Vec::new(alloc);
    if uses.is_empty() {
        return Ok(items);
    }
    items.push(PlaceItem::Skipped(String::from_str(alloc, name)?))?;
    Ok(items)
}

/// Returns what is at a place of a skipped module.
pub(crate) fn closed_items(
    alloc: Global,
    view: &View<'_>,
    number: usize,
    line: u32,
    column: usize,
) -> Result<Vec<PlaceItem>, AllocError>
    requires { number < length view.now.store.now.modules }
    ensures { IfOk result (λ items. (us : List UseOf) × (AreUses (module_at (known_of view.now).set number) (prelude_interface ∷ []) us
        × (map item_of items.items ≡ skipped_items (name_of_module (known_of view.now).set number) (uses_on (with_column line column) us)))) }
{
    let prelude: &Interface = view.prelude.interface();
    let module = module_of(view, number);
    let uses = uses_of(alloc, module, prelude, &[])?;
    let found = uses_at(alloc, uses.as_slice(), line, column)?;
    Ok(skipped_items(alloc, module.header.name.as_str(), found.as_slice())?)
}
