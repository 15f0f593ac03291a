//! What is at a place of a source, in each of its modules.
ghost use Rattle.std.specs.Prelude.{◌≡◌, ◌<◌, IfOk, length, map};
ghost use Rattle.hm_build_place_texts.specs.Facts.{item_of};
ghost use Rattle.hm_build_places.specs.Answers.{AreFirstParts, AreFound, HasItems, with_column};
ghost use Rattle.hm_build_places.specs.Views.{known_of};

use crate::closed::closed_items;
use crate::columns::bytes_before;
use crate::entities::imported_interfaces;
use crate::uses::items_of;
use crate::views::{View, module_count, module_of, origin_of, text_of};
use hm_build_place_texts::PlaceItem;
use hm_lex::Place;
use hm_messages_excerpts::SourceLines;
use hm_types::Interface;
use hm_uses_header::uses_of;
use hm_uses_places::uses_at;
use std::alloc::{AllocError, Global};

/// A place of a source. The column counts bytes, from 1.
#[derive(Clone, Copy)]
struct SourceSpot {
    source: usize,
    line: u32,
    column: usize,
}

/// Returns what is at a place in a module.
fn module_items(
    alloc: Global,
    view: &View<'_>,
    spot: SourceSpot,
    number: usize,
) -> Result<Vec<PlaceItem>, AllocError>
    requires { number < length view.now.store.now.modules }
    ensures { IfOk result (λ items. HasItems (known_of view.now) spot.source (with_column spot.line spot.column) number (map item_of items.items)) }
{
    if origin_of(view, number) != spot.source {
        return Ok(Vec::new(alloc));
    }
    let Some(imports) = imported_interfaces(alloc, view, number)? else {
        return Ok(closed_items(alloc, view, number, spot.line, spot.column)?);
    };
    let prelude: &Interface = view.prelude.interface();
    let uses = uses_of(alloc, module_of(view, number), prelude, imports.as_slice())?;
    let found = uses_at(alloc, uses.as_slice(), spot.line, spot.column)?;
    Ok(items_of(alloc, view, number, found.as_slice())?)
}

/// Returns what is at a place in all modules, in order.
fn all_items(alloc: Global, view: &View<'_>, spot: SourceSpot) -> Result<Vec<PlaceItem>, AllocError>
    ensures { IfOk result (λ items. AreFirstParts (HasItems (known_of view.now) spot.source (with_column spot.line spot.column))
        (length view.now.store.now.modules) (map item_of items.items)) }
{
    let mut items = Vec::new(alloc);
    'modules: for number in 0..module_count(view) {
        let mut next = module_items(alloc, view, spot, number)?;
        items.append(&mut next)?;
    }
    Ok(items)
}

/// Returns what is at a line and a column of a source. The column counts characters, from 1.
pub(crate) fn found_items(
    alloc: Global,
    view: &View<'_>,
    source: usize,
    line: u32,
    column: usize,
) -> Result<Vec<PlaceItem>, AllocError>
    ensures { IfOk result (λ items. AreFound (known_of view.now) source line column (map item_of items.items)) }
{
    let lines = SourceLines::of(alloc, text_of(view, source))?;
    let Some(rest) = lines.rest_of_line(Place { line, column: 1 }) else {
        return Ok(Vec::new(alloc));
    };
    let bytes = bytes_before(rest, column.saturating_sub(1));
    let spot = SourceSpot {
        source,
        line,
        column: bytes + 1,
    };
    Ok(all_items(alloc, view, spot)?)
}
