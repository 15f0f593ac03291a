//! What uses are.
ghost use Rattle.std.specs.Prelude.{◌≡◌, ◌<◌, IfNone, IfOk, length, map};
ghost use Rattle.hm_build_place_texts.specs.Facts.{item_of, name_of};
ghost use Rattle.hm_build_places.specs.Answers.{AreParts, IsRangeIn, IsUse, IsUseItem};
ghost use Rattle.hm_build_places.specs.Known.{origin_of, text_of};
ghost use Rattle.hm_build_places.specs.Views.{known_of};

use crate::bound::{bound_of, place_of};
use crate::here::here_of;
use crate::names::written_text;
use crate::typed::declared_type;
use crate::views::{View, origin_of, text_of};
use hm_build_place_texts::{PlaceItem, PlaceName};
use hm_lex::Place;
use hm_messages_excerpts::SourceLines;
use hm_messages_json::{Range, range_at};
use hm_uses_declarations::Use;
use std::alloc::{AllocError, Global};

/// Returns the range that is marked at a place of a module's source, if the place is in it.
fn range_in(
    alloc: Global,
    view: &View<'_>,
    number: usize,
    place: Place,
) -> Result<Option<Range>, AllocError>
    ensures { IfOk result (IsRangeIn (text_of (known_of view.now) (origin_of (known_of view.now) number)) place) }
{
    let lines = SourceLines::of(alloc, text_of(view, origin_of(view, number)))?;
    Ok(range_at(&lines, place))
}

/// Returns what a use in a module is.
fn name_of(
    alloc: Global,
    view: &View<'_>,
    number: usize,
    one: &Use<'_>,
) -> Result<PlaceName, AllocError>
    requires { number < length view.now.store.now.modules }
    ensures { IfOk result (λ name. IsUse (known_of view.now) number one.now (name_of name)) }
{
    let range = range_in(alloc, view, number, place_of(one.name()))?;
    let text = written_text(alloc, one.name())?;
    let bound = bound_of(alloc, view, number, one.kind(), one.meaning())?;
    let declared = declared_type(alloc, view, one.kind(), one.meaning())?;
    let here = here_of(alloc, view, number, one, one.meaning())?;
    Ok(PlaceName {
        kind: one.kind(),
        text,
        range,
        bound,
        declared,
        here,
    })
}

/// Returns what uses in a module are, in order.
pub(crate) fn items_of(
    alloc: Global,
    view: &View<'_>,
    number: usize,
    uses: &[&Use<'_>],
) -> Result<Vec<PlaceItem>, AllocError>
    requires { number < length view.now.store.now.modules }
    ensures { IfOk result (λ items. AreParts (IsUseItem (known_of view.now) number) (map (λ u. u.now) uses.now) (map item_of items.items)) }
{
    let mut items = Vec::new(alloc);
    'uses: for one in uses {
        let name = name_of(alloc, view, number, one)?;
        items.push(PlaceItem::Name(name))?;
    }
    Ok(items)
}
