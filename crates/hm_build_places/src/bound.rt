//! Where a name is bound.
ghost use Rattle.std.specs.Prelude.{◌≡◌, ◌<◌, IfOk, length};
ghost use Rattle.hm_uses_declarations.specs.Senses.{sense_of};
ghost use Rattle.hm_build_place_texts.specs.Facts.{binding_of, in_module, site_of};
ghost use Rattle.hm_build_places.specs.Answers.{IsBound, IsBoundAt, IsEntityBound, IsModuleBound};
ghost use Rattle.hm_build_places.specs.Known.{IsSiteOf};
ghost use Rattle.hm_build_places.specs.TypesAt.{place_of};
ghost use Rattle.hm_build_places.specs.Views.{known_of};

use crate::entities::declared_in;
use crate::views::{View, file_text, module_of, number_of, origin_of, text_of};
use hm_build_place_texts::{Bound, SourceSpot};
use hm_lex::Place;
use hm_messages_excerpts::SourceLines;
use hm_messages_json::position_at;
use hm_scope_tables::EntityRef;
use hm_syntax::Name;
use hm_uses::NameKind;
use hm_uses_declarations::Meaning;
use std::alloc::{AllocError, Global};

/// Returns a place of a source with its position.
fn spot_of(
    alloc: Global,
    view: &View<'_>,
    source: usize,
    place: Place,
) -> Result<SourceSpot, AllocError>
    ensures { IfOk result (λ spot. IsSiteOf (known_of view.now) source place (site_of spot)) }
{
    let lines = SourceLines::of(alloc, text_of(view, source))?;
    let position = position_at(&lines, place);
    let file = file_text(alloc, view, source)?;
    Ok(SourceSpot { file, position })
}

/// Returns that a name is bound at a place of a source.
fn bound_at(
    alloc: Global,
    view: &View<'_>,
    source: usize,
    place: Place,
) -> Result<Bound, AllocError>
    ensures { IfOk result (λ bound. IsBoundAt (known_of view.now) source place (binding_of bound)) }
{
    Ok(Bound::At(spot_of(alloc, view, source, place)?))
}

/// Returns that a name is bound in a module that isn't one of the sources.
fn bound_in(alloc: Global, name: &str) -> Result<Bound, AllocError>
    ensures { IfOk result (λ bound. binding_of bound ≡ in_module name.now) }
{
    Ok(Bound::In(String::from_str(alloc, name)?))
}

/// Returns where an entity is bound.
fn entity_bound(
    alloc: Global,
    view: &View<'_>,
    kind: NameKind,
    entity: &EntityRef<'_>,
) -> Result<Bound, AllocError>
    ensures { IfOk result (λ bound. IsEntityBound (known_of view.now) kind entity.now (binding_of bound)) }
{
    let Some(number) = number_of(view, entity.module()) else {
        return Ok(bound_in(alloc, entity.module())?);
    };
    match declared_in(alloc, view, kind, entity, number)? {
        Some(place) => Ok(bound_at(alloc, view, origin_of(view, number), place)?),
        None => Ok(bound_in(alloc, entity.module())?),
    }
}

/// Returns the place of a name.
pub(crate) fn place_of(name: &Name) -> Place
    ensures { result ≡ place_of name.now }
{
    name.place
}

/// Returns where a module is bound.
fn module_bound(alloc: Global, view: &View<'_>, name: &str) -> Result<Bound, AllocError>
    ensures { IfOk result (λ bound. IsModuleBound (known_of view.now) name.now (binding_of bound)) }
{
    let Some(number) = number_of(view, name) else {
        return Ok(bound_in(alloc, name)?);
    };
    let place = place_of(&module_of(view, number).header.name);
    Ok(bound_at(alloc, view, origin_of(view, number), place)?)
}

/// Returns where a name of a module is bound, by what it means.
pub(crate) fn bound_of(
    alloc: Global,
    view: &View<'_>,
    number: usize,
    kind: NameKind,
    meaning: &Meaning<'_>,
) -> Result<Bound, AllocError>
    ensures { IfOk result (λ bound. IsBound (known_of view.now) number kind (sense_of meaning.now) (binding_of bound)) }
{
    match meaning {
        Meaning::Local(place) => Ok(bound_at(alloc, view, origin_of(view, number), *place)?),
        Meaning::TypeVariable(place) => Ok(bound_at(alloc, view, origin_of(view, number), *place)?),
        Meaning::Entity(entity) => Ok(entity_bound(alloc, view, kind, entity)?),
        Meaning::Module(name) => Ok(module_bound(alloc, view, name.as_str())?),
        Meaning::Prefix(_) => Ok(Bound::Prefix),
        Meaning::Unbound => Ok(Bound::Nowhere),
        Meaning::Ambiguous => Ok(Bound::Ambiguous),
    }
}
