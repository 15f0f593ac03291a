//! The types of names at their places.
ghost use Rattle.std.specs.Prelude.{◌≡◌, ◌<◌, IfOk, IfSome, length, option_map, string_bytes};
ghost use Rattle.hm_uses_declarations.specs.Senses.{sense_of};
ghost use Rattle.hm_build_place_texts.specs.Facts.{here_of, owner_of, there_of};
ghost use Rattle.hm_build_places.specs.TypesAt.{IsEntityHere, IsLocalType, IsOwner, IsTypeHere, IsTypeThere, IsTypedAt, IsUseType};
ghost use Rattle.hm_build_places.specs.Views.{known_of};

use crate::bound::place_of;
use crate::names::written_text;
use crate::read::{question_of, read_of};
use crate::views::View;
use hm_build_place_texts::{Definition, HereType, PlaceType};
use hm_messages_here::{TypeHere, WrittenName, type_here};
use hm_uses::NameKind;
use hm_uses_declarations::{Meaning, Use};
use std::alloc::{AllocError, Global};

/// Returns the type of a name at its place in a module.
fn type_at(
    alloc: Global,
    view: &View<'_>,
    number: usize,
    one: &Use<'_>,
) -> Result<Option<TypeHere>, AllocError>
    requires { number < length view.now.store.now.modules }
    ensures { IfOk result (λ found. IfSome found (λ t. IsTypedAt (known_of view.now) number one.now.mention (string_bytes t.definition) (string_bytes t.own)
        (string_bytes t.here))) }
{
    let Some(read) = read_of(alloc, view, number)? else {
        return Ok(None);
    };
    let name = one.name();
    let text = written_text(alloc, name)?;
    let written = WrittenName {
        text: text.as_str(),
        place: place_of(name),
        binds: one.binds(),
    };
    let question = question_of(view, number, &read);
    Ok(type_here(alloc, &question, &read.whole, &written)?)
}

/// Returns the type of a name with the definition that it is in.
fn with_owner(found: TypeHere) -> PlaceType
    ensures text { string_bytes result.text ≡ string_bytes found.here }
    ensures owner { IsOwner (string_bytes found.definition) (string_bytes found.own) (option_map owner_of result.definition) }
{
    let TypeHere {
        definition,
        own,
        here,
    } = found;
    if definition.as_str() == "()" {
        return PlaceType {
            text: here,
            definition: None,
        };
    }
    let name = definition;
    PlaceType {
        text: here,
        definition: Some(Definition { name, own }),
    }
}

/// Returns the type of a name at its place, with the definition that it is in.
fn type_there(
    alloc: Global,
    view: &View<'_>,
    number: usize,
    one: &Use<'_>,
) -> Result<Option<PlaceType>, AllocError>
    requires { number < length view.now.store.now.modules }
    ensures { IfOk result (λ found. IfSome found (λ t. IsTypeThere (known_of view.now) number one.now.mention (there_of t))) }
{
    match type_at(alloc, view, number, one)? {
        Some(found) => Ok(Some(with_owner(found))),
        None => Ok(None),
    }
}

/// Returns the type of a local variable.
fn local_type(
    alloc: Global,
    view: &View<'_>,
    number: usize,
    one: &Use<'_>,
) -> Result<HereType, AllocError>
    requires { number < length view.now.store.now.modules }
    ensures { IfOk result (λ here. IsLocalType (known_of view.now) number one.now.mention (here_of here)) }
{
    match type_there(alloc, view, number, one)? {
        Some(found) => Ok(HereType::Local(found)),
        None => Ok(HereType::Unknown),
    }
}

/// Returns the type of an entity's name at its place.
fn use_type(
    alloc: Global,
    view: &View<'_>,
    number: usize,
    one: &Use<'_>,
) -> Result<HereType, AllocError>
    requires { number < length view.now.store.now.modules }
    ensures { IfOk result (λ here. IsUseType (known_of view.now) number one.now.mention (here_of here)) }
{
    match type_there(alloc, view, number, one)? {
        Some(found) => Ok(HereType::Used(found)),
        None => Ok(HereType::Untyped),
    }
}

/// Returns the type of an entity's name at its place, if names of this kind have types.
fn entity_here(
    alloc: Global,
    view: &View<'_>,
    number: usize,
    one: &Use<'_>,
    kind: NameKind,
) -> Result<HereType, AllocError>
    requires { number < length view.now.store.now.modules }
    ensures { IfOk result (λ here. IsEntityHere (known_of view.now) number one.now.mention kind (here_of here)) }
{
    match kind {
        NameKind::Variable => Ok(use_type(alloc, view, number, one)?),
        NameKind::Constructor => Ok(use_type(alloc, view, number, one)?),
        NameKind::TypeVariable => Ok(HereType::Untyped),
        NameKind::TypeConstructor => Ok(HereType::Untyped),
        NameKind::ModuleName => Ok(HereType::Untyped),
    }
}

/// Returns the type of a name at its place, by what it means.
pub(crate) fn here_of(
    alloc: Global,
    view: &View<'_>,
    number: usize,
    one: &Use<'_>,
    meaning: &Meaning<'_>,
) -> Result<HereType, AllocError>
    requires { number < length view.now.store.now.modules }
    ensures { IfOk result (λ here. IsTypeHere (known_of view.now) number one.now.mention (sense_of meaning.now) (here_of here)) }
{
    match meaning {
        Meaning::Local(_) => Ok(local_type(alloc, view, number, one)?),
        Meaning::Entity(_) => Ok(entity_here(alloc, view, number, one, one.kind())?),
        Meaning::TypeVariable(_) => Ok(HereType::Untyped),
        Meaning::Module(_) => Ok(HereType::Untyped),
        Meaning::Prefix(_) => Ok(HereType::Untyped),
        Meaning::Unbound => Ok(HereType::Untyped),
        Meaning::Ambiguous => Ok(HereType::Untyped),
    }
}
