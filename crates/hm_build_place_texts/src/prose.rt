//! The text of a place for readers.
ghost use Rattle.std.specs.Prelude.{◌≡◌, IfOk, map, option_map, string_bytes};
ghost use Rattle.std.specs.List.{flat_map};
ghost use Rattle.hm_build_place_texts.specs.Facts.{binding_of, declared_of, facts_of, here_of, item_of, name_of, owner_of, site_of};
ghost use Rattle.hm_build_place_texts.specs.Prose.{binding_text, declared_line, here_lines, hidden_text, item_text, kind_text, name_line, name_text, not_good_text, nothing_text, owner_line, prose, site_text, skipped_text};

use crate::found::{
    Bound, DeclaredType, Definition, HereType, PlaceFound, PlaceItem, PlaceName, SourceSpot,
};
use hm_uses::NameKind;
use std::alloc::{AllocError, Global};

/// Returns the words for a kind of name.
pub(crate) fn kind_text(kind: NameKind) -> &'static str
    ensures { result.now ≡ kind_text kind }
{
    match kind {
        NameKind::Variable => "variable",
        NameKind::Constructor => "constructor",
        NameKind::TypeVariable => "type variable",
        NameKind::TypeConstructor => "type",
        NameKind::ModuleName => "module",
    }
}

/// Returns a place as FILE:LINE:COLUMN.
fn site_text(alloc: Global, spot: &SourceSpot) -> Result<String, AllocError>
    ensures { IfOk result (λ text. string_bytes text ≡ site_text (site_of spot.now).file (site_of spot.now).position) }
{
    let file = spot.file.as_str();
    match spot.position {
        Some(position) => {
            let line = position.line;
            let column = position.columns.characters;
            format!(in alloc; "{file}:{line}:{column}")
        }
        None => Ok(String::from_str(alloc, file)?),
    }
}

/// Returns where a name is bound.
pub(crate) fn binding_text(alloc: Global, bound: &Bound) -> Result<String, AllocError>
    ensures { IfOk result (λ text. string_bytes text ≡ binding_text (binding_of bound.now)) }
{
    match bound {
        Bound::At(spot) => {
            let spot = site_text(alloc, spot)?;
            format!(in alloc; "bound at {spot}")
        }
        Bound::In(name) => format!(in alloc; "bound in {name}"),
        Bound::Prefix => Ok(String::from_str(alloc, "a prefix of qualified names")?),
        Bound::Nowhere => Ok(String::from_str(alloc, "bound nowhere")?),
        Bound::Ambiguous => Ok(String::from_str(alloc, "ambiguous")?),
    }
}

/// Returns why a name has no type that its module doesn't export.
pub(crate) fn hidden_text(alloc: Global, name: &str) -> Result<String, AllocError>
    ensures { IfOk result (λ text. string_bytes text ≡ hidden_text name.now) }
{
    format!(in alloc; "no type: module {name} doesn't export it")
}

/// Returns why a name of a module that isn't good has no type.
pub(crate) fn not_good_text(alloc: Global, name: &str) -> Result<String, AllocError>
    ensures { IfOk result (λ text. string_bytes text ≡ not_good_text name.now) }
{
    format!(in alloc; "no type: module {name} isn't good")
}

/// Returns a text as a line below that of a name.
fn name_line(alloc: Global, text: &str) -> Result<String, AllocError>
    ensures { IfOk result (λ line. string_bytes line ≡ name_line text.now) }
{
    format!(in alloc; "  {text}\n")
}

/// Returns the line of the type that a name has in its module.
fn declared_line(alloc: Global, declared: &DeclaredType) -> Result<String, AllocError>
    ensures { IfOk result (λ text. string_bytes text ≡ declared_line (declared_of declared.now)) }
{
    match declared {
        DeclaredType::Untyped => Ok(String::new(alloc)),
        DeclaredType::Principal(text) => format!(in alloc; "  type {text}\n"),
        DeclaredType::Hidden(name) => {
            let text = hidden_text(alloc, name.as_str())?;
            Ok(name_line(alloc, text.as_str())?)
        }
        DeclaredType::NotGood(name) => {
            let text = not_good_text(alloc, name.as_str())?;
            Ok(name_line(alloc, text.as_str())?)
        }
    }
}

/// Returns the line of the definition that a name is in.
fn owner_line(alloc: Global, definition: &Option<Definition>) -> Result<String, AllocError>
    ensures { IfOk result (λ text. string_bytes text ≡ owner_line (option_map owner_of definition.now)) }
{
    match definition {
        Some(definition) => {
            let name = definition.name.as_str();
            let own = definition.own.as_str();
            format!(in alloc; "  in {name} :: {own}\n")
        }
        None => Ok(String::new(alloc)),
    }
}

/// Returns the lines of the type that a name has at its place.
fn here_lines(alloc: Global, here: &HereType) -> Result<String, AllocError>
    ensures { IfOk result (λ text. string_bytes text ≡ here_lines (here_of here.now)) }
{
    match here {
        HereType::Untyped => Ok(String::new(alloc)),
        HereType::Local(found) => {
            let owner = owner_line(alloc, &found.definition)?;
            let text = found.text.as_str();
            format!(in alloc; "  type {text}\n{owner}")
        }
        HereType::Used(found) => {
            let owner = owner_line(alloc, &found.definition)?;
            let text = found.text.as_str();
            format!(in alloc; "  here {text}\n{owner}")
        }
        HereType::Unknown => Ok(String::from_str(alloc, "  no type is found\n")?),
    }
}

/// Returns the lines of a name.
fn name_text(alloc: Global, name: &PlaceName) -> Result<String, AllocError>
    ensures { IfOk result (λ text. string_bytes text ≡ name_text (name_of name.now)) }
{
    let kind = kind_text(name.kind);
    let text = name.text.as_str();
    let bound = binding_text(alloc, &name.bound)?;
    let declared = declared_line(alloc, &name.declared)?;
    let here = here_lines(alloc, &name.here)?;
    format!(in alloc; "{kind} {text}\n  {bound}\n{declared}{here}")
}

/// Returns the lines of what a module has at a place.
fn item_text(alloc: Global, item: &PlaceItem) -> Result<String, AllocError>
    ensures { IfOk result (λ text. string_bytes text ≡ item_text (item_of item.now)) }
{
    match item {
        PlaceItem::Name(name) => Ok(name_text(alloc, name)?),
        PlaceItem::Skipped(name) => format!(in alloc;
            "a name in module {name}, which is skipped\n"
        ),
    }
}

/// Returns the lines of all items, one after the other.
fn items_text(alloc: Global, items: &[PlaceItem]) -> Result<String, AllocError>
    ensures { IfOk result (λ text. string_bytes text ≡ flat_map item_text (map item_of items.now)) }
{
    let mut text = String::new(alloc);
    'items: for item in items {
        let next = item_text(alloc, item)?;
        text.push_str(next.as_str())?;
    }
    Ok(text)
}

/// Returns the line of a place without a name.
fn nothing_text(alloc: Global, found: &PlaceFound) -> Result<String, AllocError>
    ensures { IfOk result (λ text. string_bytes text ≡ nothing_text (facts_of found.now).file found.now.line found.now.column) }
{
    let file = found.file.as_str();
    let line = found.line;
    let column = found.column;
    format!(in alloc; "{file}:{line}:{column}: no name is here\n")
}

/// Returns what is at a place as text for readers.
pub(crate) fn prose(alloc: Global, found: &PlaceFound) -> Result<String, AllocError>
    ensures { IfOk result (λ text. string_bytes text ≡ prose (facts_of found.now)) }
{
    if found.items.as_slice().is_empty() {
        return Ok(nothing_text(alloc, found)?);
    }
    Ok(items_text(alloc, found.items.as_slice())?)
}
