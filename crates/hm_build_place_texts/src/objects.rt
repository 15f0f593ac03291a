//! What is at a place as a JSON object.
ghost use Rattle.std.specs.Prelude.{◌≡◌, IfOk, Some, map, option_map, string_bytes};
ghost use Rattle.serde_json.specs.View.{view};
ghost use Rattle.hm_messages_json.specs.Objects.{optional_data, optional_range, position_data, range_data, text_data};
ghost use Rattle.hm_build_place_texts.specs.Facts.{binding_of, declared_of, facts_of, here_of, item_of, name_of, owner_of};
ghost use Rattle.hm_build_place_texts.specs.Objects.{binding_data, file_in, item_data, items_data, joined_data, module_in, name_data, owner_data, owner_in, place_data, place_object, position_in, refused_data, refused_object, scheme_in, type_in, unfound_in, untyped_in};

use crate::found::{Bound, DeclaredType, Definition, HereType, PlaceFound, PlaceItem, PlaceName};
use crate::prose::{binding_text, hidden_text, kind_text, not_good_text, prose};
use hm_build_objects::line_of;
use hm_messages_json::{Position, Range};
use serde_json::{Value, json};
use std::alloc::{AllocError, Global};

/// The number of the format of the objects.
const FORMAT: u64 = 1;

/// Returns a text as a JSON value, or null if there is none.
fn text_value(alloc: Global, text: Option<&str>) -> Result<Value, AllocError>
    ensures { IfOk result (λ value. view value ≡ text_data (option_map (λ t. t.now) text.entry)) }
{
    match text {
        Some(text) => Ok(Value::String(String::from_str(alloc, text)?)),
        None => Ok(Value::Null),
    }
}

/// Returns a position as an object.
fn position_value(alloc: Global, position: Position) -> Result<Value, AllocError>
    ensures { IfOk result (λ value. view value ≡ position_data position) }
{
    let line = position.line as u64;
    let byte = position.columns.bytes as u64;
    let character = position.columns.characters as u64;
    let utf16 = position.columns.utf16 as u64;
    json!(in alloc; {"byte": byte, "character": character, "line": line, "utf16": utf16})
}

/// Returns a position as an object, or null if there is none.
fn optional_position(alloc: Global, position: Option<Position>) -> Result<Value, AllocError>
    ensures { IfOk result (λ value. view value ≡ optional_data position) }
{
    match position {
        Some(position) => Ok(position_value(alloc, position)?),
        None => Ok(Value::Null),
    }
}

/// Returns a range as an object, or null if there is none.
fn range_value(alloc: Global, range: Option<Range>) -> Result<Value, AllocError>
    ensures { IfOk result (λ value. view value ≡ optional_range range) }
{
    let Some(range) = range else {
        return Ok(Value::Null);
    };
    let start = position_value(alloc, range.start)?;
    let end = position_value(alloc, range.end)?;
    let (start, end) = (&start, &end);
    json!(in alloc; {"end": end, "start": start})
}

/// Returns the file in which a name is bound.
fn file_in(bound: &Bound) -> Option<&str>
    ensures { option_map (λ t. t.now) result ≡ file_in (binding_of bound.now) }
{
    match bound {
        Bound::At(spot) => Some(spot.file.as_str()),
        _ => None,
    }
}

/// Returns the module in which a name is bound, if that isn't one of the sources.
fn module_in(bound: &Bound) -> Option<&str>
    ensures { option_map (λ t. t.now) result ≡ module_in (binding_of bound.now) }
{
    match bound {
        Bound::In(name) => Some(name.as_str()),
        _ => None,
    }
}

/// Returns the position at which a name is bound.
fn position_in(bound: &Bound) -> Option<Position>
    ensures { result ≡ position_in (binding_of bound.now) }
{
    match bound {
        Bound::At(spot) => spot.position,
        _ => None,
    }
}

/// Returns where a name is bound, as an object.
fn binding_value(alloc: Global, bound: &Bound) -> Result<Value, AllocError>
    ensures { IfOk result (λ value. view value ≡ binding_data (binding_of bound.now)) }
{
    let file = text_value(alloc, file_in(bound))?;
    let owner = text_value(alloc, module_in(bound))?;
    let position = optional_position(alloc, position_in(bound))?;
    let text = binding_text(alloc, bound)?;
    let (file, owner, position, text) = (&file, &owner, &position, text.as_str());
    json!(in alloc; {"file": file, "module": owner, "position": position, "text": text})
}

/// Returns the principal type of a name.
fn scheme_in(declared: &DeclaredType) -> Option<&str>
    ensures { option_map (λ t. t.now) result ≡ scheme_in (declared_of declared.now) }
{
    match declared {
        DeclaredType::Principal(text) => Some(text.as_str()),
        _ => None,
    }
}

/// Returns the type of a name at its place.
fn type_in(here: &HereType) -> Option<&str>
    ensures { option_map (λ t. t.now) result ≡ type_in (here_of here.now) }
{
    match here {
        HereType::Local(found) => Some(found.text.as_str()),
        HereType::Used(found) => Some(found.text.as_str()),
        _ => None,
    }
}

/// Returns a definition with its type as an object.
fn owner_value(alloc: Global, definition: &Definition) -> Result<Value, AllocError>
    ensures { IfOk result (λ value. view value ≡ owner_data (Some (owner_of definition.now))) }
{
    let name = definition.name.as_str();
    let own = definition.own.as_str();
    json!(in alloc; {"name": name, "type": own})
}

/// Returns the definition that a name is in, as an object, or null if there is none.
fn definition_value(alloc: Global, here: &HereType) -> Result<Value, AllocError>
    ensures { IfOk result (λ value. view value ≡ owner_data (owner_in (here_of here.now))) }
{
    let definition = match here {
        HereType::Untyped => return Ok(Value::Null),
        HereType::Local(found) => &found.definition,
        HereType::Used(found) => &found.definition,
        HereType::Unknown => return Ok(Value::Null),
    };
    match definition {
        Some(definition) => Ok(owner_value(alloc, definition)?),
        None => Ok(Value::Null),
    }
}

/// Returns that no type of a local variable is found, or null.
fn unfound_value(alloc: Global, here: &HereType) -> Result<Value, AllocError>
    ensures { IfOk result (λ value. view value ≡ text_data (unfound_in (here_of here.now))) }
{
    match here {
        HereType::Unknown => Ok(Value::String(String::from_str(alloc, "no type is found")?)),
        _ => Ok(Value::Null),
    }
}

/// Returns why a name has no type, or null.
fn untyped_value(alloc: Global, name: &PlaceName) -> Result<Value, AllocError>
    ensures { IfOk result (λ value. view value ≡ text_data (untyped_in (name_of name.now).declared (name_of name.now).here)) }
{
    match &name.declared {
        DeclaredType::Hidden(owner) => Ok(Value::String(hidden_text(alloc, owner.as_str())?)),
        DeclaredType::NotGood(owner) => Ok(Value::String(not_good_text(alloc, owner.as_str())?)),
        DeclaredType::Untyped => Ok(unfound_value(alloc, &name.here)?),
        DeclaredType::Principal(_) => Ok(unfound_value(alloc, &name.here)?),
    }
}

/// The members of a name's object that aren't texts, or may be missing.
#[derive(Clone, Copy)]
struct Members<'a> {
    bound: &'a Value,
    definition: &'a Value,
    here: &'a Value,
    range: &'a Value,
    declared: &'a Value,
    untyped: &'a Value,
}

/// Returns the object of a name with these members.
fn joined(alloc: Global, kind: &str, text: &str, members: Members<'_>) -> Result<Value, AllocError>
    ensures { IfOk result (λ value. view value ≡ joined_data kind.now text.now (view members.entry.bound.now) (view members.entry.definition.now)
        (view members.entry.here.now) (view members.entry.range.now) (view members.entry.declared.now) (view members.entry.untyped.now)) }
{
    let Members {
        bound,
        definition,
        here,
        range,
        declared,
        untyped,
    } = members;
    json!(in alloc; {
        "bound": bound,
        "definition": definition,
        "here": here,
        "kind": kind,
        "name": text,
        "range": range,
        "type": declared,
        "untyped": untyped,
    })
}

/// Returns a name as an object.
fn name_value(alloc: Global, name: &PlaceName) -> Result<Value, AllocError>
    ensures { IfOk result (λ value. view value ≡ name_data (name_of name.now)) }
{
    let bound = binding_value(alloc, &name.bound)?;
    let definition = definition_value(alloc, &name.here)?;
    let here = text_value(alloc, type_in(&name.here))?;
    let range = range_value(alloc, name.range)?;
    let declared = text_value(alloc, scheme_in(&name.declared))?;
    let untyped = untyped_value(alloc, name)?;
    let members = Members {
        bound: &bound,
        definition: &definition,
        here: &here,
        range: &range,
        declared: &declared,
        untyped: &untyped,
    };
    Ok(joined(alloc, kind_text(name.kind), name.text.as_str(), members)?)
}

/// Returns what a module has at a place, as an object.
fn item_value(alloc: Global, item: &PlaceItem) -> Result<Value, AllocError>
    ensures { IfOk result (λ value. view value ≡ item_data (item_of item.now)) }
{
    match item {
        PlaceItem::Name(name) => Ok(name_value(alloc, name)?),
        PlaceItem::Skipped(name) => {
            let name = name.as_str();
            json!(in alloc; {"kind": "skipped", "module": name})
        }
    }
}

/// Returns items as an array, in order.
fn items_value(alloc: Global, items: &[PlaceItem]) -> Result<Value, AllocError>
    ensures { IfOk result (λ value. view value ≡ items_data (map item_of items.now)) }
{
    let mut values = Vec::new(alloc);
    'items: for item in items {
        values.push(item_value(alloc, item)?)?;
    }
    Ok(Value::Array(values))
}

/// Returns what is at a place as an object.
fn place_value(alloc: Global, found: &PlaceFound) -> Result<Value, AllocError>
    ensures { IfOk result (λ value. view value ≡ place_data (facts_of found.now)) }
{
    let column = found.column as u64;
    let file = found.file.as_str();
    let line = found.line;
    let names = items_value(alloc, found.items.as_slice())?;
    let text = prose(alloc, found)?;
    let (names, text) = (&names, text.as_str());
    json!(in alloc; {
        "column": column,
        "file": file,
        "format": FORMAT,
        "kind": "place",
        "line": line,
        "names": names,
        "text": text,
    })
}

/// Returns what is at a place as an object on its own line.
pub(crate) fn place_line(alloc: Global, found: &PlaceFound) -> Result<String, AllocError>
    ensures { IfOk result (λ text. string_bytes text ≡ place_object (facts_of found.now)) }
{
    let value = place_value(alloc, found)?;
    Ok(line_of(alloc, &value)?)
}

/// Returns a refusal as an object.
fn refused_value(alloc: Global, text: &str) -> Result<Value, AllocError>
    ensures { IfOk result (λ value. view value ≡ refused_data text.now) }
{
    json!(in alloc; {"format": FORMAT, "kind": "refused", "text": text})
}

/// Returns a refusal as an object on its own line.
pub(crate) fn refused_line(alloc: Global, text: &str) -> Result<String, AllocError>
    ensures { IfOk result (λ line. string_bytes line ≡ refused_object text.now) }
{
    let value = refused_value(alloc, text)?;
    Ok(line_of(alloc, &value)?)
}
