//! Finds the first of two names that are the same.
ghost use Rattle.std.specs.Prelude.{◌≡◌, Contains, IfOk, IfSome, map, true};
ghost use Rattle.hm_syntax.specs.Names.{Identifier};
ghost use Rattle.hm_syntax.specs.Lists.{declarations};
ghost use Rattle.hm_messages_details.specs.Firsts.{IsAt, IsFirst, IsFirstAt, first_named, place_of};
ghost use Rattle.hm_messages_details.specs.Parts.{IsFirstIn, a_list, part_of};

use crate::parts::{ModulePart, parts_of};
use crate::written::after_qualifier;
use hm_lex::Place;
use hm_names::{Fault, LentNames, add_pattern, add_patterns};
use hm_scope_resolve::{add_names, binding_names, constructor_names, signed_names, type_names};
use hm_syntax::{Decl, Module, Name};
use std::alloc::{AllocError, Global};

/// Returns whether a fault is at this name.
pub(crate) fn is_at(fault: &Fault, name: &Name) -> bool
    ensures { result ≡ true → IsAt fault.now name.now }
{
    if fault.place != name.place {
        return false;
    }
    let qualifier = match &name.qualifier {
        Some(qualifier) => Some(qualifier.as_str()),
        None => None,
    };
    match after_qualifier(fault.name.as_str(), qualifier) {
        Some(text) => text == name.as_str(),
        None => false,
    }
}

/// Returns whether a fault is at one of these names.
pub(crate) fn is_among(fault: &Fault, names: &[&Name]) -> bool
    ensures { result ≡ true → (second : Identifier) × Contains (map (λ n. n.now) names.now) second × IsAt fault.now second }
{
    'names: for name in names {
        if is_at(fault, name) {
            return true;
        }
    }
    false
}

/// Returns the place of the first of these names with this text.
fn place_named(names: &[&Name], text: &str) -> Option<Place>
    ensures { IfSome result (λ p. (first : Identifier) × (first_named text.now (map (λ n. n.now) names.now) ≡ Some first) × (p ≡ place_of first)) }
{
    'names: for name in names {
        if name.as_str() == text {
            return Some(name.place);
        }
    }
    None
}

/// Returns the place of the first of these names with the text of a fault that is at another of them.
fn first_among(fault: &Fault, names: &LentNames<'_>) -> Option<Place>
    ensures { IfSome result (IsFirstAt names.now fault.now) }
{
    let names = names.as_slice();
    if !is_among(fault, names) {
        return None;
    }
    let place = place_named(names, fault.name.as_str())?;
    if place == fault.place {
        return None;
    }
    Some(place)
}

/// Returns the place of the first of a list's types, constructors, variables or signatures that have the text of a fault at another of them.
fn first_in_list(alloc: Global, fault: &Fault, decls: &[Decl]) -> Result<Option<Place>, AllocError>
    ensures { IfOk result (λ found. IfSome found (IsFirstIn (a_list (declarations decls.now)) fault.now)) }
{
    if let Some(place) = first_among(fault, &type_names(alloc, decls)?) {
        return Ok(Some(place));
    }
    if let Some(place) = first_among(fault, &constructor_names(alloc, decls)?) {
        return Ok(Some(place));
    }
    if let Some(place) = first_among(fault, &binding_names(alloc, decls)?) {
        return Ok(Some(place));
    }
    Ok(first_among(fault, &signed_names(alloc, decls)?))
}

/// Returns the place of the first of the names of a part that are that of a fault at another of them.
fn first_in(alloc: Global, fault: &Fault, part: ModulePart<'_>) -> Result<Option<Place>, AllocError>
    ensures { IfOk result (λ found. IfSome found (IsFirstIn (part_of part.entry) fault.now)) }
{
    let mut names = LentNames::new(alloc);
    match part {
        ModulePart::List(decls) => Ok(first_in_list(alloc, fault, decls)?),
        ModulePart::Head(pats) => {
            add_patterns(&mut names, pats)?;
            Ok(first_among(fault, &names))
        }
        ModulePart::Alone(pat) => {
            add_pattern(&mut names, pat)?;
            Ok(first_among(fault, &names))
        }
        ModulePart::Parameters(params) => {
            add_names(&mut names, params)?;
            Ok(first_among(fault, &names))
        }
        ModulePart::Pattern(_, _) => Ok(None),
        ModulePart::Type(_, _) => Ok(None),
        ModulePart::Use(_, _) => Ok(None),
        ModulePart::End => Ok(None),
    }
}

// Why: docs/DECISIONS.md, "The first of two".
/// Returns the place of the first of two names that are the same, for a fault at the second.
pub(crate) fn first_of_two(
    alloc: Global,
    program: &Module,
    fault: &Fault,
) -> Result<Option<Place>, AllocError>
    ensures { IfOk result (λ found. IfSome found (IsFirst program.now fault.now)) }
{
    let parts = parts_of(alloc, program)?;
    let row = parts.as_slice();
    'row: for part in row {
        match first_in(alloc, fault, *part)? {
            Some(place) => return Ok(Some(place)),
            None => {}
        }
    }
    Ok(None)
}
