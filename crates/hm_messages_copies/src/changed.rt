//! The changed sources.
ghost use Rattle.std.specs.Prelude.{◌≡◌, ◌≤◌, ◌++◌, ◌∷◌, [], All, IfOk, IfSome, codes, drop, flat_map, length, slice_range, true};
ghost use Rattle.hm_messages_changes.specs.Probes.{IsWritten, before as before_text, listed as listed_name};
ghost use Rattle.hm_messages_copies.specs.Changes.{AreNested, IsRenamed, end_of, function_of as function_text, start_of, variable_of as variable_text, with_declaration as changed_text, within as within_text};
ghost use Rattle.hm_messages_copies.specs.Data.{definition_of, definitions_of, place_of};

use crate::data::{Copied, Inside, Point, Target};
use crate::texts::{copy, followed_by, joined, point_from, point_to, tied, written};
use hm_messages_changes::Span;
use std::alloc::{AllocError, Global};

/// Returns the bytes that are changed for a point inside of definitions.
fn changed_span(definitions: &[Copied<'_>], point: &Point) -> Span
    ensures from { result.from ≡ start_of (definitions_of definitions.now) point.now }
    ensures to { result.to ≡ end_of (definitions_of definitions.now) point.now }
{
    match definitions.first() {
        Some(first) => first.whole,
        None => Span {
            from: point_from(point),
            to: point_to(point),
        },
    }
}

/// Returns a definition, and after it a copy with a text in place of the bytes of a span.
fn followed(
    alloc: Global,
    source: &[u8],
    definition: &Copied<'_>,
    copied: &[u8],
) -> Result<Option<Vec<u8>>, AllocError>
    ensures { IfOk result (λ found. IfSome found (λ made. made.items
        ≡ slice_range source.now definition.now.whole.from definition.now.whole.to ++ codes " ; part'copy = " ++ copied.now)) }
{
    let Span { from, to } = definition.whole;
    if from > to || to > source.len() {
        return Ok(None);
    }
    Ok(Some(joined(alloc, &source[from..to], b" ; part'copy = ", copied)?))
}

/// Returns the text in place of the first of these definitions, each of which is inside of the one before.
fn within(
    alloc: Global,
    source: &[u8],
    definitions: &[Copied<'_>],
    point: &Point,
) -> Result<Option<Vec<u8>>, AllocError>
    ensures { IfOk result (λ found. IfSome found (λ made. made.items ≡ within_text source.now (definitions_of definitions.now) point.now)) }
{
    let Some((first, rest)) = definitions.split_first() else {
        return Ok(written(alloc, source, point)?);
    };
    let Some(text) = within(alloc, source, rest, point)? else {
        return Ok(None);
    };
    let inner = changed_span(rest, point);
    let Some(copied) = copy(alloc, source, first, inner, text.as_slice())? else {
        return Ok(None);
    };
    let copied = tied(alloc, b"", first.value, copied.as_slice())?;
    Ok(followed(alloc, source, first, copied.as_slice())?)
}

/// Returns the function that takes a value with the type of a definition and one with that of a part.
fn function_of(
    alloc: Global,
    source: &[u8],
    inside: &Inside<'_, '_, '_>,
) -> Result<Option<Vec<u8>>, AllocError>
    ensures { IfOk result (λ found. IfSome found (λ made. made.items
        ≡ function_text source.now (definition_of inside.now.first) (definitions_of inside.now.others.now) inside.now.point)) }
{
    let Some(text) = within(alloc, source, inside.others, &inside.point)? else {
        return Ok(None);
    };
    let inner = changed_span(inside.others, &inside.point);
    let Some(copied) = copy(alloc, source, &inside.first, inner, text.as_slice())? else {
        return Ok(None);
    };
    let tied = tied(alloc, b"part'own : ", inside.first.value, copied.as_slice())?;
    Ok(Some(joined(
        alloc,
        b" ; part'types (part'own, part'here) = ",
        tied.as_slice(),
        b"",
    )?))
}

/// Returns whether bytes of a source are a name.
fn is_written(source: &[u8], name: &[u8], span: Span) -> bool
    ensures { result ≡ true → IsWritten source.now name.now span }
{
    if span.from > span.to || span.to > source.len() {
        return false;
    }
    &source[span.from..span.to] == name
}

/// Returns whether all of these are a name.
fn are_written(source: &[u8], name: &[u8], spans: &[Span]) -> bool
    ensures { result ≡ true → All (IsWritten source.now name.now) spans.now }
{
    spans.iter().all(|span| is_written(source, name, *span))
}

/// Returns whether what is written anew in a copy is the name of the definition.
fn is_renamed(source: &[u8], definition: &Copied<'_>) -> bool
    ensures { result ≡ true → IsRenamed source.now (definition_of definition.now) }
{
    let name = definition.name.as_bytes();
    if !are_written(source, name, definition.local.before) {
        return false;
    }
    are_written(source, name, definition.local.after)
}

/// Returns whether each of these definitions is inside of the one before, the point inside of the last, and what is written anew in a copy the name of its definition.
fn are_nested(source: &[u8], outer: Span, definitions: &[Copied<'_>], point: &Point) -> bool
    ensures { result ≡ true → AreNested source.now outer.from outer.to (definitions_of definitions.now) point.now }
{
    let Some((first, rest)) = definitions.split_first() else {
        return outer.from <= point_from(point) && point_to(point) <= outer.to;
    };
    if outer.from > first.whole.from || first.whole.to > outer.to {
        return false;
    }
    if !is_renamed(source, first) {
        return false;
    }
    are_nested(source, first.whole, rest, point)
}

/// Returns a name of the source for an export list.
fn listed(alloc: Global, source: &[u8], name: Span) -> Result<Vec<u8>, AllocError>
    requires ordered { name.from ≤ name.to }
    requires within { name.to ≤ length source.now }
    ensures { IfOk result (λ made. made.items ≡ listed_name source.now name) }
{
    let mut made = Vec::from_slice(alloc, &source[name.from..name.to])?;
    made.extend_from_slice(b" , ")?;
    Ok(made)
}

/// Returns names of the source for an export list. Returns `None` if they aren't in the source.
fn all_listed(alloc: Global, source: &[u8], names: &[Span]) -> Result<Option<Vec<u8>>, AllocError>
    ensures { IfOk result (λ found. IfSome found (λ made. made.items ≡ flat_map (listed_name source.now) names.now)) }
{
    let mut made = Vec::new(alloc);
    for name in names {
        if name.from > name.to || name.to > source.len() {
            return Ok(None);
        }
        let item = listed(alloc, source, *name)?;
        made.extend_from_slice(item.as_slice())?;
    }
    Ok(Some(made))
}

/// Returns the source before the declaration, with the declared variable and the names at the beginning of the export list.
fn listed_before(
    alloc: Global,
    target: &Target<'_>,
    list: usize,
) -> Result<Option<Vec<u8>>, AllocError>
    requires { target.now.at ≤ length target.now.source.now }
    ensures { IfOk result (λ found. IfSome found (λ made. made.items
        ≡ before_text target.now.source.now (Some list) target.now.names.now target.now.at [])) }
{
    let source = target.source;
    if list > target.at {
        return Ok(None);
    }
    let Some(names) = all_listed(alloc, source, target.names)? else {
        return Ok(None);
    };
    let after = &source[list..target.at];
    let rest = followed_by(alloc, b"part'types , ", names.as_slice(), after)?;
    let mut made = Vec::from_slice(alloc, &source[..list])?;
    made.extend_from_slice(rest.as_slice())?;
    Ok(Some(made))
}

/// Returns the source before the declaration, with the declared variable and the names among the exports.
fn before(alloc: Global, target: &Target<'_>) -> Result<Option<Vec<u8>>, AllocError>
    requires { target.now.at ≤ length target.now.source.now }
    ensures { IfOk result (λ found. IfSome found (λ made. made.items
        ≡ before_text target.now.source.now target.now.exported target.now.names.now target.now.at [])) }
{
    match target.exported {
        None => Ok(Some(Vec::from_slice(alloc, &target.source[..target.at])?)),
        Some(list) => Ok(listed_before(alloc, target, list)?),
    }
}

/// Returns the source with a declaration, which the module exports. Returns `None` if its place isn't in the source.
fn with_declaration(
    alloc: Global,
    target: &Target<'_>,
    declaration: &[u8],
) -> Result<Option<Vec<u8>>, AllocError>
    ensures { IfOk result (λ found. IfSome found (λ made. made.items
        ≡ changed_text target.now.source.now (place_of target.now) declaration.now)) }
{
    if target.at > target.source.len() {
        return Ok(None);
    }
    let Some(front) = before(alloc, target)? else {
        return Ok(None);
    };
    let after = &target.source[target.at..];
    Ok(Some(joined(alloc, front.as_slice(), declaration, after)?))
}

/// Returns whether the definitions are inside of each other in a source, and what is written anew in a copy is the name of its definition.
fn is_proper(source: &[u8], inside: &Inside<'_, '_, '_>) -> bool
    ensures { result ≡ true → AreNested source.now 0 (length source.now) (definition_of inside.now.first ∷ definitions_of inside.now.others.now) inside.now.point }
{
    let first = &inside.first;
    if first.whole.to > source.len() {
        return false;
    }
    if !is_renamed(source, first) {
        return false;
    }
    are_nested(source, first.whole, inside.others, &inside.point)
}

/// Returns the source with a function of a value with the type of a definition, and of one with the type of a part of it. Returns `None` if the parts aren't inside each
/// other in the source, or if what is written anew isn't the name of its definition.
pub fn with_function(
    alloc: Global,
    target: &Target<'_>,
    inside: &Inside<'_, '_, '_>,
) -> Result<Option<Vec<u8>>, AllocError>
    ensures nested { IfOk result (λ found. IfSome found (λ made. AreNested target.now.source.now 0 (length target.now.source.now)
        (definition_of inside.now.first ∷ definitions_of inside.now.others.now) inside.now.point)) }
    ensures made { IfOk result (λ found. IfSome found (λ made. made.items
        ≡ changed_text target.now.source.now (place_of target.now) (function_text target.now.source.now (definition_of inside.now.first)
        (definitions_of inside.now.others.now) inside.now.point))) }
{
    let source = target.source;
    if !is_proper(source, inside) {
        return Ok(None);
    }
    let Some(function) = function_of(alloc, source, inside)? else {
        return Ok(None);
    };
    Ok(with_declaration(alloc, target, function.as_slice())?)
}

/// Returns the source with a variable that is what a name means.
pub fn with_variable(
    alloc: Global,
    target: &Target<'_>,
    name: &str,
) -> Result<Option<Vec<u8>>, AllocError>
    ensures { IfOk result (λ found. IfSome found (λ made. made.items ≡ changed_text target.now.source.now (place_of target.now) (variable_text name.now))) }
{
    let mut variable = Vec::from_slice(alloc, b" ; part'types = ")?;
    variable.extend_from_slice(name.as_bytes())?;
    Ok(with_declaration(alloc, target, variable.as_slice())?)
}
