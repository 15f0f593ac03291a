//! The texts that are put into changed sources.
ghost use Rattle.std.specs.Prelude.{◌≡◌, ◌≤◌, ◌++◌, IfOk, IfSome, codes, length, slice_range};
ghost use Rattle.hm_messages_changes.specs.Probes.{renamed as renamed_text};
ghost use Rattle.hm_messages_copies.specs.Changes.{beside as beside_text, copy as copy_text, from_of as point_from, scoped as scoped_text, sharing as sharing_text, tied as tied_text, to_of as point_to, written as written_text};
ghost use Rattle.hm_messages_copies.specs.Data.{definition_of};

use crate::data::{Copied, Point, Scoped};
use hm_messages_changes::Span;
use std::alloc::{AllocError, Global};

/// Returns three texts, one after the other.
pub(crate) fn joined(
    alloc: Global,
    first: &[u8],
    second: &[u8],
    third: &[u8],
) -> Result<Vec<u8>, AllocError>
    ensures { IfOk result (λ made. made.items ≡ first.now ++ second.now ++ third.now) }
{
    let mut made = Vec::from_slice(alloc, first)?;
    made.extend_from_slice(second)?;
    made.extend_from_slice(third)?;
    Ok(made)
}

/// Returns the part in one list with a value of its type.
fn beside(alloc: Global, part: &[u8]) -> Result<Vec<u8>, AllocError>
    ensures { IfOk result (λ made. made.items ≡ beside_text part.now) }
{
    Ok(joined(
        alloc,
        b"(case part'here : (",
        part,
        b") : [] of { part'same : _ -> part'same })",
    )?)
}

/// Returns a declaration with a variable in one list with a value of its type.
fn sharing(alloc: Global, variable: &[u8]) -> Result<Vec<u8>, AllocError>
    ensures { IfOk result (λ made. made.items ≡ sharing_text variable.now) }
{
    Ok(joined(
        alloc,
        b"part'same = case part'here : ",
        variable,
        b" : [] of { _ -> () }",
    )?)
}

/// Returns a declaration with the text around it.
fn scoped(alloc: Global, scoped: Scoped, declaration: &[u8]) -> Result<Vec<u8>, AllocError>
    ensures { IfOk result (λ made. made.items ≡ scoped_text scoped declaration.now) }
{
    match scoped {
        Scoped::Where => Ok(joined(alloc, b" where { ", declaration, b" }")?),
        Scoped::Front => Ok(joined(alloc, b" ", declaration, b" ;")?),
        Scoped::After => Ok(joined(alloc, b" ; ", declaration, b"")?),
        Scoped::Let => Ok(joined(alloc, b" let { ", declaration, b" } in ")?),
    }
}

/// Returns the bytes of a span, or `None` if the source doesn't have them.
fn bytes_of(source: &[u8], span: Span) -> Option<&[u8]>
    ensures bytes { IfSome result (λ bytes. bytes.now ≡ slice_range source.entry.now span.from span.to) }
    ensures ordered { IfSome result (λ bytes. span.from ≤ span.to) }
    ensures within { IfSome result (λ bytes. span.to ≤ length source.entry.now) }
{
    if span.from > span.to || span.to > source.len() {
        return None;
    }
    Some(&source[span.from..span.to])
}

/// Returns where the text of a point begins.
pub(crate) fn point_from(point: &Point) -> usize
    ensures { result ≡ point_from point.now }
{
    match point {
        Point::Expression(part) => part.from,
        Point::Variable(_, at, _) => *at,
    }
}

/// Returns where the text of a point ends.
pub(crate) fn point_to(point: &Point) -> usize
    ensures { result ≡ point_to point.now }
{
    match point {
        Point::Expression(part) => part.to,
        Point::Variable(_, at, _) => *at,
    }
}

/// Returns the text of a point, or `None` if the source doesn't have its part.
pub(crate) fn written(
    alloc: Global,
    source: &[u8],
    point: &Point,
) -> Result<Option<Vec<u8>>, AllocError>
    ensures { IfOk result (λ found. IfSome found (λ made. made.items ≡ written_text source.now point.now)) }
{
    match point {
        Point::Expression(part) => {
            let Some(part) = bytes_of(source, *part) else {
                return Ok(None);
            };
            Ok(Some(beside(alloc, part)?))
        }
        Point::Variable(variable, _, place) => {
            let Some(variable) = bytes_of(source, *variable) else {
                return Ok(None);
            };
            let declaration = sharing(alloc, variable)?;
            Ok(Some(scoped(alloc, *place, declaration.as_slice())?))
        }
    }
}

/// Returns the bytes of a span, with a name in place of others. Returns `None` if these aren't in order there.
fn renamed(
    alloc: Global,
    source: &[u8],
    name: &str,
    span: Span,
    others: &[Span],
) -> Result<Option<Vec<u8>>, AllocError>
    ensures { IfOk result (λ found. IfSome found (λ made. made.items ≡ renamed_text source.now name.now span.from span.to others.now)) }
{
    let Span { from, to } = span;
    let Some((first, rest)) = others.split_first() else {
        let Some(bytes) = bytes_of(source, span) else {
            return Ok(None);
        };
        return Ok(Some(Vec::from_slice(alloc, bytes)?));
    };
    let front = Span {
        from,
        to: first.from,
    };
    let Some(front) = bytes_of(source, front) else {
        return Ok(None);
    };
    let tail = Span { from: first.to, to };
    let Some(after) = renamed(alloc, source, name, tail, rest)? else {
        return Ok(None);
    };
    let name = name.as_bytes();
    Ok(Some(followed_by(alloc, front, name, after.as_slice())?))
}

/// Returns three texts, one after the other, the last two first.
pub(crate) fn followed_by(
    alloc: Global,
    first: &[u8],
    second: &[u8],
    third: &[u8],
) -> Result<Vec<u8>, AllocError>
    ensures { IfOk result (λ made. made.items ≡ first.now ++ (second.now ++ third.now)) }
{
    let mut made = Vec::from_slice(alloc, first)?;
    made.extend_from_slice(second)?;
    made.extend_from_slice(third)?;
    Ok(made)
}

/// Returns a copy of a definition, with a text in place of the bytes from one number up to another.
pub(crate) fn copy(
    alloc: Global,
    source: &[u8],
    definition: &Copied<'_>,
    inner: Span,
    text: &[u8],
) -> Result<Option<Vec<u8>>, AllocError>
    ensures { IfOk result (λ found. IfSome found (λ made. made.items ≡ copy_text source.now (definition_of definition.now) inner.from inner.to text.now)) }
{
    let local = definition.local;
    let front = Span {
        from: definition.whole.from,
        to: inner.from,
    };
    let Some(front) = renamed(alloc, source, local.name, front, local.before)? else {
        return Ok(None);
    };
    let tail = Span {
        from: inner.to,
        to: definition.whole.to,
    };
    let Some(tail) = renamed(alloc, source, local.name, tail, local.after)? else {
        return Ok(None);
    };
    let mut made = joined(alloc, b"let { ", front.as_slice(), text)?;
    made.extend_from_slice(tail.as_slice())?;
    made.extend_from_slice(b" } in ")?;
    made.extend_from_slice(local.name.as_bytes())?;
    Ok(Some(made))
}

/// Returns a definition in one list with a copy of it.
pub(crate) fn tied(
    alloc: Global,
    front: &[u8],
    value: &str,
    copied: &[u8],
) -> Result<Vec<u8>, AllocError>
    ensures { IfOk result (λ made. made.items ≡ tied_text front.now value.now copied.now) }
{
    let mut made = joined(alloc, b"case ", front, value.as_bytes())?;
    made.extend_from_slice(b" : (")?;
    made.extend_from_slice(copied)?;
    made.extend_from_slice(b") : [] of { _ -> () }")?;
    Ok(made)
}
