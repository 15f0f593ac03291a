//! The sources in which a function takes a value of each of the two types of a part, or a variable has the type of a definition.
ghost use Rattle.std.specs.Prelude.{◌≡◌, ◌≤◌, ◌++◌, All, IfOk, IfSome, codes, flat_map, length, true};
ghost use Rattle.hm_messages_changes.specs.Holes.{hole};
ghost use Rattle.hm_messages_changes.specs.Layouts.{renaming_of, surroundings_of};
ghost use Rattle.hm_messages_changes.specs.Probes.{IsWritten, around as around_text, before as before_text, hollow as hollow_text, hollowed as hollowed_text, listed as listed_name, listed_before as listed_text, probe as probe_text, probed_definition as definition_text, probed_part as part_text, renamed as renamed_text, with_probe as probed_text, alone as alone_text, with_alone as with_alone_text};

use crate::data::{HOLE, Layout, Local, Other, SourceRange, Span};
use crate::edits::joined;
use std::alloc::{AllocError, Global};

/// Returns a value of the expected type, with a value of the part's own type in one list with the part.
fn probed_part(alloc: Global, part: &[u8]) -> Result<Vec<u8>, AllocError>
    ensures { IfOk result (λ made. made.items ≡ part_text part.now) }
{
    Ok(joined(
        alloc,
        &[
            b"(case part'actual : (",
            part,
            b") : [] of { _ -> part'expected })",
        ],
    )?)
}

/// Returns a text, a name, and another text.
fn with_name(alloc: Global, front: &[u8], name: &str, after: &[u8]) -> Result<Vec<u8>, AllocError>
    ensures { IfOk result (λ made. made.items ≡ front.now ++ (name.now ++ after.now)) }
{
    Ok(joined(alloc, &[front, name.as_bytes(), after])?)
}

/// Returns the bytes of a span, with a name in place of others. Returns `None` if these aren't in order there.
fn renamed(
    alloc: Global,
    source: &[u8],
    name: &str,
    span: Span,
    others: &[Span],
) -> Result<Option<Vec<u8>>, AllocError>
    ensures { IfOk result (λ found. IfSome found (λ made. made.items ≡ renamed_text source.now name.now span.from span.to others.now)) }
{
    let Span { from, to } = span;
    let Some((first, rest)) = others.split_first() else {
        if from > to || to > source.len() {
            return Ok(None);
        }
        return Ok(Some(Vec::from_slice(alloc, &source[from..to])?));
    };
    if from > first.from || first.from > source.len() {
        return Ok(None);
    }
    let tail = Span { from: first.to, to };
    let Some(after) = renamed(alloc, source, name, tail, rest)? else {
        return Ok(None);
    };
    let front = &source[from..first.from];
    Ok(Some(with_name(alloc, front, name, after.as_slice())?))
}

/// Returns the definition with its part so, or `None` if the names that are written anew aren't in order in it.
fn probed_definition(
    alloc: Global,
    layout: &Layout<'_>,
    part: SourceRange,
) -> Result<Option<Vec<u8>>, AllocError>
    requires ordered { part.from ≤ part.to }
    requires within { part.to ≤ length layout.now.source.now }
    ensures { IfOk result (λ found. IfSome found (λ made. made.items
        ≡ definition_text layout.now.source.now layout.now.whole (renaming_of layout.now.local) part)) }
{
    let source = layout.source;
    let Local {
        name,
        before,
        after,
    } = layout.local;
    let front = Span {
        from: layout.whole.from,
        to: part.from,
    };
    let Some(front) = renamed(alloc, source, name, front, before)? else {
        return Ok(None);
    };
    let tail = Span {
        from: part.to,
        to: layout.whole.to,
    };
    let Some(tail) = renamed(alloc, source, name, tail, after)? else {
        return Ok(None);
    };
    let probed = probed_part(alloc, &source[part.from..part.to])?;
    Ok(Some(joined(
        alloc,
        &[front.as_slice(), probed.as_slice(), tail.as_slice()],
    )?))
}

/// Returns the hole in place of a definition, and a second name for it.
fn hollow(alloc: Global, name: &[u8]) -> Result<Vec<u8>, AllocError>
    ensures { IfOk result (λ made. made.items ≡ hollow_text name.now) }
{
    Ok(joined(
        alloc,
        &[name, b" = ", HOLE.as_bytes(), b" ; part'declared = ", name],
    )?)
}

// Why: docs/DECISIONS.md, "Signatures in a note".
/// Returns the function of the two values and of one with the type of the definition, which is local in it under another name.
fn probe(alloc: Global, name: &[u8], local: &[u8], definition: &[u8]) -> Result<Vec<u8>, AllocError>
    ensures { IfOk result (λ made. made.items ≡ probe_text name.now local.now definition.now) }
{
    let hole = hollow(alloc, name)?;
    Ok(joined(
        alloc,
        &[
            hole.as_slice(),
            b" ; part'types (part'own, part'expected, part'actual) = case let { ",
            definition,
            b" } in ",
            local,
            b" : part'own : part'declared : [] of { _ -> () }",
        ],
    )?)
}

/// Returns a variable that is what the definition is without a signature.
fn alone(alloc: Global, name: &[u8], definition: &[u8]) -> Result<Vec<u8>, AllocError>
    ensures { IfOk result (λ made. made.items ≡ alone_text name.now definition.now) }
{
    let hole = hollow(alloc, name)?;
    Ok(joined(
        alloc,
        &[
            hole.as_slice(),
            b" ; part'types = let { ",
            definition,
            b" } in ",
            name,
        ],
    )?)
}

/// Returns the hole in place of a definition, between two texts.
fn with_hollow(alloc: Global, front: &[u8], name: &str, after: &[u8]) -> Result<Vec<u8>, AllocError>
    ensures { IfOk result (λ made. made.items ≡ front.now ++ name.now ++ codes " = " ++ hole ++ after.now) }
{
    Ok(joined(
        alloc,
        &[front, name.as_bytes(), b" = ", HOLE.as_bytes(), after],
    )?)
}

/// Returns the bytes from one number up to another, with the hole in place of definitions. Returns `None` if these aren't in order there.
fn hollowed(
    alloc: Global,
    source: &[u8],
    from: usize,
    to: usize,
    others: &[Other<'_>],
) -> Result<Option<Vec<u8>>, AllocError>
    ensures { IfOk result (λ found. IfSome found (λ made. made.items ≡ hollowed_text source.now from to others.now)) }
{
    let Some((first, rest)) = others.split_first() else {
        if from > to || to > source.len() {
            return Ok(None);
        }
        return Ok(Some(Vec::from_slice(alloc, &source[from..to])?));
    };
    if from > first.from || first.from > source.len() {
        return Ok(None);
    }
    let Some(after) = hollowed(alloc, source, first.to, to, rest)? else {
        return Ok(None);
    };
    let front = &source[from..first.from];
    Ok(Some(with_hollow(alloc, front, first.name, after.as_slice())?))
}

/// Returns a name of the source for an export list.
fn listed(alloc: Global, source: &[u8], name: Span) -> Result<Vec<u8>, AllocError>
    requires ordered { name.from ≤ name.to }
    requires within { name.to ≤ length source.now }
    ensures { IfOk result (λ made. made.items ≡ listed_name source.now name) }
{
    Ok(joined(alloc, &[&source[name.from..name.to], b" , "])?)
}

/// Returns names of the source for an export list. Returns `None` if they aren't in the source.
fn all_listed(alloc: Global, source: &[u8], names: &[Span]) -> Result<Option<Vec<u8>>, AllocError>
    ensures { IfOk result (λ found. IfSome found (λ made. made.items ≡ flat_map (listed_name source.now) names.now)) }
{
    let mut made = Vec::new(alloc);
    for name in names {
        if name.from > name.to || name.to > source.len() {
            return Ok(None);
        }
        let item = listed(alloc, source, *name)?;
        made.extend_from_slice(item.as_slice())?;
    }
    Ok(Some(made))
}

/// Returns the source before the definition, with the function and the names at the beginning of the export list.
fn listed_before(
    alloc: Global,
    layout: &Layout<'_>,
    at: usize,
) -> Result<Option<Vec<u8>>, AllocError>
    ensures { IfOk result (λ found. IfSome found (λ made. made.items
        ≡ listed_text layout.now.source.now at layout.now.names.now layout.now.whole.from layout.now.before.now)) }
{
    let source = layout.source;
    if at > source.len() {
        return Ok(None);
    }
    let Some(after) = hollowed(alloc, source, at, layout.whole.from, layout.before)? else {
        return Ok(None);
    };
    let Some(names) = all_listed(alloc, source, layout.names)? else {
        return Ok(None);
    };
    let front = &source[..at];
    Ok(Some(joined(
        alloc,
        &[front, b"part'types , ", names.as_slice(), after.as_slice()],
    )?))
}

/// Returns the source before the definition, with the function and the names among the exports.
fn before(alloc: Global, layout: &Layout<'_>) -> Result<Option<Vec<u8>>, AllocError>
    ensures { IfOk result (λ found. IfSome found (λ made. made.items
        ≡ before_text layout.now.source.now layout.now.exported layout.now.names.now layout.now.whole.from layout.now.before.now)) }
{
    let source = layout.source;
    let from = layout.whole.from;
    match layout.exported {
        None => Ok(hollowed(alloc, source, 0, from, layout.before)?),
        Some(at) => Ok(listed_before(alloc, layout, at)?),
    }
}

/// Returns the source with a text in place of the definition.
fn around(alloc: Global, layout: &Layout<'_>, text: &[u8]) -> Result<Option<Vec<u8>>, AllocError>
    ensures { IfOk result (λ found. IfSome found (λ made. made.items ≡ around_text layout.now.source.now (surroundings_of layout.now) text.now)) }
{
    let source = layout.source;
    let Some(front) = before(alloc, layout)? else {
        return Ok(None);
    };
    let to = layout.whole.to;
    let Some(after) = hollowed(alloc, source, to, source.len(), layout.after)? else {
        return Ok(None);
    };
    Ok(Some(joined(alloc, &[front.as_slice(), text, after.as_slice()])?))
}

/// Returns whether bytes of a source are a name.
fn is_written(source: &[u8], name: &[u8], span: Span) -> bool
    ensures { result ≡ true → IsWritten source.now name.now span }
{
    if span.from > span.to || span.to > source.len() {
        return false;
    }
    &source[span.from..span.to] == name
}

/// Returns whether all of these are a name.
fn are_written(source: &[u8], name: &[u8], spans: &[Span]) -> bool
    ensures { result ≡ true → All (IsWritten source.now name.now) spans.now }
{
    spans.iter().all(|span| is_written(source, name, *span))
}

/// Returns the source with the function in place of the definition. Returns `None` if the part doesn't lie in that, or if what is written anew isn't its name.
pub fn with_probe(
    alloc: Global,
    layout: &Layout<'_>,
    part: SourceRange,
) -> Result<Option<Vec<u8>>, AllocError>
    ensures starts { IfOk result (λ found. IfSome found (λ made. layout.now.whole.from ≤ part.from)) }
    ensures ordered { IfOk result (λ found. IfSome found (λ made. part.from ≤ part.to)) }
    ensures ends { IfOk result (λ found. IfSome found (λ made. part.to ≤ layout.now.whole.to)) }
    ensures within { IfOk result (λ found. IfSome found (λ made. layout.now.whole.to ≤ length layout.now.source.now)) }
    ensures before { IfOk result (λ found. IfSome found (λ made. All (IsWritten layout.now.source.now layout.now.name.now) layout.now.local.before.now)) }
    ensures after { IfOk result (λ found. IfSome found (λ made. All (IsWritten layout.now.source.now layout.now.name.now) layout.now.local.after.now)) }
    ensures made { IfOk result (λ found. IfSome found (λ made. made.items
        ≡ probed_text layout.now.source.now layout.now.name.now (surroundings_of layout.now) part)) }
{
    let source = layout.source;
    let whole = layout.whole;
    if whole.from > part.from || part.from > part.to {
        return Ok(None);
    }
    if part.to > whole.to || whole.to > source.len() {
        return Ok(None);
    }
    let name = layout.name.as_bytes();
    if !are_written(source, name, layout.local.before) {
        return Ok(None);
    }
    if !are_written(source, name, layout.local.after) {
        return Ok(None);
    }
    let Some(definition) = probed_definition(alloc, layout, part)? else {
        return Ok(None);
    };
    let local = layout.local.name.as_bytes();
    let probe = probe(alloc, name, local, definition.as_slice())?;
    Ok(around(alloc, layout, probe.as_slice())?)
}

/// Returns the source with a variable in place of the definition that is what the definition is without a signature.
pub fn with_alone(alloc: Global, layout: &Layout<'_>) -> Result<Option<Vec<u8>>, AllocError>
    ensures ordered { IfOk result (λ found. IfSome found (λ made. layout.now.whole.from ≤ layout.now.whole.to)) }
    ensures within { IfOk result (λ found. IfSome found (λ made. layout.now.whole.to ≤ length layout.now.source.now)) }
    ensures made { IfOk result (λ found. IfSome found (λ made. made.items
        ≡ with_alone_text layout.now.source.now layout.now.name.now (surroundings_of layout.now))) }
{
    let source = layout.source;
    let Span { from, to } = layout.whole;
    if from > to || to > source.len() {
        return Ok(None);
    }
    let alone = alone(alloc, layout.name.as_bytes(), &source[from..to])?;
    Ok(around(alloc, layout, alone.as_slice())?)
}
