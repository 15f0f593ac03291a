//! A source in which each name has a definition: the hole as the definition of some, and spaces in place of definitions that have others.
ghost use Rattle.std.specs.Prelude.{◌≡◌, ◌≤◌, ◌++◌, IfOk, IfSome, None, flat_map, length, map};
ghost use Rattle.hm_messages_changes.specs.Blanks.{all_blanked as blanked_text, blank as blank_byte, blanked as blanked_definition, defined, replaced as replaced_text, with_definitions as defined_text};

use crate::data::{HOLE, Other};
use crate::edits::joined;
use std::alloc::{AllocError, Global};

/// Returns a definition of a variable as the hole, after a semicolon.
fn definition_of(alloc: Global, name: &str) -> Result<Vec<u8>, AllocError>
    ensures { IfOk result (λ made. made.items ≡ defined name.now) }
{
    Ok(joined(alloc, &[b" ; ", name.as_bytes(), b" = ", HOLE.as_bytes()])?)
}

/// Returns definitions of variables as the hole.
fn definitions_of(alloc: Global, names: &[&str]) -> Result<Vec<u8>, AllocError>
    ensures { IfOk result (λ made. made.items ≡ flat_map defined (map (λ n. n.now) names.now)) }
{
    let mut made = Vec::new(alloc);
    for name in names {
        let definition = definition_of(alloc, name)?;
        made.extend_from_slice(definition.as_slice())?;
    }
    Ok(made)
}

/// Returns the source with definitions of variables as the hole after its first bytes.
fn with_definitions(
    alloc: Global,
    source: &[u8],
    at: usize,
    names: &[&str],
) -> Result<Vec<u8>, AllocError>
    requires { at ≤ length source.now }
    ensures { IfOk result (λ made. made.items ≡ defined_text source.now at (map (λ n. n.now) names.now)) }
{
    let definitions = definitions_of(alloc, names)?;
    let front = &source[..at];
    let after = &source[at..];
    Ok(joined(alloc, &[front, definitions.as_slice(), after])?)
}

/// Returns a space, or the byte itself if it ends a line.
fn blank(byte: u8) -> u8
    ensures { result ≡ blank_byte byte }
{
    if byte == b'\n' { byte } else { b' ' }
}

/// Returns spaces in place of bytes. Ends of lines stay.
fn blanks(alloc: Global, bytes: &[u8]) -> Result<Vec<u8>, AllocError>
    ensures { IfOk result (λ made. made.items ≡ map blank_byte bytes.now) }
{
    let mut made = Vec::new(alloc);
    for byte in bytes {
        made.push(blank(*byte))?;
    }
    Ok(made)
}

/// Returns the source with spaces in place of a definition.
fn blanked(alloc: Global, source: &[u8], definition: &Other<'_>) -> Result<Vec<u8>, AllocError>
    requires ordered { definition.now.from ≤ definition.now.to }
    requires within { definition.now.to ≤ length source.now }
    ensures { IfOk result (λ made. made.items ≡ blanked_definition source.now definition.now) }
{
    let spaces = blanks(alloc, &source[definition.from..definition.to])?;
    let front = &source[..definition.from];
    let after = &source[definition.to..];
    Ok(joined(alloc, &[front, spaces.as_slice(), after])?)
}

/// Returns the source with spaces in place of definitions. Returns `None` if they aren't in the source.
fn all_blanked(
    alloc: Global,
    source: &[u8],
    definitions: &[Other<'_>],
) -> Result<Option<Vec<u8>>, AllocError>
    ensures { IfOk result (λ found. IfSome found (λ made. made.items ≡ blanked_text source.now definitions.now)) }
{
    let Some((first, rest)) = definitions.split_first() else {
        return Ok(Some(Vec::from_slice(alloc, source)?));
    };
    let Some(text) = all_blanked(alloc, source, rest)? else {
        return Ok(None);
    };
    if first.from > first.to || first.to > text.len() {
        return Ok(None);
    }
    Ok(Some(blanked(alloc, text.as_slice(), first)?))
}

/// Returns these names, and after them those of definitions.
fn names_with<'a>(
    alloc: Global,
    names: &[&'a str],
    definitions: &[Other<'a>],
) -> Result<Vec<&'a str>, AllocError>
    ensures { IfOk result (λ all. map (λ n. n.now) all.items ≡ map (λ n. n.now) names.now ++ map (λ d. d.name.now) definitions.now) }
{
    let mut all = Vec::from_slice(alloc, names)?;
    for definition in definitions {
        all.push(definition.name)?;
    }
    Ok(all)
}

/// How a source is changed so that its names are in scope.
#[derive(Clone, Copy)]
pub struct ScopeChange<'a> {
    /// The variables that get a definition, except those of replaced definitions.
    pub names: &'a [&'a str],
    /// The definitions that spaces replace.
    pub replaced: &'a [Other<'a>],
    /// The byte at which the definitions as the hole are put in.
    pub at: usize,
}

/// Returns the source with a change, or `None` if it can't be made.
pub fn changed_by(
    alloc: Global,
    source: &[u8],
    change: &ScopeChange<'_>,
) -> Result<Option<Vec<u8>>, AllocError>
    ensures { IfOk result (λ found. IfSome found (λ made. made.items
        ≡ replaced_text source.now change.now.at (map (λ n. n.now) change.now.names.now) change.now.replaced.now)) }
{
    let Some(text) = all_blanked(alloc, source, change.replaced)? else {
        return Ok(None);
    };
    let names = names_with(alloc, change.names, change.replaced)?;
    if change.at > text.len() {
        return Ok(None);
    }
    Ok(Some(with_definitions(alloc, text.as_slice(), change.at, names.as_slice())?))
}
