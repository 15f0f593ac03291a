//! A source with `_` in place of a pattern, and with the pattern's variables bound to the hole.
ghost use Rattle.std.specs.Prelude.{◌≡◌, ◌≤◌, IfOk, All, flat_map, length, true};
ghost use Rattle.hm_messages_changes.specs.Wildcards.{IsInside, bindings as bindings_text, closing as closing_text, hole_for as hole_text, opening as opening_text, with_wildcard as wildcard_text};

use crate::data::{Frame, HOLE, Rebound, SourceRange, Span};
use crate::edits::joined;
use std::alloc::{AllocError, Global};

/// Returns the text before the bindings.
pub(crate) fn opening(frame: Frame) -> &'static str
    ensures { result.now ≡ opening_text frame }
{
    match frame {
        Frame::Where => " where { ",
        Frame::Front => " ",
        Frame::Let => " let { ",
    }
}

/// Returns the text after the bindings.
pub(crate) fn closing(frame: Frame) -> &'static str
    ensures { result.now ≡ closing_text frame }
{
    match frame {
        Frame::Where => "}",
        Frame::Front => "",
        Frame::Let => "} in ",
    }
}

/// Returns a binding of a variable to the hole.
fn hole_for(alloc: Global, source: &[u8], variable: Span) -> Result<Vec<u8>, AllocError>
    requires ordered { variable.from ≤ variable.to }
    requires within { variable.to ≤ length source.now }
    ensures { IfOk result (λ made. made.items ≡ hole_text source.now variable) }
{
    let name = &source[variable.from..variable.to];
    Ok(joined(alloc, &[name, b" = ", HOLE.as_bytes(), b" ; "])?)
}

/// Returns bindings of variables to the hole.
fn holes_for(alloc: Global, source: &[u8], variables: &[Span]) -> Result<Vec<u8>, AllocError>
    requires { All (λ v. (v.from ≤ v.to) × (v.to ≤ length source.now)) variables.now }
    ensures { IfOk result (λ made. made.items ≡ flat_map (hole_text source.now) variables.now) }
{
    let mut made = Vec::new(alloc);
    for variable in variables {
        let binding = hole_for(alloc, source, *variable)?;
        made.extend_from_slice(binding.as_slice())?;
    }
    Ok(made)
}

/// Returns bindings of variables to the hole, with the text around them.
pub fn bindings(alloc: Global, source: &[u8], rebound: &Rebound<'_>) -> Result<Vec<u8>, AllocError>
    requires { All (λ v. (v.from ≤ v.to) × (v.to ≤ length source.now)) rebound.now.variables.now }
    ensures { IfOk result (λ made. made.items ≡ bindings_text source.now rebound.now.frame rebound.now.variables.now) }
{
    let holes = holes_for(alloc, source, rebound.variables)?;
    let front = opening(rebound.frame).as_bytes();
    let after = closing(rebound.frame).as_bytes();
    Ok(joined(alloc, &[front, holes.as_slice(), after])?)
}

/// Returns the source with `_` in place of a part, and with a text after it.
pub fn with_wildcard(
    alloc: Global,
    source: &[u8],
    part: SourceRange,
    at: usize,
    text: &[u8],
) -> Result<Vec<u8>, AllocError>
    requires ordered { part.from ≤ part.to }
    requires after { part.to ≤ at }
    requires within { at ≤ length source.now }
    ensures { IfOk result (λ made. made.items ≡ wildcard_text source.now part.from part.to at text.now) }
{
    let mut made = Vec::from_slice(alloc, &source[..part.from])?;
    made.extend_from_slice(b"_")?;
    made.extend_from_slice(&source[part.to..at])?;
    made.extend_from_slice(text)?;
    made.extend_from_slice(&source[at..])?;
    Ok(made)
}

/// Returns whether a variable lies in a part.
fn is_inside(variable: &Span, part: SourceRange) -> bool
    ensures { result ≡ true → IsInside part variable.now }
{
    part.from <= variable.from && variable.from <= variable.to && variable.to <= part.to
}

/// Returns whether variables lie in a part.
pub fn are_inside(variables: &[Span], part: SourceRange) -> bool
    ensures { result ≡ true → All (IsInside part) variables.now }
{
    variables.iter().all(|variable| is_inside(variable, part))
}
