//! Parts of a definition in place of which something of every type is tried.
ghost use Rattle.std.specs.Prelude.{◌≡◌, IfOk, IfSome};
ghost use Rattle.hm_messages_changes.specs.Holes.{IsPartOf, with_hole};
ghost use Rattle.hm_messages_joint.specs.Joints.{IsOpened, IsWithoutPattern, range_of};

use crate::openings::variables_in;
use hm_messages_changes::{
    BindingPlace, Rebound, SourceRange, are_inside, binding_place, bindings, part_of, with_hole,
    with_wildcard,
};
use hm_messages_outline::{Lexed, Role, Run, TermPart, declaration_end};
use std::alloc::{AllocError, Global};

/// A part of a definition.
#[derive(Clone, Copy)]
pub enum JointPart {
    /// The hole is tried in place of it.
    Expression(SourceRange),
    /// `_` is tried in place of it, and each of its variables is bound to the hole.
    Pattern(SourceRange),
}

/// Two parts of a definition, in order.
#[derive(Clone, Copy)]
pub struct Joint {
    pub first: JointPart,
    pub second: JointPart,
}

/// Two parts in tokens, in order.
#[derive(Clone, Copy)]
pub(crate) struct FoundJoint {
    pub first: TermPart,
    pub second: TermPart,
}

/// Returns the bytes and places of a part.
pub fn range_of(part: JointPart) -> SourceRange
    ensures { result ≡ range_of part }
{
    match part {
        JointPart::Expression(range) => range,
        JointPart::Pattern(range) => range,
    }
}

/// Returns what was found in tokens as a part of the source.
pub(crate) fn part_at(lexed: &Lexed<'_>, source: &[u8], found: TermPart) -> Option<JointPart>
    ensures { IfSome result (λ part. IsPartOf source.now (range_of part)) }
{
    let range = part_of(lexed.tokens, found.run, source)?;
    if found.role == Role::Pattern {
        return Some(JointPart::Pattern(range));
    }
    Some(JointPart::Expression(range))
}

/// Returns the source with the hole in place of a part, if it has such bytes.
fn without_expression(
    alloc: Global,
    source: &[u8],
    part: SourceRange,
) -> Result<Option<Vec<u8>>, AllocError>
    ensures { IfOk result (λ found. IfSome found (λ made. made.items ≡ with_hole source.now part.from part.to)) }
{
    if part.from > part.to || part.to > source.len() {
        return Ok(None);
    }
    let made = with_hole(alloc, source, part.from, part.to)?;
    Ok(Some(made))
}

/// Returns the source with `_` in place of a pattern and its variables bound to the hole, if these are variables of the pattern.
fn without_pattern(
    alloc: Global,
    source: &[u8],
    part: SourceRange,
    rebound: &Rebound<'_>,
) -> Result<Option<Vec<u8>>, AllocError>
    ensures { IfOk result (λ found. IfSome found (λ made. IsWithoutPattern source.now part made.items)) }
{
    if part.from > part.to || rebound.at < part.to || rebound.at > source.len() {
        return Ok(None);
    }
    if !are_inside(rebound.variables, part) {
        return Ok(None);
    }
    let text = bindings(alloc, source, rebound)?;
    let made = with_wildcard(alloc, source, part, rebound.at, text.as_slice())?;
    Ok(Some(made))
}

/// Returns where the variables of a pattern are bound. An expression has none.
pub(crate) fn spot_of(lexed: &Lexed<'_>, found: TermPart) -> Option<BindingPlace> {
    if found.role != Role::Pattern {
        return None;
    }
    let start = found.around.start;
    let end = declaration_end(lexed.outline, start);
    binding_place(lexed, Run { start, end })
}

/// Does what `without_pattern` does, for a pattern with these tokens.
fn without_pattern_at(
    alloc: Global,
    source: &[u8],
    lexed: &Lexed<'_>,
    part: SourceRange,
    found: TermPart,
) -> Result<Option<Vec<u8>>, AllocError>
    ensures { IfOk result (λ found. IfSome found (λ made. IsWithoutPattern source.now part made.items)) }
{
    let Some(spot) = spot_of(lexed, found) else {
        return Ok(None);
    };
    let variables = variables_in(alloc, lexed, found.run)?;
    let rebound = Rebound {
        at: spot.at,
        frame: spot.frame,
        variables: variables.as_slice(),
    };
    Ok(without_pattern(alloc, source, part, &rebound)?)
}

/// Returns the source, whose tokens these are, with something of every type in place of a part. `None` if the source has no such part.
pub(crate) fn opened_at(
    alloc: Global,
    source: &[u8],
    lexed: &Lexed<'_>,
    part: JointPart,
    found: TermPart,
) -> Result<Option<Vec<u8>>, AllocError>
    ensures { IfOk result (λ found. IfSome found (λ made. IsOpened source.now part made.items)) }
{
    match part {
        JointPart::Expression(range) => Ok(without_expression(alloc, source, range)?),
        JointPart::Pattern(range) => Ok(without_pattern_at(alloc, source, lexed, range, found)?),
    }
}
