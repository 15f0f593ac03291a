//! The smallest parts of an expression.

use hm_messages_outline::{Outline, Role, TermPart, parts_below};
use hm_parse_grammar::Symbol;
use std::alloc::{AllocError, Global};

/// How likely a part is to be a slip, compared with others.
#[derive(Clone, Copy, PartialEq, Eq)]
enum Suspicion {
    /// Of a function, whose arguments may be slips as well.
    Low,
    Usual,
    /// Of a literal or a constructor.
    High,
}

/// Returns how likely a part is to be a slip.
fn suspicion_of(outline: &Outline, part: TermPart) -> Suspicion {
    if part.role == Role::Function {
        return Suspicion::Low;
    }
    match outline.symbol(part.run.start) {
        Symbol::Con | Symbol::QCon | Symbol::Integer | Symbol::Character | Symbol::Text => {
            Suspicion::High
        }
        _ => Suspicion::Usual,
    }
}

/// Returns the expressions among parts.
pub(crate) fn expressions(alloc: Global, parts: &[TermPart]) -> Result<Vec<TermPart>, AllocError> {
    let mut found = Vec::new(alloc);
    for part in parts {
        if part.role != Role::Pattern {
            found.push(*part)?;
        }
    }
    Ok(found)
}

/// Returns these parts, the patterns before the expressions. What is put back last is reported, and patterns are less likely slips.
pub(crate) fn patterns_first(
    alloc: Global,
    parts: &[TermPart],
) -> Result<Vec<TermPart>, AllocError> {
    let mut found = Vec::new(alloc);
    for part in parts {
        if part.role == Role::Pattern {
            found.push(*part)?;
        }
    }
    let rest = expressions(alloc, parts)?;
    found.extend_from_slice(rest.as_slice())?;
    Ok(found)
}

/// Returns the expressions directly inside an expression.
pub(crate) fn expressions_below(
    alloc: Global,
    outline: &Outline,
    part: TermPart,
) -> Result<Vec<TermPart>, AllocError> {
    let below = parts_below(alloc, outline, part)?;
    expressions(alloc, below.as_slice())
}

/// Returns the expressions inside an expression that have none inside them, in order.
fn leaves_in_order(
    alloc: Global,
    outline: &Outline,
    part: TermPart,
) -> Result<Vec<TermPart>, AllocError> {
    let mut found = Vec::new(alloc);
    let mut pending = expressions_below(alloc, outline, part)?;
    for _ in 0..outline.len() {
        let Some(next) = pending.pop() else {
            break;
        };
        let below = expressions_below(alloc, outline, next)?;
        if below.is_empty() {
            found.push(next)?;
        }
        pending.extend_from_slice(below.as_slice())?;
    }
    found.sort_by_key(|leaf| leaf.run.start)?;
    Ok(found)
}

/// Returns the expressions inside an expression that have none inside them, the least likely ones first.
pub(crate) fn leaves_of(
    alloc: Global,
    outline: &Outline,
    part: TermPart,
) -> Result<Vec<TermPart>, AllocError> {
    let leaves = leaves_in_order(alloc, outline, part)?;
    let mut sorted = Vec::with_capacity(alloc, leaves.len())?;
    for suspicion in &[Suspicion::Low, Suspicion::Usual, Suspicion::High] {
        for leaf in &leaves {
            if suspicion_of(outline, *leaf) == *suspicion {
                sorted.push(*leaf)?;
            }
        }
    }
    Ok(sorted)
}
