//! Edits with something of every type in place of parts.

use hm_messages_changes::{Edit, Filling, HOLE, Span, add_open_patterns, in_place};
use hm_messages_outline::{Lexed, Role, Run, TermPart, one};
use hm_parse_grammar::Symbol;
use std::alloc::{AllocError, Global};

/// Returns how many of the parts from this one on are patterns of the same clause, alternative or lambda.
fn same_around(parts: &[TermPart], from: usize) -> usize {
    if from >= parts.len() {
        return 0;
    }
    let start = parts[from].around.start;
    parts[from..]
        .iter()
        .take_while(|part| part.role == Role::Pattern && part.around.start == start)
        .count()
}

/// Returns the parts from one number up to another.
fn parts_in(parts: &[TermPart], start: usize, end: usize) -> &[TermPart] {
    if start <= end && end <= parts.len() {
        &parts[start..end]
    } else {
        &parts[..0]
    }
}

/// Returns edits with something of every type in place of parts, which are in order. Patterns of one clause have their variables bound in one place.
pub(crate) fn openings(
    alloc: Global,
    lexed: &Lexed<'_>,
    parts: &[TermPart],
) -> Result<Vec<Edit>, AllocError> {
    let mut edits = Vec::new(alloc);
    let mut next = 0usize;
    for number in 0..parts.len() {
        let part = parts[number];
        if part.role != Role::Pattern {
            edits.push(in_place(lexed, part.run, Filling::Text(HOLE)))?;
        } else if number >= next {
            next = number.saturating_add(same_around(parts, number));
            let patterns = parts_in(parts, number, next);
            add_open_patterns(&mut edits, lexed, part.around, patterns)?;
        }
    }
    edits.sort_by_key(|edit| edit.from)?;
    Ok(edits)
}

/// Returns the variables of a pattern.
pub(crate) fn variables_in(
    alloc: Global,
    lexed: &Lexed<'_>,
    pattern: Run,
) -> Result<Vec<Span>, AllocError> {
    let mut found = Vec::new(alloc);
    for at in pattern.start..pattern.end {
        if lexed.outline.symbol(at).is(Symbol::Var) {
            found.push(Span {
                from: lexed.start(at),
                to: lexed.end(one(at)),
            })?;
        }
    }
    Ok(found)
}
