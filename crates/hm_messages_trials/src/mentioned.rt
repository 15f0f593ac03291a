//! The search for a change of another definition that gives the definition of a type fault a type.

use crate::costs::Effort;
use crate::culprits::{Searched, culprits, is_mended_by};
use crate::ranking::is_strong;
use hm_messages_changes::{Reported, SmallChange, changes_at};
use hm_messages_outline::{
    Lexed, Run, TermPart, binding_from, declaration_end, declarations_of, has_clause, is_clause_of,
    right_sides,
};
use hm_parse_grammar::Symbol;
use std::alloc::{AllocError, Global};

/// The most definitions that are searched for a fault.
const MOST_SEARCHED: usize = 4;

// Why: docs/DECISIONS.md, "Slips elsewhere".
/// Returns whether a change is seldom right by chance: an exchange of arguments, an argument that repeats its neighbour, or brackets of a list or a tuple.
fn is_rare(lexed: &Lexed<'_>, part: TermPart, change: &SmallChange) -> bool {
    match change.reported {
        Reported::Pattern(_, _) => true,
        Reported::Expression(run) => run.end.saturating_sub(run.start) > 1,
        _ => is_strong(lexed, part, change),
    }
}

/// Returns what the first rare change of a definition reports that gives the definition of the fault a type.
fn change_in(
    alloc: Global,
    searched: &Searched<'_, '_>,
    other: Run,
    effort: &mut Effort,
) -> Result<Option<Reported>, AllocError> {
    let top = right_sides(alloc, searched.lexed.outline, other)?;
    let found = culprits(alloc, searched, top.as_slice(), effort)?;
    for part in &found.all {
        for change in &changes_at(alloc, searched.lexed, *part, false)? {
            let edits = [change.first, change.second];
            if is_rare(searched.lexed, *part, change)
                && is_mended_by(alloc, searched, &edits, effort)?
            {
                return Ok(Some(change.reported));
            }
        }
    }
    Ok(None)
}

/// Returns whether the name at a token is one of these.
fn is_named(lexed: &Lexed<'_>, at: usize, names: &[&str]) -> bool {
    let text = lexed.text(at);
    names.iter().any(|name| name.as_bytes() == text)
}

/// The definitions of a module without a signature before them, in order.
fn unsigned_in(alloc: Global, lexed: &Lexed<'_>, name: &str) -> Result<Vec<Run>, AllocError> {
    let mut found = Vec::new(alloc);
    let Some(list) = declarations_of(lexed, name) else {
        return Ok(found);
    };
    let mut signature = Run { start: 0, end: 0 };
    let mut at = list.start;
    for _ in list.start..list.end {
        if at >= list.end {
            return Ok(found);
        }
        let mut end = declaration_end(lexed.outline, at);
        let after = lexed.outline.symbol(at.saturating_add(1));
        if lexed.outline.symbol(at).is(Symbol::Var) && after.begins_signature() {
            signature = Run { start: at, end };
        } else if is_clause_of(lexed.source, lexed.tokens, lexed.outline, at, at) {
            let run = binding_from(lexed.source, lexed.tokens, lexed.outline, at);
            end = run.end;
            if !has_clause(lexed, signature, at) {
                found.push(run)?;
            }
        }
        at = end.saturating_add(1);
    }
    Ok(found)
}

// Why: docs/DECISIONS.md, "Slips elsewhere".
/// Returns what is reported of another definition that the one of the fault mentions. It has no signature, and with a rare change of it the definition of the
/// fault has a type. The search is in a smaller source, and what is reported in the whole one.
pub(crate) fn change_elsewhere(
    alloc: Global,
    searched: &Searched<'_, '_>,
    whole: &Lexed<'_>,
    effort: &mut Effort,
) -> Result<Option<Reported>, AllocError> {
    let module = searched.question.name;
    let definitions = unsigned_in(alloc, searched.lexed, module)?;
    let there = unsigned_in(alloc, whole, module)?;
    let mut tried = 0usize;
    for number in 0..definitions.len().min(there.len()) {
        let other = definitions[number];
        if tried < MOST_SEARCHED && is_named(searched.lexed, other.start, searched.others) {
            tried = tried.saturating_add(1);
            if let Some(reported) = change_in(alloc, searched, other, effort)? {
                return Ok(Some(reported.moved(other.start, there[number].start)));
            }
        }
    }
    Ok(None)
}
