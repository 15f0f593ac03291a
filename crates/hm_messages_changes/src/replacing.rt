//! Finds the definitions that have names which aren't in scope. It is proved only that the search ends: a trial tests what is found.

use crate::data::Other;
use crate::places::bytes_of;
use hm_lex::Place;
use hm_messages_outline::{
    Lexed, Run, binding_from, declaration_end, is_clause_of, name_at, past_semicolons,
};
use hm_parse_grammar::Symbol;
use std::alloc::{AllocError, Global};

/// The most faults for which definitions are replaced.
const MOST_FAULTS: usize = 256;

/// A definition with the signature right before it, if it has one.
#[derive(Clone, Copy)]
struct Definition {
    start: usize,
    clauses: Run,
}

/// Returns the definition that begins here with a clause or with a signature of its own.
fn definition_at(lexed: &Lexed<'_>, at: usize) -> Option<Definition> {
    let mut clause = at;
    let after = lexed.outline.symbol(at.saturating_add(1));
    if after.is(Symbol::OfType) {
        clause = past_semicolons(lexed.outline, declaration_end(lexed.outline, at));
    }
    if !is_clause_of(lexed.source, lexed.tokens, lexed.outline, clause, at) {
        return None;
    }
    Some(Definition {
        start: at,
        clauses: binding_from(lexed.source, lexed.tokens, lexed.outline, clause),
    })
}

/// Returns whether a place is that of a token of a run, or lies between two of them.
fn lies_in(lexed: &Lexed<'_>, run: Run, place: Place) -> bool {
    let last = run.end.saturating_sub(1);
    if run.start >= run.end || last >= lexed.tokens.len() {
        return false;
    }
    !place.is_before(lexed.tokens[run.start].place) && !lexed.tokens[last].place.is_before(place)
}

/// Returns how many of these places lie in a run.
fn count_in(lexed: &Lexed<'_>, run: Run, places: &[Place]) -> usize {
    let mut count = 0usize;
    for place in places {
        if lies_in(lexed, run, *place) {
            count = count.saturating_add(1);
        }
    }
    count
}

/// Returns the clauses of a definition, with its signature if one of the places lies in that.
fn replacement<'a>(
    lexed: &Lexed<'a>,
    definition: Definition,
    places: &[Place],
) -> Option<Other<'a>> {
    let Definition { start, clauses } = definition;
    let signature = Run {
        start,
        end: clauses.start,
    };
    let start = if count_in(lexed, signature, places) > 0 {
        start
    } else {
        clauses.start
    };
    let end = clauses.end;
    if start >= lexed.tokens.len() {
        return None;
    }
    let (from, to) = bytes_of(lexed.tokens, Run { start, end }, lexed.source)?;
    let name = name_at(lexed.source, &lexed.tokens[start]);
    Some(Other { name, from, to })
}

// Why: docs/DECISIONS.md, "Replaced definitions".
/// Returns the definitions among these declarations that have a name at one of these places. Returns `None` if a place is elsewhere, or if there are too
/// many.
pub fn replaced_of<'a>(
    alloc: Global,
    lexed: &Lexed<'a>,
    declarations: Run,
    places: &[Place],
) -> Result<Option<Vec<Other<'a>>>, AllocError> {
    if places.len() > MOST_FAULTS {
        return Ok(None);
    }
    let mut found = Vec::new(alloc);
    let mut held = 0usize;
    let mut at = declarations.start;
    for _ in declarations.start..declarations.end {
        if at >= declarations.end {
            break;
        }
        let mut end = declaration_end(lexed.outline, at);
        if let Some(definition) = definition_at(lexed, at) {
            end = definition.clauses.end;
            let count = count_in(lexed, Run { start: at, end }, places);
            if count > 0 {
                if let Some(other) = replacement(lexed, definition, places) {
                    found.push(other)?;
                    held = held.saturating_add(count);
                }
            }
        }
        at = end.saturating_add(1);
    }
    if held != places.len() {
        return Ok(None);
    }
    Ok(Some(found))
}
