//! Exchanges of neighbouring patterns of a clause or a lambda.

use crate::changes::{SmallChange, atoms_of, exchange_of};
use crate::reported::Reported;
use hm_messages_outline::{Lexed, Role, Run, TermPart, without_brackets};
use hm_parse_grammar::Symbol;
use std::alloc::{AllocError, Global};

/// The most patterns of a clause or a lambda of which neighbours are exchanged.
const MOST_PATTERNS: usize = 6;

/// The most exchanges of patterns that are tried.
const MOST_EXCHANGES: usize = 32;

/// Adds the exchanges of patterns next to each other among these tokens.
fn add_neighbours(
    alloc: Global,
    found: &mut Vec<SmallChange>,
    lexed: &Lexed<'_>,
    run: Run,
) -> Result<(), AllocError> {
    let patterns = atoms_of(alloc, lexed.outline, run)?;
    let patterns = patterns.as_slice();
    if patterns.len() > MOST_PATTERNS {
        return Ok(());
    }
    for second in 1..patterns.len() {
        let (left, right) = (patterns[second - 1], patterns[second]);
        found.push(exchange_of(lexed, left, right, Reported::Patterns(left, right)))?;
    }
    Ok(())
}

/// Returns the patterns of the clause whose right side this is, if it begins with the name of a function and has no guard.
fn patterns_before(lexed: &Lexed<'_>, side: Run) -> Option<Run> {
    let outline = lexed.outline;
    let equals = side.start.checked_sub(1)?;
    let mut start = equals;
    for _ in 0..equals {
        match outline.symbol(start) {
            Symbol::Semicolon | Symbol::LeftBrace => break,
            _ => start = start.saturating_sub(1),
        }
    }
    let name = start.saturating_add(1);
    if !outline.symbol(equals).is(Symbol::Equals) || !outline.symbol(name).is(Symbol::Var) {
        return None;
    }
    if outline.find(name, equals, Symbol::Colon).is_some()
        || outline.find(name, equals, Symbol::Bar).is_some()
    {
        return None;
    }
    Some(Run {
        start: name.saturating_add(1),
        end: equals,
    })
}

/// Returns the patterns of a lambda.
fn patterns_of_lambda(lexed: &Lexed<'_>, lambda: Run) -> Option<Run> {
    let start = lambda.start.saturating_add(1);
    let end = lexed.outline.find(start, lambda.end, Symbol::Arrow)?;
    Some(Run { start, end })
}

/// Returns the patterns that belong to an expression: those of a lambda, or of the clause whose right side it is.
fn patterns_for(lexed: &Lexed<'_>, part: TermPart) -> Option<Run> {
    let run = without_brackets(lexed.outline, part.run);
    if lexed.outline.symbol(run.start).is(Symbol::Backslash) {
        return patterns_of_lambda(lexed, run);
    }
    if part.role == Role::Body {
        return patterns_before(lexed, part.run);
    }
    None
}

// Why: docs/DECISIONS.md, "Texts put in".
/// Returns the exchanges of neighbouring patterns of the clauses and lambdas among these parts.
pub fn pattern_exchanges_in(
    alloc: Global,
    lexed: &Lexed<'_>,
    parts: &[TermPart],
) -> Result<Vec<SmallChange>, AllocError> {
    let mut found = Vec::new(alloc);
    for part in parts {
        if part.role != Role::Pattern && found.len() < MOST_EXCHANGES {
            if let Some(patterns) = patterns_for(lexed, *part) {
                add_neighbours(alloc, &mut found, lexed, patterns)?;
            }
        }
    }
    Ok(found)
}
