//! The definitions that a token is in. It is proved only that each walk ends.

use hm_messages_outline::{
    Lexed, Outline, Run, binding_from, declaration_end, has_clause, is_clause_of, name_at,
    past_semicolons,
};
use hm_parse_grammar::Symbol;
use std::alloc::{AllocError, Global};

/// A declaration: all clauses of a function, a pattern binding, or another one. `list` is the list of declarations that it is in.
#[derive(Clone, Copy)]
pub struct Declared {
    pub list: Run,
    pub run: Run,
}

/// Returns the declaration of a list that a token is in.
pub fn declared_in(lexed: &Lexed<'_>, list: Run, token: usize) -> Option<Declared> {
    let mut at = list.start;
    for _ in list.start..list.end {
        at = past_semicolons(lexed.outline, at);
        if at >= list.end {
            return None;
        }
        let run = binding_from(lexed.source, lexed.tokens, lexed.outline, at);
        if run.has(token) {
            return Some(Declared { list, run });
        }
        at = run.end.max(at.saturating_add(1));
    }
    None
}

/// Returns whether a list of declarations begins after a brace here, and has a token.
fn is_list_around(outline: &Outline, brace: usize, token: usize) -> bool {
    if !outline.symbol(brace).is(Symbol::LeftBrace) || outline.closing(brace) <= token {
        return false;
    }
    match outline.symbol(brace.saturating_sub(1)) {
        Symbol::Let | Symbol::Where => true,
        _ => false,
    }
}

/// Returns the declarations that a token is in, each inside of the one before.
pub fn declarations_around(
    alloc: Global,
    lexed: &Lexed<'_>,
    body: Run,
    token: usize,
) -> Result<Vec<Declared>, AllocError> {
    let mut found = Vec::new(alloc);
    let Some(first) = declared_in(lexed, body, token) else {
        return Ok(found);
    };
    found.push(first)?;
    for brace in first.run.start..token {
        if is_list_around(lexed.outline, brace, token) {
            let list = Run {
                start: brace.saturating_add(1),
                end: lexed.outline.closing(brace),
            };
            match declared_in(lexed, list, token) {
                Some(declared) => found.push(declared)?,
                None => return Ok(found),
            }
        }
    }
    Ok(found)
}

/// Returns whether a declaration is a definition.
pub fn is_definition(outline: &Outline, run: Run) -> bool {
    match outline.symbol(run.start) {
        Symbol::Data | Symbol::Newtype | Symbol::TypeWord | Symbol::Import => false,
        _ => outline.find(run.start, run.end, Symbol::Equals).is_some(),
    }
}

/// Returns the first of these tokens that isn't an open bracket.
fn past_brackets(outline: &Outline, run: Run) -> usize {
    for at in run.start..run.end {
        if !outline.symbol(at).is(Symbol::Open) {
            return at;
        }
    }
    run.end
}

/// Returns the token of the variable that a definition or its first clause defines, or `None` for a pattern binding. `(x) = e` is the clause `x = e`.
pub(crate) fn variable_of(lexed: &Lexed<'_>, run: Run) -> Option<usize> {
    let outline = lexed.outline;
    let at = past_brackets(outline, run);
    if !is_clause_of(lexed.source, lexed.tokens, outline, at, at) {
        return None;
    }
    let brackets = at.saturating_sub(run.start);
    if brackets == 0 {
        return Some(at);
    }
    let close = outline.closing(run.start);
    let after = outline.symbol(close.saturating_add(1));
    let is_lone = close == at.saturating_add(brackets);
    if is_lone && (after.is(Symbol::Equals) || after.is(Symbol::Bar)) {
        return Some(at);
    }
    None
}

/// Returns the name of a definition of a source, or `()` for a pattern binding.
pub fn name_of<'a>(source: &'a [u8], lexed: &Lexed<'_>, run: Run) -> &'a str {
    match variable_of(lexed, run) {
        Some(at) if at < lexed.tokens.len() => name_at(source, &lexed.tokens[at]),
        _ => "()",
    }
}

/// Returns whether the list of a definition has a signature of it.
pub fn is_signed(lexed: &Lexed<'_>, declared: Declared) -> bool {
    let Declared { list, run } = declared;
    let Some(variable) = variable_of(lexed, run) else {
        return false;
    };
    let mut at = list.start;
    for _ in list.start..list.end {
        at = past_semicolons(lexed.outline, at);
        if at >= list.end {
            return false;
        }
        let end = declaration_end(lexed.outline, at);
        let after = lexed.outline.symbol(at.saturating_add(1));
        let signature = Run { start: at, end };
        if lexed.outline.symbol(at).is(Symbol::Var)
            && after.begins_signature()
            && has_clause(lexed, signature, variable)
        {
            return true;
        }
        at = end.max(at.saturating_add(1));
    }
    false
}

/// Returns the clause of a definition that a token is in.
pub(crate) fn clause_with(outline: &Outline, run: Run, token: usize) -> Option<Run> {
    let mut at = run.start;
    for _ in run.start..run.end {
        at = past_semicolons(outline, at);
        if at >= run.end {
            return None;
        }
        let clause = Run {
            start: at,
            end: declaration_end(outline, at),
        };
        if clause.has(token) {
            return Some(clause);
        }
        at = clause.end.max(at.saturating_add(1));
    }
    None
}
